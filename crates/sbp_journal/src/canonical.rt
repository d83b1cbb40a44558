ghost use Rattle.std.specs.Prelude.{◌≡◌, ℕ, ◌<◌, ◌≤◌, ◌==◌, ◌++◌, List, length, take, IsTrue, IfOk, IfSome, OnOk};
ghost use Rattle.std.specs.List.{list_all, prefix_len};
ghost use Rattle.line_text.specs.Canonical.{canonical, piece_text, repeated};
ghost use Rattle.sbp_journal.specs.Pieces.{with_piece, with_plain};

use line_text::{push_decimal, push_hexadecimal};
use sbp_base::{Bytes, NoMemory};
use std::alloc::Global;

/// The least length of a run that is told by its length.
const LONG: usize = 4;

/// How many equal bytes are counted in one step.
const BLOCK: usize = 256;

/// Bytes in the canonical form: digits, with `HH*N` for N equal bytes. There is one byte at least.
pub(crate) fn canonical_text(alloc: Global, bytes: &[u8]) -> Result<Bytes, NoMemory>
    requires { 0 < length bytes.now }
    ensures { IfOk result (λ text. text ≡ canonical bytes.now) }
{
    let mut text = Bytes::new(alloc);
    let mut start = 0;
    let mut at = 0;
    while at < bytes.len() {
        let byte = bytes[at];
        let count = run_length(byte, &bytes[at..]);
        if LONG <= count {
            push_plain(&mut text, &bytes[start..at])?;
            push_repeated(&mut text, byte, count)?;
            start = at + count;
        }
        at += count;
    }
    push_plain(&mut text, &bytes[start..])?;
    Ok(text)
}

/// The byte and the length of bytes that are all equal, where they are told so.
#[tactic(auto, using(crate::proofs::Runs::one_run_text))]
pub(crate) fn one_run(bytes: &[u8]) -> Option<(u8, usize)>
    requires { 0 < length bytes.now }
    ensures { IfSome result (λ run. canonical bytes.now ≡ piece_text (repeated run.0 run.1)) }
{
    let byte = bytes[0];
    let count = run_length(byte, bytes);
    if count == bytes.len() && LONG <= count {
        Some((byte, count))
    } else {
        None
    }
}

/// How many bytes at the front equal `byte`. A block of such bytes is counted in one step.
fn run_length(byte: u8, bytes: &[u8]) -> usize
    ensures counted { result ≡ prefix_len (λ other. other == byte) bytes.now }
    ensures within { result ≤ length bytes.now }
{
    let mut at = 0;
    while begins_block(byte, &bytes[at..]) {
        at += BLOCK;
    }
    at + count_front(byte, &bytes[at..])
}

/// Whether a block of bytes that equal `byte` is at the front.
fn begins_block(byte: u8, bytes: &[u8]) -> bool
    ensures { IsTrue result → (256 ≤ length bytes.now) × IsTrue (list_all (λ other. other == byte) (take 256 bytes.now)) }
{
    BLOCK <= bytes.len() && are_all(byte, &bytes[..BLOCK])
}

/// Whether each byte equals `byte`. All are looked at, so that many are in one step.
fn are_all(byte: u8, bytes: &[u8]) -> bool
    ensures { result ≡ list_all (λ other. other == byte) bytes.now }
{
    let mut same = true;
    for at in 0..bytes.len() {
        same &= bytes[at] == byte;
    }
    same
}

/// How many bytes at the front equal `byte`, one by one.
fn count_front(byte: u8, bytes: &[u8]) -> usize
    ensures counted { result ≡ prefix_len (λ other. other == byte) bytes.now }
    ensures within { result ≤ length bytes.now }
{
    bytes.iter().take_while(|other| **other == byte).count()
}

/// Adds bytes as digits, where there are any.
fn push_plain(text: &mut Bytes, bytes: &[u8]) -> Result<(), NoMemory>
    ensures { OnOk result (text.new ≡ with_plain text.old bytes.now) }
{
    if bytes.is_empty() {
        return Ok(());
    }
    push_plus(text)?;
    push_hexadecimal(text, bytes)
}

/// Adds a byte and how often it stands.
fn push_repeated(text: &mut Bytes, byte: u8, count: usize) -> Result<(), NoMemory>
    ensures { OnOk result (text.new ≡ with_piece text.old (piece_text (repeated byte count))) }
{
    push_plus(text)?;
    push_hexadecimal(text, &[byte])?;
    text.push(b'*')?;
    push_decimal(text, count as u64)
}

/// Adds the `+` before a piece that is not the first.
fn push_plus(text: &mut Bytes) -> Result<(), NoMemory>
    ensures { OnOk result ((piece : List ℕ) → text.new ++ piece ≡ with_piece text.old piece) }
{
    if text.as_slice().is_empty() {
        return Ok(());
    }
    text.push(b'+')
}
