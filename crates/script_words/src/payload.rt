ghost use Rattle.std.specs.Prelude.{◌≡◌, ◌≢◌, ◌≤◌, ◌++◌, ◌==◌, ◌^◌, IsTrue, replicate, sum, length, IfOk, OnOk, IfErr};
ghost use Rattle.std.specs.List.{list_all};
ghost use Rattle.script_words.specs.Words as numerals;
ghost use Rattle.script_words.specs.Words.{shown};
ghost use Rattle.script_words.specs.Payload as spec;
ghost use Rattle.script_words.specs.Payload.{pieces, piece_bytes, bytes_of, is_whole};

use crate::fault::LineFault;
use crate::words::{
    byte_of, bytes_of_hex, is_between, is_hex, is_numeral, number, parts_of, value_of,
};
use sbp_base::{Bytes, Lengths};
use std::alloc::Global;

/// The most bytes of a command's data.
const MOST_DATA: usize = 16384;

/// The bytes of a block of the disk.
const BLOCK: usize = 512;

/// The most segments of a buffer.
const MOST_SEGMENTS: usize = 64;

/// The most bytes of a segment, and of a piece `HH*N`.
const MOST_BYTES: u32 = 16384;

/// Whether a word is DATA: pieces with `+` between them.
pub fn is_data(word: &[u8]) -> bool
    ensures { result ≡ spec.is_data word.now }
{
    word.split(|byte| *byte == b'+')
        .all(|piece| is_piece(piece))
}

/// Whether some bytes are a piece of DATA: digits of bytes, or `HH*N` for N equal bytes.
#[tactic(auto, unfolding(crate::specs::Payload::is_piece))]
fn is_piece(piece: &[u8]) -> bool
    ensures { result ≡ spec.is_piece piece.now }
{
    if has_star(piece) {
        is_hex(&piece[..2]) && is_numeral(&piece[3..])
    } else {
        is_hex(piece)
    }
}

/// Whether a piece is `HH*N`.
fn has_star(piece: &[u8]) -> bool
    ensures { result ≡ spec.has_star piece.now }
{
    piece.len() > 2 && piece[2] == b'*'
}

/// Whether the number of a piece `HH*N` is 1 to 16384.
#[tactic(auto, unfolding(crate::specs::Payload::has_count))]
fn has_count(piece: &[u8]) -> bool
    ensures { result ≡ spec.has_count piece.now }
{
    if has_star(piece) {
        is_between(&piece[3..], 1, MOST_BYTES)
    } else {
        true
    }
}

/// The data that a word spells, whose length is a multiple of 512 from 512 to 16384.
pub fn data_of(alloc: Global, word: &[u8]) -> Result<Bytes, LineFault>
    ensures { result ≢ Err LineFault.NoMemory → result ≡ bytes_of (pieces word.now) }
{
    let parts = parts_of(alloc, word, b'+')?;
    join_pieces(alloc, parts.as_slice())
}

/// The bytes of some pieces, if they are whole blocks, one to 32 of them. It ends where they are too
/// many, so that a short line makes no long work.
fn join_pieces(alloc: Global, parts: &[&[u8]]) -> Result<Bytes, LineFault>
    ensures { result ≢ Err LineFault.NoMemory → result ≡ bytes_of (shown parts.now) }
{
    let mut bytes = Bytes::new(alloc);
    for piece in parts {
        if !has_count(piece) {
            return Err(LineFault::Range);
        }
        push_piece(alloc, &mut bytes, piece)?;
        if bytes.as_slice().len() > MOST_DATA {
            return Err(LineFault::Range);
        }
    }
    if is_whole_length(bytes.as_slice().len()) {
        Ok(bytes)
    } else {
        Err(LineFault::Range)
    }
}

/// Whether so many bytes are whole blocks, one to 32 of them.
fn is_whole_length(len: usize) -> bool
    ensures { result ≡ is_whole len }
{
    len % 512 == 0 && len >= 512 && len <= MOST_DATA
}

/// Adds the bytes of a piece.
#[tactic(auto, unfolding(crate::specs::Payload::piece_bytes, crate::specs::Payload::has_count))]
fn push_piece(alloc: Global, bytes: &mut Bytes, piece: &[u8]) -> Result<(), LineFault>
    requires { IsTrue (spec.has_count piece.now) }
    ensures ok { OnOk result (bytes.new ≡ bytes.old ++ piece_bytes piece.now) }
    ensures err { IfErr result (λ fault. fault ≡ LineFault.NoMemory) }
{
    if has_star(piece) {
        match value_of(&piece[3..]) {
            Some(count) => push_repeated(bytes, byte_of(&piece[..2]), count),
            None => unreachable!(),
        }
    } else {
        push_hex(alloc, bytes, piece)
    }
}

/// Adds a byte so many times, a block at a time.
fn push_repeated(bytes: &mut Bytes, byte: u8, count: u32) -> Result<(), LineFault>
    ensures ok { OnOk result (bytes.new ≡ bytes.old ++ replicate count byte) }
    ensures err { IfErr result (λ fault. fault ≡ LineFault.NoMemory) }
{
    let block = [byte; BLOCK];
    for _done in 0..count as usize / BLOCK {
        bytes.extend_from_slice(&block)?;
    }
    bytes.extend_from_slice(&block[..count as usize % BLOCK])?;
    Ok(())
}

/// Adds the bytes that hexadecimal digits spell.
fn push_hex(alloc: Global, bytes: &mut Bytes, digits: &[u8]) -> Result<(), LineFault>
    ensures ok { OnOk result (bytes.new ≡ bytes.old ++ numerals.hex_bytes digits.now) }
    ensures err { IfErr result (λ fault. fault ≡ LineFault.NoMemory) }
{
    let more = bytes_of_hex(alloc, digits)?;
    bytes.extend_from_slice(more.as_slice())?;
    Ok(())
}

/// Whether a word is numbers with commas between them.
pub fn are_lengths(word: &[u8]) -> bool
    ensures { result ≡ spec.are_lengths word.now }
{
    word.split(|byte| *byte == b',')
        .all(|part| is_numeral(part))
}

/// The lengths of 1 to 64 segments of data of `total` bytes.
pub fn segments_of(alloc: Global, word: &[u8], total: u16) -> Result<Lengths, LineFault>
    ensures { result ≢ Err LineFault.NoMemory → result ≡ spec.segments_of total word.now }
{
    let parts = parts_of(alloc, word, b',')?;
    if parts.len() > MOST_SEGMENTS {
        return Err(LineFault::Range);
    }
    let lengths = lengths_of(alloc, parts.as_slice())?;
    if sum_of(lengths.as_slice()) == u64::from(total) {
        Ok(lengths)
    } else {
        Err(LineFault::Range)
    }
}

/// Lengths of segments, of 1 to 16384 bytes each.
fn lengths_of(alloc: Global, parts: &[&[u8]]) -> Result<Lengths, LineFault>
    ensures value { result ≢ Err LineFault.NoMemory → result ≡ numerals.numbers 1 16384 (shown parts.now) }
    ensures count { IfOk result (λ lengths. length lengths ≡ length parts.now) }
{
    let mut lengths = Lengths::new(alloc);
    for part in parts {
        lengths.push(number(part, 1, MOST_BYTES)? as u16)?;
    }
    Ok(lengths)
}

/// The sum of some lengths.
fn sum_of(lengths: &[u16]) -> u64
    requires { length lengths.now ≤ 64 }
    ensures { result ≡ sum lengths.now }
{
    lengths.iter().map(|length| u64::from(*length)).sum()
}
