ghost use Rattle.std.specs.Prelude.{◌≡◌, ◌≢◌, ◌≤◌, length};
ghost use Rattle.std.specs.Option.{option_map};
ghost use Rattle.script_words.specs.Commands as spec;
ghost use Rattle.script_words.specs.Words.{shown};

use crate::fault::LineFault;
use crate::fixed::{FixedWord, fixed_word};
use crate::payload::{data_of, segments_of};
use crate::verb::{Form, Verb};
use crate::words::number;
use byteorder::{BigEndian, ByteOrder};
use sbp_base::{Bytes, Lengths};
use sbp_journal::Cmd;
use std::alloc::Global;

/// The field max_payload of the ORB of a command where nothing else is said: 2,048 bytes a packet.
const MAX_PAYLOAD: u8 = 9;

/// The most blocks of one command.
const MOST_BLOCKS: u32 = 32;

/// The bytes of a block.
const BLOCK: usize = 512;

/// A CMD: its verb, and the words behind it.
pub fn cmd_of(alloc: Global, verb: Verb, words: &[&[u8]]) -> Result<Cmd, LineFault>
    ensures { result ≢ Err LineFault.NoMemory → result ≡ spec.cmd_of (Some verb) (shown words.now) }
{
    let cmd = command(alloc, verb, words)?;
    with_end(alloc, words, cmd)
}

/// The command of a verb and the words behind it, without `seg` and `pay`.
fn command(alloc: Global, verb: Verb, words: &[&[u8]]) -> Result<Cmd, LineFault>
    ensures { result ≢ Err LineFault.NoMemory → result ≡ spec.command verb (shown words.now) }
{
    match verb {
        Verb::Ready => Ok(bringing(alloc, plain_block(0x00, 0), 0)),
        Verb::Inquiry => Ok(bringing(alloc, plain_block(0x12, 36), 36)),
        Verb::Start => Ok(bringing(alloc, plain_block(0x1b, 1), 0)),
        Verb::Stop => Ok(bringing(alloc, plain_block(0x1b, 0), 0)),
        Verb::Eject => Ok(bringing(alloc, plain_block(0x1b, 2), 0)),
        Verb::Load => Ok(bringing(alloc, plain_block(0x1b, 3), 0)),
        Verb::Prevent => Ok(bringing(alloc, plain_block(0x1e, 1), 0)),
        Verb::Allow => Ok(bringing(alloc, plain_block(0x1e, 0), 0)),
        Verb::Capacity => Ok(bringing(alloc, plain_block(0x25, 0), 8)),
        Verb::Sync => Ok(bringing(alloc, plain_block(0x35, 0), 0)),
        Verb::Read => reading_blocks(alloc, Form::Ten, 0x28, words),
        Verb::Read12 => reading_blocks(alloc, Form::Twelve, 0xa8, words),
        Verb::Verify => verifying_blocks(alloc, words),
        Verb::Write => writing_blocks(alloc, Form::Ten, 0x2a, words),
        Verb::Write12 => writing_blocks(alloc, Form::Twelve, 0xaa, words),
    }
}

/// A read of the blocks that `LBA COUNT` spell.
fn reading_blocks(alloc: Global, form: Form, opcode: u8, words: &[&[u8]]) -> Result<Cmd, LineFault>
    ensures { result ≡ spec.reading_blocks form opcode (shown words.now) }
{
    let [lba, count, ..] = words else {
        return Err(LineFault::Shape);
    };
    let lba = number(lba, 0, u32::MAX)?;
    let count = number(count, 0, MOST_BLOCKS)?;
    let cdb = addressed_block(form, opcode, lba, count);
    Ok(bringing(alloc, cdb, (512 * count) as u16))
}

/// A check of the blocks that `LBA COUNT` spell.
fn verifying_blocks(alloc: Global, words: &[&[u8]]) -> Result<Cmd, LineFault>
    ensures { result ≡ spec.verifying_blocks (shown words.now) }
{
    let [lba, count, ..] = words else {
        return Err(LineFault::Shape);
    };
    let lba = number(lba, 0, u32::MAX)?;
    let count = number(count, 0, MOST_BLOCKS)?;
    Ok(bringing(alloc, addressed_block(Form::Ten, 0x2f, lba, count), 0))
}

/// A write of the blocks that `LBA DATA` spell.
pub fn writing_blocks(
    alloc: Global,
    form: Form,
    opcode: u8,
    words: &[&[u8]],
) -> Result<Cmd, LineFault>
    ensures { result ≢ Err LineFault.NoMemory → result ≡ spec.writing_blocks form opcode (shown words.now) }
{
    let [lba, content, ..] = words else {
        return Err(LineFault::Shape);
    };
    let lba = number(lba, 0, u32::MAX)?;
    let bytes = data_of(alloc, content)?;
    let count = (bytes.as_slice().len() / BLOCK) as u32;
    Ok(sending(alloc, addressed_block(form, opcode, lba, count), bytes))
}

/// A command block without an address: the opcode, and byte 4.
fn plain_block(opcode: u8, fourth: u8) -> [u8; 12]
    ensures { result ≡ spec.plain_block opcode fourth }
{
    [opcode, 0, 0, 0, fourth, 0, 0, 0, 0, 0, 0, 0]
}

/// A command block with an address in bytes 2 to 5, and a count of blocks behind it.
pub fn addressed_block(form: Form, opcode: u8, lba: u32, count: u32) -> [u8; 12]
    requires { count ≤ 32 }
    ensures { result ≡ spec.addressed_block form opcode lba count }
{
    match form {
        Form::Ten => ten_block(opcode, lba, count as u16),
        Form::Twelve => twelve_block(opcode, lba, count),
    }
}

/// A command block of READ(10) and its like: the count stands in bytes 7 and 8.
fn ten_block(opcode: u8, lba: u32, count: u16) -> [u8; 12]
    ensures { result ≡ spec.addressed_block Form.Ten opcode lba count }
{
    let mut cdb = [opcode, 0, 0, 0, 0, 0, 0, 0, 0, 0, 0, 0];
    BigEndian::write_u32(&mut cdb[2..6], lba);
    BigEndian::write_u16(&mut cdb[7..9], count);
    cdb
}

/// A command block of READ(12) and its like: the count stands in bytes 6 to 9.
fn twelve_block(opcode: u8, lba: u32, count: u32) -> [u8; 12]
    ensures { result ≡ spec.addressed_block Form.Twelve opcode lba count }
{
    let mut cdb = [opcode, 0, 0, 0, 0, 0, 0, 0, 0, 0, 0, 0];
    BigEndian::write_u32(&mut cdb[2..6], lba);
    BigEndian::write_u32(&mut cdb[6..10], count);
    cdb
}

/// A command that brings so many bytes to the initiator.
pub fn bringing(alloc: Global, cdb: [u8; 12], length: u16) -> Cmd
    ensures { result ≡ spec.bringing cdb length }
{
    Cmd {
        cdb,
        to_initiator: length > 0,
        length,
        payload: Bytes::new(alloc),
        segments: Lengths::new(alloc),
        max_payload: MAX_PAYLOAD,
    }
}

/// A command that sends bytes.
pub fn sending(alloc: Global, cdb: [u8; 12], bytes: Bytes) -> Cmd
    requires { length bytes ≤ 16384 }
    ensures { result ≡ spec.sending cdb bytes }
{
    let length = bytes.as_slice().len() as u16;
    Cmd {
        cdb,
        to_initiator: false,
        length,
        payload: bytes,
        segments: Lengths::new(alloc),
        max_payload: MAX_PAYLOAD,
    }
}

/// A command with the segments that `seg` gives, and the field max_payload that `pay` gives.
fn with_end(alloc: Global, words: &[&[u8]], cmd: Cmd) -> Result<Cmd, LineFault>
    ensures { result ≢ Err LineFault.NoMemory → result ≡ spec.with_end (shown words.now) cmd }
{
    let segments = segments(alloc, cmd.length, behind(FixedWord::Seg, words))?;
    let max_payload = max_payload(behind(FixedWord::Pay, words))?;
    Ok(Cmd {
        segments,
        max_payload,
        ..cmd
    })
}

/// The segments of a buffer of `total` bytes: none where it is in one piece.
fn segments(alloc: Global, total: u16, word: Option<&[u8]>) -> Result<Lengths, LineFault>
    ensures { result ≢ Err LineFault.NoMemory → result ≡ spec.segments total (option_map (λ lengths. lengths.now) word.entry) }
{
    match word {
        None => Ok(Lengths::new(alloc)),
        Some(word) => segments_of(alloc, word, total),
    }
}

/// The field max_payload: 9 where nothing else is said.
fn max_payload(word: Option<&[u8]>) -> Result<u8, LineFault>
    ensures { result ≡ spec.max_payload (option_map (λ digits. digits.now) word.entry) }
{
    match word {
        None => Ok(MAX_PAYLOAD),
        Some(word) => Ok(number(word, 0, u32::from(MAX_PAYLOAD))? as u8),
    }
}

/// The word behind the first one that is `fixed`.
pub fn behind<'a>(fixed: FixedWord, words: &[&'a [u8]]) -> Option<&'a [u8]>
    ensures { option_map (λ word. word.now) result ≡ spec.behind fixed (shown words.now) }
{
    match words {
        [word, next, ..] if *word == fixed_word(fixed) => Some(*next),
        [_, rest @ ..] => behind(fixed, rest),
        [] => None,
    }
}
