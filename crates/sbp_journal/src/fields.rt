ghost use Rattle.std.specs.Prelude.{◌≡◌, ◌+◌, ◌<◌, ◌≤◌, ◌∷◌, ◌++◌, [], OnOk, length, slice_index};
ghost use Rattle.hex.specs.Hex.{upper_digits};
ghost use Rattle.sbp_journal.specs.Form.{IsSense, IsStatus, IsCheck};
ghost use Rattle.line_text.specs.Canonical.{piece_text, repeated};
ghost use Rattle.line_text.specs.Fields.{Field, word, further, sense_word};
ghost use Rattle.sbp_journal.specs.Text.{orb_fields, named_fields, buffer_fields, status_fields, check_fields, answer_fields, end_fields, login_fields};

use crate::canonical::{canonical_text, one_run};
use crate::note::NoteBuffer;
use crate::operation::OpWord;
use crate::writer::{make_room, push_text};
use line_text::Room;
use orb_layout::StatusKind;
use rbc_command::Sense;
use sbp_base::{Bytes, NoMemory};
use std::alloc::Global;

/// Adds `INITIATOR LIST ORB`.
#[inline(always)]
pub(crate) fn push_orb(room: &mut Room, initiator: u8, list: u32, orb: u32)
    requires { length room.old + 63 ≤ 1024 }
    ensures text { room.new ≡ room.old ++ further (orb_fields initiator list orb) }
    ensures few { length room.new ≤ length room.old + 63 }
{
    room.push_number(u64::from(initiator));
    room.push_number(u64::from(list));
    room.push_number(u64::from(orb));
}

/// Adds a number in decimal, or `-`.
#[inline(always)]
pub(crate) fn push_maybe(room: &mut Room, number: Option<u32>)
    requires { length room.old + 21 ≤ 1024 }
    ensures text { room.new ≡ room.old ++ 32 ∷ word (Field.maybe number) }
    ensures few { length room.new ≤ length room.old + 21 }
{
    match number {
        None => room.push_name("-"),
        Some(number) => room.push_number(u64::from(number)),
    }
}

/// Adds `INITIATOR LIST ORB`, where a list and an ORB that are not known are `-`.
#[inline(always)]
pub(crate) fn push_named(room: &mut Room, initiator: u8, list: Option<u32>, orb: Option<u32>)
    requires { length room.old + 63 ≤ 1024 }
    ensures text { room.new ≡ room.old ++ further (named_fields initiator list orb) }
    ensures few { length room.new ≤ length room.old + 63 }
{
    room.push_number(u64::from(initiator));
    push_maybe(room, list);
    push_maybe(room, orb);
}

/// Adds `t` for the target, node 0, or the number of the initiator.
#[inline(always)]
pub(crate) fn push_node(room: &mut Room, node: u8)
    requires { length room.old + 21 ≤ 1024 }
    ensures text { room.new ≡ room.old ++ 32 ∷ word (Field.node_name node) }
    ensures few { length room.new ≤ length room.old + 21 }
{
    if node == 0 {
        room.push(b" t");
    } else {
        let initiator = node - 1;
        room.push_number(u64::from(initiator));
    }
}

/// Adds bytes in the canonical form, and has room for a status behind them.
pub fn push_canonical(
    alloc: Global,
    out: &mut Bytes,
    room: &mut Room,
    bytes: &[u8],
) -> Result<(), NoMemory>
    ensures text { OnOk result (out.new ++ room.new ≡ out.old ++ (room.old ++ 32 ∷ word (Field.bytes bytes.now))) }
    ensures room { OnOk result (length room.new + 16 ≤ 1024) }
{
    if bytes.is_empty() {
        make_room(out, room, 18)?;
        room.push_name("-");
        return Ok(());
    }
    if let Some((byte, count)) = one_run(bytes) {
        make_room(out, room, 40)?;
        push_run(room, byte, count);
        return Ok(());
    }
    let text = canonical_text(alloc, bytes)?;
    push_text(out, room, text.as_slice())?;
    make_room(out, room, 16)
}

/// Adds a blank, a byte and how often it stands.
#[inline(always)]
fn push_run(room: &mut Room, byte: u8, count: usize)
    requires { length room.old + 40 ≤ 1024 }
    ensures text { room.new ≡ room.old ++ 32 ∷ piece_text (repeated byte count) }
    ensures few { length room.new + 16 ≤ 1024 }
{
    room.push_few_digits(&[byte]);
    room.push_byte(b'*');
    room.push_decimal(count as u64);
}

/// Adds `uUNIT`.
#[inline(always)]
pub(crate) fn push_unit(room: &mut Room, unit: u8)
    requires { length room.old + 22 ≤ 1024 }
    ensures text { room.new ≡ room.old ++ 32 ∷ word (Field.unit_name unit) }
    ensures few { length room.new ≤ length room.old + 22 }
{
    room.push(b" u");
    room.push_decimal(u64::from(unit));
}

/// Adds `none`, `in LENGTH` or `out BYTES`.
#[inline(always)]
pub(crate) fn push_buffer(
    alloc: Global,
    out: &mut Bytes,
    room: &mut Room,
    buffer: &NoteBuffer,
) -> Result<(), NoMemory>
    requires { length room.old + 24 ≤ 1024 }
    ensures { OnOk result (out.new ++ room.new ≡ out.old ++ (room.old ++ further (buffer_fields buffer.now))) }
{
    match buffer {
        NoteBuffer::Nothing => {
            room.push_name("none");
            Ok(())
        }
        NoteBuffer::In(len) => {
            room.push_name("in");
            room.push_number(u64::from(*len));
            Ok(())
        }
        NoteBuffer::Out(bytes) => {
            room.push_name("out");
            push_canonical(alloc, out, room, bytes.as_slice())
        }
    }
}

/// Adds the words of a check condition, or of none.
pub(crate) fn push_check(room: &mut Room, check: Option<Sense>)
    requires check { IsCheck check }
    requires room { length room.old + 16 ≤ 1024 }
    ensures { room.new ≡ room.old ++ further (check_fields check) }
{
    match check {
        None => push_status(room, StatusKind::Good),
        Some(sense) => push_status(room, StatusKind::Check(sense)),
    }
}

/// Adds the words of a status: `good`, `check K/CC/QQ`, `dummy`, `aborted`, `illegal XX` or `failed`.
#[inline(always)]
pub fn push_status(room: &mut Room, status: StatusKind)
    requires status { IsStatus status }
    requires room { length room.old + 16 ≤ 1024 }
    ensures text { room.new ≡ room.old ++ further (status_fields status) }
    ensures few { length room.new ≤ length room.old + 16 }
{
    match status {
        StatusKind::Good => room.push_name("good"),
        StatusKind::Check(sense) => {
            room.push_name("check");
            push_sense(room, sense);
        }
        StatusKind::Dummy => room.push_name("dummy"),
        StatusKind::Aborted => room.push_name("aborted"),
        StatusKind::Illegal(meaning) => {
            room.push_name("illegal");
            room.push_few_digits(&[meaning]);
        }
        StatusKind::Failed => room.push_name("failed"),
        StatusKind::Management(_) => unreachable!(),
    }
}

/// Adds `K/CC/QQ`: sense key, code and qualifier.
#[inline(never)]
fn push_sense(room: &mut Room, sense: Sense)
    requires sense { IsSense sense }
    requires room { length room.old + 8 ≤ 1024 }
    ensures text { room.new ≡ room.old ++ 32 ∷ sense_word sense }
    ensures few { length room.new ≤ length room.old + 8 }
{
    room.push_name(key_text(sense.key));
    room.push_byte(b'/');
    room.push_hexadecimal(&[sense.code]);
    room.push_byte(b'/');
    room.push_hexadecimal(&[sense.qualifier]);
}

/// Adds the bytes of an answer, if there are any.
#[inline(always)]
pub(crate) fn push_answer(
    alloc: Global,
    out: &mut Bytes,
    room: &mut Room,
    answer: &[u8],
) -> Result<(), NoMemory>
    ensures { OnOk result (out.new ++ room.new ≡ out.old ++ (room.old ++ further (answer_fields answer.now))) }
{
    if answer.is_empty() {
        return Ok(());
    }
    push_canonical(alloc, out, room, answer)
}

/// Adds the login ID that a decision gives, if there is one.
pub(crate) fn push_login(room: &mut Room, login: Option<u16>)
    requires { length room.old + 21 ≤ 1024 }
    ensures { room.new ≡ room.old ++ further (login_fields login) }
{
    match login {
        None => {}
        Some(login) => room.push_number(u64::from(login)),
    }
}

/// Adds the words for how an operation ended.
pub(crate) fn push_end(room: &mut Room, end: OpWord)
    requires { length room.old + 32 ≤ 1024 }
    ensures { room.new ≡ room.old ++ further (end_fields end) }
{
    match end {
        OpWord::Done => room.push_name("done"),
        OpWord::Refused(status) => {
            room.push_name("refused");
            room.push_few_digits(&[status]);
        }
        OpWord::Conflict => room.push_name("conflict"),
        OpWord::Error => room.push_name("error"),
        OpWord::Reset => room.push_name("reset"),
        OpWord::Count(count) => {
            room.push_name("done");
            push_maybe(room, count.map(u32::from));
        }
        OpWord::Bad(fault) => {
            room.push_name("bad");
            room.push_number(u64::from(fault));
        }
        OpWord::NoUnit => room.push_name("none"),
        OpWord::State(value) => room.push_number(u64::from(value)),
    }
}

/// A sense key as one digit.
fn key_text(key: u8) -> &'static str
    requires { key < 16 }
    ensures { result.now ≡ slice_index upper_digits key ∷ [] }
{
    match key {
        0 => "0",
        1 => "1",
        2 => "2",
        3 => "3",
        4 => "4",
        5 => "5",
        6 => "6",
        7 => "7",
        8 => "8",
        9 => "9",
        10 => "A",
        11 => "B",
        12 => "C",
        13 => "D",
        14 => "E",
        _ => "F",
    }
}
