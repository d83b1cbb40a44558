ghost use Rattle.std.specs.Prelude.{◌≡◌, ◌≢◌, ◌≤◌, ◌==◌, ◌||◌};
ghost use Rattle.std.specs.List.{list_all};
ghost use Rattle.script_text.specs.Line as spec;
ghost use Rattle.script_text.specs.Line.{reading, write_words};

use crate::event::event_of;
use crate::row::{Row, row_of};
use crate::shape::{has_shape, is_write};
use sbp_journal::{Cmd, Event};
use script_words::{Form, LineFault, parts_of, writing_blocks};
use std::alloc::Global;

/// The most bytes of a line.
const LINE_BYTES: usize = 8192;

/// The event of a line of a script, given without its line feed and without a carriage return that
/// stands before that; none for a blank line or a comment. `initiators` is how many initiators the
/// run has, and 0 before it begins.
///
/// # Errors
/// The first fault of the line, in the order TooLong, Byte, Unknown, Place, Shape, Range,
/// NoInitiator; or NoMemory.
pub fn read_line(alloc: Global, bytes: &[u8], initiators: u8) -> Result<Option<Event>, LineFault>
    requires { initiators ≤ 4 }
    ensures { result ≢ Err LineFault.NoMemory → result ≡ reading bytes.now initiators }
{
    if bytes.len() > LINE_BYTES {
        return Err(LineFault::TooLong);
    }
    if is_silent(bytes) {
        return Ok(None);
    }
    if !are_printable(bytes) {
        return Err(LineFault::Byte);
    }
    let words = parts_of(alloc, bytes, b' ')?;
    let [keyword, arguments @ ..] = words.as_slice() else {
        return Err(LineFault::Unknown);
    };
    let Some(row) = row_of(keyword) else {
        return Err(LineFault::Unknown);
    };
    if is_out_of_place(row, initiators) {
        return Err(LineFault::Place);
    }
    if !has_shape(row, initiators, arguments) {
        return Err(LineFault::Shape);
    }
    let event = match event_of(alloc, row, arguments) {
        Ok(event) => event,
        Err(LineFault::NoMemory) => return Err(LineFault::NoMemory),
        // Words of their row's shape have no other fault.
        Err(_) => return Err(LineFault::Range),
    };
    if names_none(&event, initiators) {
        return Err(LineFault::NoInitiator);
    }
    Ok(Some(event))
}

/// Whether a line says nothing: it is a comment, or it is blank.
fn is_silent(line: &[u8]) -> bool
    ensures { result ≡ spec.is_silent line.now }
{
    is_comment(line) || is_blank(line)
}

fn is_comment(line: &[u8]) -> bool
    ensures { result ≡ spec.is_comment line.now }
{
    !line.is_empty() && line[0] == b'#'
}

/// Whether a line has no byte other than spaces and tabs.
fn is_blank(line: &[u8]) -> bool
    ensures { result ≡ list_all (λ byte. (byte == 32) || (byte == 9)) line.now }
{
    line.iter().all(|byte| *byte == b' ' || *byte == b'\t')
}

/// Whether all bytes are 20h to 7Eh.
fn are_printable(line: &[u8]) -> bool
    ensures { result ≡ list_all spec.is_printable line.now }
{
    line.iter().all(|byte| 0x20 <= *byte && *byte <= 0x7e)
}

/// Whether a line is no `begin` and stands first, or is one and does not.
fn is_out_of_place(row: Row, initiators: u8) -> bool
    ensures { result ≡ spec.is_out_of_place initiators row }
{
    if initiators == 0 {
        !is_begin(row)
    } else {
        is_begin(row)
    }
}

fn is_begin(row: Row) -> bool
    ensures { result ≡ spec.is_begin row }
{
    match row {
        Row::Begin => true,
        Row::Act(_)
        | Row::Login
        | Row::Query
        | Row::OnOrb(_)
        | Row::Command(_)
        | Row::Reset
        | Row::See
        | Row::Key
        | Row::Fate(_)
        | Row::Step
        | Row::Settle
        | Row::Tick
        | Row::Inject => false,
    }
}

/// Whether an event names an initiator that is not below `initiators`.
fn names_none(event: &Event, initiators: u8) -> bool
    ensures { result ≡ spec.names_none initiators event.now }
{
    match event {
        Event::Act { initiator, .. } => *initiator >= initiators,
        Event::See { node } => *node > initiators,
        Event::Inject { initiator, .. } => *initiator >= initiators,
        Event::Begin { .. }
        | Event::Reset { .. }
        | Event::Deliver { .. }
        | Event::Repeat { .. }
        | Event::Lose { .. }
        | Event::Timeout { .. }
        | Event::Step { .. }
        | Event::Settle
        | Event::Tick
        | Event::Key { .. } => false,
    }
}

/// The command of the words `LBA DATA`, as a `write` of a line has them.
///
/// # Errors
/// Shape where the words are not of this form, Range where a number is out of its range or the data
/// are no whole blocks, and NoMemory.
pub fn read_write(alloc: Global, words: &[u8]) -> Result<Cmd, LineFault>
    ensures { result ≢ Err LineFault.NoMemory → result ≡ write_words words.now }
{
    let words = parts_of(alloc, words, b' ')?;
    if !is_write(words.as_slice()) {
        return Err(LineFault::Shape);
    }
    writing_blocks(alloc, Form::Ten, 0x2a, words.as_slice())
}
