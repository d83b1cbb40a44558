ghost use Rattle.std.specs.Prelude.{◌≡◌, ◌≢◌, ◌≤◌, ◌<◌, ◌==◌, ◌∷◌, length, position, IfSome};
ghost use Rattle.std.specs.List.{list_all};
ghost use Rattle.script_text.specs.Line as lines;
ghost use Rattle.script_words.specs.Words.{words};
ghost use Rattle.retry_queue.specs.Lines as spec;

use byteorder::{BigEndian, ByteOrder};
use sbp_base::Bytes;
use sbp_journal::Event;
use script_text::{LineFault, read_line, read_write};
use std::alloc::Global;

/// The most bytes of a line.
const LINE_BYTES: usize = 8192;

/// What a line of `queue` says.
#[derive(Drop)]
pub enum QueueLine {
    /// A line that other commands have too.
    Bus(Event),
    /// `submit LBA DATA`: a write for the queue.
    Submit { lba: u32, payload: Bytes },
    /// `pump`: the queue's next action.
    Pump,
}

/// What a line of `queue` says, given without its line feed and without a carriage return that stands
/// before that; nothing for a blank line or a comment. `initiators` is how many initiators the run
/// has, and 0 before it begins.
///
/// # Errors
/// Of `submit` and `pump` the first fault in the order TooLong, Byte, Place, Shape, Range, and of any
/// other line that of [`read_line`]; or NoMemory.
pub fn read_queue_line(
    alloc: Global,
    bytes: &[u8],
    initiators: u8,
) -> Result<Option<QueueLine>, LineFault>
    requires { initiators ≤ 4 }
    ensures { result ≢ Err LineFault.NoMemory → result ≡ spec.reading bytes.now initiators }
{
    let (word, rest) = first_word(bytes);
    if word == b"submit".as_slice() {
        check_place(bytes, initiators)?;
        return Ok(Some(submission(alloc, rest)?));
    }
    if word == b"pump".as_slice() {
        check_place(bytes, initiators)?;
        return Ok(Some(pumping(rest)?));
    }
    match read_line(alloc, bytes, initiators)? {
        Some(event) => Ok(Some(QueueLine::Bus(event))),
        None => Ok(None),
    }
}

/// The first word of a line, and what stands behind the blank that ends it.
#[tactic(auto, using(crate::proofs::Words::words_alone))]
fn first_word(line: &[u8]) -> (&[u8], Option<&[u8]>)
    ensures { words line.now ≡ result.0.now ∷ spec.words_behind result.1 }
{
    match blank(line) {
        Some(at) => (&line[..at], Some(&line[at + 1..])),
        None => (line, None),
    }
}

/// Where the first blank stands.
fn blank(line: &[u8]) -> Option<usize>
    ensures place { result ≡ position (λ byte. byte == 32) line.now }
    ensures within { IfSome result (λ at. at < length line.now) }
{
    line.iter().position(|byte| *byte == b' ')
}

/// The faults of a line of the queue alone that come before those of its words.
fn check_place(line: &[u8], initiators: u8) -> Result<(), LineFault>
    ensures { result ≡ spec.placed line.now initiators }
{
    if line.len() > LINE_BYTES {
        return Err(LineFault::TooLong);
    }
    if !are_printable(line) {
        return Err(LineFault::Byte);
    }
    if initiators == 0 {
        return Err(LineFault::Place);
    }
    Ok(())
}

/// Whether all bytes are 20h to 7Eh.
fn are_printable(line: &[u8]) -> bool
    ensures { result ≡ list_all lines.is_printable line.now }
{
    line.iter().all(|byte| 0x20 <= *byte && *byte <= 0x7e)
}

/// The words `LBA DATA` behind `submit`.
fn submission(alloc: Global, rest: Option<&[u8]>) -> Result<QueueLine, LineFault>
    ensures { result ≢ Err LineFault.NoMemory → result ≡ spec.submission (spec.words_behind rest.entry) }
{
    let Some(rest) = rest else {
        return Err(LineFault::Shape);
    };
    let cmd = read_write(alloc, rest)?;
    Ok(QueueLine::Submit {
        lba: BigEndian::read_u32(&cmd.cdb[2..6]),
        payload: cmd.payload,
    })
}

/// Nothing stands behind `pump`.
fn pumping(rest: Option<&[u8]>) -> Result<QueueLine, LineFault>
    ensures { result ≡ spec.pumping (spec.words_behind rest.entry) }
{
    match rest {
        None => Ok(QueueLine::Pump),
        Some(_) => Err(LineFault::Shape),
    }
}

/// Whether an event is that of a line of `queue`; another one is told as fault 11.
pub fn is_queue_line(event: &Event) -> bool
    ensures { result ≡ spec.is_queue_line event.now }
{
    match event {
        Event::Begin { initiators, ready } => *initiators == 1 && *ready,
        _ => is_bus_line(event),
    }
}

/// Whether an event is that of a line of the bus, as `queue` has them.
pub fn is_bus_line(event: &Event) -> bool
    ensures { result ≡ spec.is_bus_line event.now }
{
    match event {
        Event::Deliver { .. }
        | Event::Repeat { .. }
        | Event::Lose { .. }
        | Event::Timeout { .. }
        | Event::Step { .. }
        | Event::Settle
        | Event::Reset { .. }
        | Event::See { .. }
        | Event::Tick => true,
        Event::Begin { .. } | Event::Act { .. } | Event::Inject { .. } | Event::Key { .. } => false,
    }
}
