//! Whether a call may be made: what an action, a command and a note have to be.
ghost use Rattle.std.specs.Prelude.{◌≤◌, IsTrue, sum};
ghost use Rattle.sbp_journal.specs.Form.{HasForm, IsAnswer, IsBuffer};
ghost use Rattle.sbp_initiator.specs.Acting.{IsAction};
ghost use Rattle.sbp_initiator.specs.Commands.{IsCommand};
ghost use Rattle.orb_list.specs.Requests.{IsRequest};

use orb_layout::StatusKind;
use sbp_journal::{Action, Cmd, Note, NoteBuffer};

/// Whether some lengths are none, or two with no more than this sum.
fn are_within(lengths: &[u16], most: u16) -> bool
    ensures { IsTrue result → sum lengths.now ≤ most }
{
    match lengths {
        [] => true,
        [first, second] => u32::from(*first) + u32::from(*second) <= u32::from(most),
        _ => false,
    }
}

/// Whether a command has the lengths of a script's line, and no more than two segments.
fn is_command(cmd: &Cmd) -> bool
    ensures { IsTrue result → IsCommand cmd.now }
{
    if cmd.cdb.as_slice().len() != 12 {
        return false;
    }
    if cmd.length > 16384 || cmd.max_payload > 15 {
        return false;
    }
    if cmd.payload.as_slice().len() > usize::from(cmd.length) {
        return false;
    }
    if cmd.segments.as_slice().len() > 64 {
        return false;
    }
    are_within(cmd.segments.as_slice(), cmd.length)
}

/// Whether an action has the fields of a script's line.
pub(crate) fn is_action(action: &Action) -> bool
    ensures { IsTrue result → IsAction action.now }
{
    match action {
        Action::Put(cmd) => is_command(cmd),
        Action::Append(cmd) => is_command(cmd),
        Action::Login { reconnect, .. } => *reconnect < 16,
        _ => true,
    }
}

/// Whether a buffer that is named has a byte.
fn is_buffer(buffer: &NoteBuffer) -> bool
    ensures { IsTrue result → IsBuffer buffer.now }
{
    match buffer {
        NoteBuffer::Nothing => true,
        NoteBuffer::In(length) => *length > 0,
        NoteBuffer::Out(bytes) => !bytes.as_slice().is_empty(),
    }
}

/// Whether only a good status has an answer, and none is of management.
fn is_answer(status: StatusKind, answer: &[u8]) -> bool
    ensures { IsTrue result → IsAnswer status answer.now }
{
    match status {
        StatusKind::Good => true,
        StatusKind::Check(sense) => answer.is_empty() && sense.key < 16,
        StatusKind::Management(_) => false,
        _ => answer.is_empty(),
    }
}

/// Whether a note is one that these runs tell, and has its form.
pub(crate) fn has_form(note: &Note) -> bool
    ensures { IsTrue result → HasForm note.now }
{
    match note {
        Note::Append { buffer, .. } => is_buffer(buffer),
        Note::Taken { status, answer, .. } => is_answer(*status, answer.as_slice()),
        Note::Low { .. }
        | Note::Linked { .. }
        | Note::Rung { .. }
        | Note::Dummied { .. }
        | Note::Drop { .. }
        | Note::Op { .. }
        | Note::Stuck { .. }
        | Note::Told { .. }
        | Note::Got { .. }
        | Note::Ignored { .. }
        | Note::Refused { .. } => true,
        _ => false,
    }
}
