ghost use Rattle.std.specs.Prelude.{◌≡◌, ◌++◌, codes, reverse, IfSome, OnOk};
ghost use Rattle.std.specs.List.{AllByRecursion};
ghost use Rattle.sbp_journal.specs.Form as journal_form;
ghost use Rattle.sbp_journal.specs.Form.{IsStatus};
ghost use Rattle.retry_queue.specs.Kept.{kept_of, told, written};
ghost use Rattle.retry_queue.specs.Texts.{HasForm, line_text, submit_fields, text_of, written_fields};

use crate::kept::{Finished, Kept};
use crate::note::{LastLine, QueueNotes};
use line_text::Room;
use orb_layout::StatusKind;
use sbp_base::{Bytes, NoMemory};
use sbp_journal::{Note, Operation, make_room, push_canonical, push_status, put_line};
use std::alloc::Global;

/// Adds the lines of the notes of a queue's last line, each with its line feed, in the order in which
/// they were told, to bytes, of which a part is added where memory was wanting.
pub fn append_queue_notes(
    alloc: Global,
    notes: &QueueNotes,
    out: &mut Bytes,
) -> Result<(), NoMemory>
    requires { AllByRecursion HasForm notes.now.notes }
    ensures { OnOk result (out.new ≡ out.old ++ text_of (reverse notes.now.notes)) }
{
    match &notes.last {
        LastLine::Submit { number, lba, bytes } => {
            append_submit(alloc, *number, *lba, bytes.as_slice(), out)
        }
        LastLine::Idle => out.extend_from_slice(b"idle\n"),
        LastLine::World { asked, before } => {
            append_told(alloc, *asked, *before, notes.world.fresh().as_slice(), out)
        }
    }
}

/// Adds the lines of the notes of a world's line, each with the `written` that it brings behind it. The
/// line asks for this operation, if for one, and before it this was kept.
fn append_told(
    alloc: Global,
    asked: Option<Operation>,
    before: Kept,
    notes: &[Note],
    out: &mut Bytes,
) -> Result<(), NoMemory>
    requires { AllByRecursion journal_form.HasForm notes.now }
    ensures { OnOk result (out.new ≡ out.old ++ text_of (reverse (told asked (reverse notes.now) (kept_of before)))) }
{
    let mut room = Room::new();
    put_told(alloc, asked, before, notes, out, &mut room)?;
    out.extend_from_slice(room.as_slice())
}

/// Adds the same lines to bytes, the last of which wait in a room.
fn put_told(
    alloc: Global,
    asked: Option<Operation>,
    before: Kept,
    notes: &[Note],
    out: &mut Bytes,
    room: &mut Room,
) -> Result<(), NoMemory>
    requires { AllByRecursion journal_form.HasForm notes.now }
    ensures { OnOk result (out.new ++ room.new ≡ out.old ++ room.old ++ text_of (reverse (told asked (reverse notes.now) (kept_of before)))) }
{
    let mut kept = before;
    for note in notes {
        put_line(alloc, note, out, room)?;
        put_finished(kept.finished(note)?, out, room)?;
        kept = kept.learned(asked, note)?;
    }
    Ok(())
}

/// Adds the line of a submission that has its status, if there is one.
fn put_finished(
    finished: Option<Finished>,
    out: &mut Bytes,
    room: &mut Room,
) -> Result<(), NoMemory>
    requires { IfSome finished (λ f. IsStatus f.status) }
    ensures { OnOk result (out.new ++ room.new ≡ out.old ++ room.old ++ text_of (written finished)) }
{
    match finished {
        Some(Finished { number, status }) => put_written(number, status, out, room),
        None => Ok(()),
    }
}

/// Adds `submit Q LBA BYTES`.
#[tactic(auto, using(crate::proofs::Texts::submit_line))]
fn append_submit(
    alloc: Global,
    number: u32,
    lba: u32,
    bytes: &[u8],
    out: &mut Bytes,
) -> Result<(), NoMemory>
    ensures { OnOk result (out.new ≡ out.old ++ line_text (codes "submit") (submit_fields number lba bytes.now)) }
{
    let mut room = Room::new();
    room.push(b"submit");
    room.push_number(u64::from(number));
    room.push_number(u64::from(lba));
    push_canonical(alloc, out, &mut room, bytes)?;
    room.push_byte(b'\n');
    out.extend_from_slice(room.as_slice())
}

/// Adds `written Q STATUS`.
#[tactic(auto, using(crate::proofs::Texts::written_line))]
fn put_written(
    number: u32,
    status: StatusKind,
    out: &mut Bytes,
    room: &mut Room,
) -> Result<(), NoMemory>
    requires { IsStatus status }
    ensures { OnOk result (out.new ++ room.new ≡ out.old ++ room.old ++ line_text (codes "written") (written_fields number status)) }
{
    make_room(out, room, 64)?;
    room.push(b"written");
    room.push_number(u64::from(number));
    push_status(room, status);
    room.push_byte(b'\n');
    Ok(())
}
