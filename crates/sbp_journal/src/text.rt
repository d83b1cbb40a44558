ghost use Rattle.std.specs.Prelude.{◌≡◌, ◌++◌, OnOk, OnErr};
ghost use Rattle.std.specs.List.{AllByRecursion};
ghost use Rattle.sbp_journal.specs.Form.{HasForm};
ghost use Rattle.sbp_journal.specs.Text.{note_text, text_of};

use crate::journal::Text;
use crate::lines::push_words;
use crate::note::Note;
use crate::writer::{LineWriter, make_room};
use line_text::Room;
use sbp_base::{Bytes, NoMemory};
use std::alloc::Global;

/// How much room a line has from its beginning: all words of a note have it, but for long data.
const LINE: usize = 256;

/// Adds the line of a note, with its line feed. It is made whole before any of it is added, so that a
/// note for which memory was wanting leaves no part of a line.
pub fn write_note(alloc: Global, note: &Note, out: &mut Text) -> Result<(), NoMemory>
    requires { HasForm note.now }
    ensures ok { OnOk result (out.new ≡ out.old ++ note_text note.now) }
    ensures err { OnErr result (out.new ≡ out.old) }
{
    let mut line = Bytes::new(alloc);
    append_note(alloc, note, &mut line)?;
    out.extend_from_slice(line.as_slice())
}

/// Adds the line of a note, with its line feed, to bytes, of which a part is added where memory was
/// wanting.
pub fn append_note(alloc: Global, note: &Note, out: &mut Bytes) -> Result<(), NoMemory>
    requires { HasForm note.now }
    ensures { OnOk result (out.new ≡ out.old ++ note_text note.now) }
{
    let mut room = Room::new();
    put_line(alloc, note, out, &mut room)?;
    out.extend_from_slice(room.as_slice())
}

/// Adds the lines of some notes to bytes, of which a part is added where memory was wanting.
pub fn append_notes(alloc: Global, notes: &[Note], out: &mut Bytes) -> Result<(), NoMemory>
    requires { AllByRecursion HasForm notes.now }
    ensures { OnOk result (out.new ≡ out.old ++ text_of notes.now) }
{
    let mut room = Room::new();
    put_lines(alloc, notes, out, &mut room)?;
    out.extend_from_slice(room.as_slice())
}

/// Adds the line of a note, with its line feed.
pub fn put_note(alloc: Global, note: &Note, out: &mut LineWriter) -> Result<(), NoMemory>
    requires { HasForm note.now }
    ensures { OnOk result (out.new ≡ out.old ++ note_text note.now) }
{
    put_line(alloc, note, &mut out.bytes, &mut out.room)
}

/// Adds the lines of some notes to bytes, the last of which wait in a room.
fn put_lines(
    alloc: Global,
    notes: &[Note],
    out: &mut Bytes,
    room: &mut Room,
) -> Result<(), NoMemory>
    requires { AllByRecursion HasForm notes.now }
    ensures { OnOk result (out.new ++ room.new ≡ out.old ++ room.old ++ text_of notes.now) }
{
    for note in notes {
        put_line(alloc, note, out, room)?;
    }
    Ok(())
}

/// Adds the line of a note, with its line feed, to bytes, the last of which wait in a room.
#[inline(always)]
pub fn put_line(
    alloc: Global,
    note: &Note,
    out: &mut Bytes,
    room: &mut Room,
) -> Result<(), NoMemory>
    requires { HasForm note.now }
    ensures { OnOk result (out.new ++ room.new ≡ out.old ++ room.old ++ note_text note.now) }
{
    make_room(out, room, LINE)?;
    push_words(alloc, note, out, room)?;
    make_room(out, room, 1)?;
    room.push_byte(b'\n');
    Ok(())
}
