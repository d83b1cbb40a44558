ghost use Rattle.std.specs.Prelude.{◌≡◌, ◌<◌, ℕ, List, [], ◌∷◌, ◌++◌, reverse, vec_len, vec_capacity, OnOk, OnErr};
ghost use Rattle.std.specs.List.{AllByRecursion};
ghost use Rattle.sbp_journal.specs.Written.{IsTyped};

use crate::note::Note;
use crate::typed::note_fits;
use sbp_base::{Bytes, NoMemory};
use std::alloc::Global;
use std::marker::Model;

/// Notes. They are seen with the latest one first, as the laws read them, and each is inside the types
/// of its fields.
#[derive(Drop)]
pub struct Journal {
    notes: Vec<Note>,
}

impl Model for Journal {
    ghost use Rattle.std.specs.Prelude.{List, reverse};
    ghost use Rattle.std.specs.List.{AllByRecursion};
    ghost use Rattle.sbp_journal.specs.Written.{IsTyped};
    ghost use Rattle.sbp_journal.specs.declared.note.Note.{Note};

    ghost Value = { List Note };

    ghost view = { λ journal. reverse journal.notes.items };

    ghost invariant = { λ journal. AllByRecursion IsTyped (reverse journal.notes.items) };
}

impl Journal {
    /// A journal without notes.
    pub fn new(alloc: Global) -> Self
        ensures { result ≡ [] }
    {
        Journal {
            notes: Vec::new(alloc),
        }
    }

    /// Adds a note, which is then the latest one.
    #[inline(always)]
    pub fn push(&mut self, note: Note) -> Result<(), NoMemory>
        ensures ok { OnOk result (self.new ≡ note ∷ self.old) }
        ensures err { OnErr result (self.new ≡ self.old) }
        ensures typed { AllByRecursion IsTyped self.new }
    {
        note_fits(&note);
        if self.notes.capacity() <= self.notes.len() {
            grow(&mut self.notes)?;
        }
        self.notes.push_reserved(note);
        Ok(())
    }

    /// Removes all notes and keeps their room.
    pub fn clear(&mut self)
        ensures { self.new ≡ [] }
    {
        self.notes.clear();
    }

    /// Each note is inside the types of its fields; nothing is done.
    #[inline(always)]
    pub fn each_fits(&self)
        ensures { AllByRecursion IsTyped self.now }
    {
        let _ = &self.notes;
    }

    /// The notes, lent in the order in which they were added.
    pub fn as_slice(&self) -> &[Note]
        ensures { result.now ≡ reverse self.now }
    {
        self.notes.as_slice()
    }
}

/// Makes room for one more note.
#[cold]
#[inline(never)]
fn grow(notes: &mut Vec<Note>) -> Result<(), NoMemory>
    ensures items { notes.new.items ≡ notes.old.items }
    ensures room { OnOk result (vec_len notes.new < vec_capacity notes.new) }
{
    notes.reserve(1)?;
    Ok(())
}

/// The bytes of lines.
#[derive(Drop)]
pub struct Text {
    bytes: Bytes,
}

impl Model for Text {
    ghost use Rattle.std.specs.Prelude.{ℕ, List};

    ghost Value = { List ℕ };

    ghost view = { λ text. text.bytes };
}

impl Text {
    /// A text without bytes.
    pub fn new(alloc: Global) -> Self
        ensures { result ≡ [] }
    {
        Text {
            bytes: Bytes::new(alloc),
        }
    }

    /// Adds bytes at the end.
    pub(crate) fn extend_from_slice(&mut self, bytes: &[u8]) -> Result<(), NoMemory>
        ensures ok { OnOk result (self.new ≡ self.old ++ bytes.now) }
        ensures err { OnErr result (self.new ≡ self.old) }
    {
        self.bytes.extend_from_slice(bytes)
    }

    /// Removes all bytes and keeps their room.
    pub fn clear(&mut self)
        ensures { self.new ≡ [] }
    {
        self.bytes.clear();
    }

    /// The bytes, lent.
    pub fn as_slice(&self) -> &[u8]
        ensures { result.now ≡ self.now }
    {
        self.bytes.as_slice()
    }
}
