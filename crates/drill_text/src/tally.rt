ghost use Rattle.std.specs.Prelude.{◌≡◌, ◌+◌, ◌∷◌, ◌++◌, [], List, OnOk};
ghost use Rattle.std.specs.List.{AllByRecursion};
ghost use Rattle.sbp_journal.specs.Form.{HasForm};
ghost use Rattle.sbp_journal.specs.declared.note.Note as declared;
ghost use Rattle.drill_text.specs.Tally.{tally_of};
ghost use Rattle.drill_text.specs.Tally as spec;

use crate::sums::PairSums;
use orb_layout::StatusKind;
use sbp_base::{Bytes, NoMemory};
use sbp_journal::{LineWriter, Note, put_note};
use std::alloc::Global;
use std::marker::Model;

/// The counts of a journal and the sum over its lines, note by note. After want of memory it must not
/// be used again.
#[derive(Drop)]
pub struct Tally {
    /// Room for the line of a note, which is used for one after the other.
    line: LineWriter,
    notes: u64,
    appended: u64,
    taken: u64,
    good: u64,
    sum: u16,
}

impl Model for Tally {
    ghost use Rattle.std.specs.Prelude.{◌≤◌};
    ghost use Rattle.drill_text.specs.Tally.{TallyState};

    ghost Value = { TallyState };

    ghost view = { λ tally. record { notes = tally.notes; appended = tally.appended; taken = tally.taken; good = tally.good; sum = tally.sum } };

    ghost invariant = { λ tally. (tally.appended ≤ tally.notes) × (tally.taken ≤ tally.notes) × (tally.good ≤ tally.notes) };
}

impl Tally {
    /// The tally of no notes.
    pub fn new(alloc: Global) -> Self
        ensures { result ≡ tally_of [] }
    {
        Tally {
            line: LineWriter::behind(Bytes::new(alloc)),
            notes: 0,
            appended: 0,
            taken: 0,
            good: 0,
            sum: 0,
        }
    }

    /// Counts a note, and goes on with the sum over its line.
    fn add(&mut self, alloc: Global, sums: &PairSums, note: &Note) -> Result<(), NoMemory>
        requires { HasForm note.now }
        ensures { (before : List declared.Note) → self.old ≡ tally_of before → OnOk result (self.new ≡ tally_of (before ++ note.now ∷ [])) }
    {
        // The end of the counts is answered as want of memory.
        let Some(notes) = self.notes.checked_add(1) else {
            return Err(NoMemory);
        };
        self.line.clear();
        put_note(alloc, note, &mut self.line)?;
        self.sum = sums.behind_line(self.sum, self.line.gather()?);
        self.notes = notes;
        self.appended += u64::from(is_append(note));
        self.taken += u64::from(is_taken(note));
        self.good += u64::from(is_good(note));
        Ok(())
    }

    /// Counts notes, and goes on with the sum over their lines.
    pub fn add_all(
        &mut self,
        alloc: Global,
        sums: &PairSums,
        notes: &[Note],
    ) -> Result<(), NoMemory>
        requires { AllByRecursion HasForm notes.now }
        ensures { (before : List declared.Note) → self.old ≡ tally_of before → OnOk result (self.new ≡ tally_of (before ++ notes.now)) }
    {
        for note in notes {
            self.add(alloc, sums, note)?;
        }
        Ok(())
    }

    /// How many notes there are.
    pub fn notes(&self) -> u64
        ensures { result ≡ self.now.notes }
    {
        self.notes
    }

    /// How many notes tell an append.
    pub fn appended(&self) -> u64
        ensures { result ≡ self.now.appended }
    {
        self.appended
    }

    /// How many notes tell a status that was taken.
    pub fn taken(&self) -> u64
        ensures { result ≡ self.now.taken }
    {
        self.taken
    }

    /// How many notes tell a good status that was taken.
    pub fn good(&self) -> u64
        ensures { result ≡ self.now.good }
    {
        self.good
    }

    /// The sum over the lines of all notes.
    pub fn sum(&self) -> u16
        ensures { result ≡ self.now.sum }
    {
        self.sum
    }
}

fn is_append(note: &Note) -> bool
    ensures { result ≡ spec.is_append note.now }
{
    matches!(note, Note::Append { .. })
}

fn is_taken(note: &Note) -> bool
    ensures { result ≡ spec.is_taken note.now }
{
    matches!(note, Note::Taken { .. })
}

fn is_good(note: &Note) -> bool
    ensures { result ≡ spec.is_good note.now }
{
    match note {
        Note::Taken { status, .. } => is_good_status(*status),
        _ => false,
    }
}

fn is_good_status(status: StatusKind) -> bool
    ensures { result ≡ spec.is_good_status status }
{
    matches!(status, StatusKind::Good)
}
