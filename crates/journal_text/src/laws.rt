ghost use Rattle.std.specs.Prelude.{◌≡◌, ℕ, Bool, List};
ghost use Rattle.line_text.specs.Canonical as canonical;
ghost use Rattle.line_text.specs.Canonical.{AreRunsOf, runs_of};
ghost use Rattle.std.specs.List.{AllByRecursion};
ghost use Rattle.drill_text.specs.Laws.{IsLine};
ghost use Rattle.drill_text.specs.Sums.{trace};
ghost use Rattle.drill_text.specs.Tally.{tally_of};
ghost use Rattle.sbp_journal.specs.Form.{HasForm};
ghost use Rattle.sbp_journal.specs.Text.{note_text, text_of};
ghost use Rattle.sbp_journal.specs.Written.{IsWritten};
ghost use Rattle.sbp_journal.specs.declared.note.Note as notes;
ghost use Rattle.sbp_journal.specs.Run as journals;
ghost use Rattle.sbp_journal.specs.Run.{journal};
ghost use Rattle.sbp_laws.specs.Lawful.{LawfulBut};
ghost use Rattle.sbp_laws.specs.OnTheBus.{LawfulOnTheBus};

/// The runs by which the canonical form of bytes goes are the maximal ones: they join to the bytes,
/// each has a byte, and no two side by side have the same one; and no other list of runs does so.
pub fn maximal_runs()
    ensures are_runs { (bytes : List ℕ) → AreRunsOf bytes (runs_of bytes) }
    ensures no_others { (bytes : List ℕ) (runs : List canonical.Run) → AreRunsOf bytes runs → runs ≡ runs_of bytes }
{}

/// The text of a journal determines it: two lists of notes of the form of a run whose texts are equal
/// are equal.
pub fn text_determines_notes()
    ensures { (ns ms : List notes.Note) → AllByRecursion IsWritten ns → AllByRecursion IsWritten ms → text_of ns ≡ text_of ms → ns ≡ ms }
{}

/// So the text of a lawful run determines its journal, whichever initiators its laws leave out; the part of the
/// laws that is of the bus is enough.
pub fn text_determines_journal()
    ensures lawful { (wild others : ℕ → Bool) (run other : journals.Run) → LawfulBut wild run → LawfulBut others other → text_of (journal run) ≡ text_of (journal other) → journal run ≡ journal other }
    ensures on_the_bus { (wild others : ℕ → Bool) (run other : journals.Run) → LawfulOnTheBus wild run → LawfulOnTheBus others other → text_of (journal run) ≡ text_of (journal other) → journal run ≡ journal other }
{}

/// The text of each note of the stated form is one line, with its one line feed at its end. So the sum
/// over the lines of such notes is that over their text, cut at its line feeds.
pub fn text_is_of_lines()
    ensures lines { (note : notes.Note) → HasForm note → IsLine (note_text note) }
    ensures trace { (ns : List notes.Note) → AllByRecursion HasForm ns → (tally_of ns).sum ≡ trace (text_of ns) }
{}
