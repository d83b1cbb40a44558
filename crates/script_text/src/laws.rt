ghost use Rattle.std.specs.Prelude.{◌≡◌, ◌↔◌, ◌≤◌, true, ℕ, List, length};
ghost use Rattle.script_text.specs.declared.row.Row as rows;
ghost use Rattle.script_text.specs.Rows.{has_shape};
ghost use Rattle.script_text.specs.Line.{OnlyRange, event_of, is_silent, reading};

/// A line says nothing, and has no fault, exactly where it is blank or a comment and has at most
/// 8,192 bytes.
pub fn only_silent_lines_say_nothing()
    ensures { (line : List ℕ) (initiators : ℕ) → (reading line initiators ≡ Ok None) ↔ ((is_silent line ≡ true) × (length line ≤ 8192)) }
{}

/// Words of a row's shape have the row's event, unless a number is out of its range or a rule on sums
/// or lengths is broken: what the table of shapes takes is what the table of events reads.
pub fn shaped_words_are_read()
    ensures { (row : rows.Row) (initiators : ℕ) (words : List (List ℕ)) → has_shape row initiators words ≡ true → OnlyRange (event_of row words) }
{}
