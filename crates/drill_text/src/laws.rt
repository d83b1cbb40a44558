ghost use Rattle.drill_text.specs.Laws.{GoesOnLaw, KnownSums, TraceLaw};

/// The sum over the notes of a journal is that over its text, cut into lines at its line feeds,
/// whatever notes come first and whatever come behind.
pub fn trace_goes_by_lines()
    ensures whole { TraceLaw }
    ensures goes_on { GoesOnLaw }
{}

/// Worked sums, with values of another program.
pub fn known_sums()
    ensures { KnownSums }
{}
