ghost use Rattle.rbc_disk.specs.Calls.{MarkLaw, AttentionLaw};
ghost use Rattle.rbc_disk.specs.Blocks.{ReadLaw};

/// The law of the marks, over every list of calls of a unit, each over any medium: a place is marked exactly where a reset,
/// or a changed medium, named it and no command of it was told since.
pub fn marked_until_told()
    ensures { MarkLaw }
{}

/// The law of unit attention, over every list of calls of a unit, each over any medium: a command that is in the table and
/// no INQUIRY is told of a reset exactly where a reset named its place and no command of its place was
/// told since; and of a changed medium exactly where that holds of a changed medium, and not of a
/// reset. No other command is told.
pub fn told_once()
    ensures { AttentionLaw }
{}

/// The law of a READ, over every list of calls of a unit on one medium that is no bay: a good READ
/// gives of each of its blocks what the last good WRITE of it put there, or what was there at the
/// start.
pub fn reads_what_was_put()
    ensures { ReadLaw }
{}
