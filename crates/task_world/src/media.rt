//! What the notes of runs say: what is left of the media, and that their text determines them.
ghost use Rattle.task_world.specs.Media.{TaskDisksLaw};
ghost use Rattle.task_world.specs.Written.{TaskNotesAreWritten};

/// After each run of the task machine the media hold what the disk fold over its notes gives from what they
/// held at the start, and the count of faults of the unit's rose by the runs that ended with a medium call
/// that failed.
#[tactic(auto, using(crate::proofs::TaskMedia::disks_law))]
pub fn task_lines_keep_the_disks()
    ensures { TaskDisksLaw }
{}

/// Where the notes of each line of a run are inside the types of their fields, the text of its journal
/// determines them.
#[tactic(auto, using(crate::proofs::NotesWritten::notes_are_written))]
pub fn task_notes_are_written()
    ensures { TaskNotesAreWritten }
{}
