//! What runs of the task machine are.
ghost use Rattle.task_world.specs.Forms.{FormLaw};
ghost use Rattle.task_world.specs.Runs.{BeginsLaw, GoesOnLaw};
ghost use Rattle.task_world.specs.Seated.{SeatLaw};

/// A new task world stands for the run before any line after `begin`.
#[tactic(auto, using(crate::proofs::Standing::begins))]
pub fn task_runs_begin()
    ensures { BeginsLaw }
{}

/// After a line a task world stands for the run that it stood for, with this line more, whose notes it has.
#[tactic(auto, using(crate::proofs::Standing::goes_on))]
pub fn task_runs_go_on()
    ensures { GoesOnLaw }
{}

/// The notes of each line have the form of a journal's notes: what its text asks for.
pub fn task_lines_have_form()
    ensures { FormLaw }
{}

/// Behind each line of a run its world sees the transaction layer of the task node as the target's, and has
/// one initiator.
pub fn task_runs_are_seated()
    ensures { SeatLaw }
{}
