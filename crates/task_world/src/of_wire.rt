//! The laws of the wire of runs of `tasks`.
ghost use Rattle.task_world.specs.Fitting.{FittingLaw};
ghost use Rattle.task_world.specs.Wire.Keeping.{WireLaw, WireRunLaw};

/// From a new task node on, each call of it is what the wire takes a call of a node for: a packet is judged, a
/// request is answered as its judgement states, and then the node of its login is asked, by packets with their
/// fields; all of bytes, and nothing is told of the wire.
#[tactic(auto, using(crate::proofs::Fit::Law::fitting_law))]
pub fn task_calls_fit_the_wire()
    ensures { FittingLaw }
{}

/// Each line of a run of `tasks` is a list of moves of the wire, where the run is such as a script's: so the
/// history of such a run has the laws of the wire, and a write is taken as new at most once.
#[tactic(auto, using(crate::proofs::Wire::Runs::wire_run_law))]
pub fn task_lines_are_moves()
    ensures { WireRunLaw }
{}

/// Every run of `tasks` that is such as a script's has the part of the laws that is of the bus: each note has its
/// form, a write is taken as new at most once, and the lines bring the deliveries, refusals and ends that they ask
/// for.
pub fn task_runs_are_lawful_on_the_bus()
    ensures { WireLaw }
{}
