//! The laws of worlds and of the runs that they stand for.
ghost use Rattle.sbp_world.specs.FitInitiator as initiator;
ghost use Rattle.sbp_world.specs.FitTarget as target;
ghost use Rattle.sbp_world.specs.Forms.{FormLaw};
ghost use Rattle.sbp_world.specs.Runs.{BeginsLaw, GoesOnLaw, SettlesLaw};
ghost use Rattle.sbp_world.specs.Wire.Lines.{BusLaw, RunLaw};

/// A new world stands for the run before any line after `begin`.
pub fn runs_begin()
    ensures { BeginsLaw }
{}

/// After a line a world stands for the run that it stood for, with this line more, whose notes it has.
pub fn runs_go_on()
    ensures { GoesOnLaw }
{}

/// So it does after a `settle`.
pub fn settles_go_on()
    ensures { SettlesLaw }
{}

/// The notes of the line that begins a run, and of each line, have the form of a journal's notes: what
/// its text asks for.
pub fn lines_have_form()
    ensures { FormLaw }
{}

/// From a new target on, each call of it is what the wire takes a call of a node for: a packet is judged, a
/// request is answered as its judgement states, and then nodes that the target knows are asked, by packets
/// with their fields; all of bytes, and nothing is told of the wire.
#[tactic(auto, using(crate::proofs::FitTarget::Law::fitting_law))]
pub fn target_calls_fit_the_wire()
    ensures { target.FittingLaw }
{}

/// From a new initiator on, each call of it is what the wire takes a call of a node for: a packet is judged,
/// a request is answered as its judgement states, and then the target is asked, by packets with their
/// fields; all of bytes, and nothing is told of the wire.
#[tactic(auto, using(crate::proofs::FitInitiator::Law::fitting_law))]
pub fn initiator_calls_fit_the_wire()
    ensures { initiator.FittingLaw }
{}

/// Each line of a run is a list of moves of the wire: a new world stands for a wire that moves lead to, and so
/// does the world after every line of every run; so the history of every run has the laws of the wire.
#[tactic(auto, using(crate::proofs::Wire::Runs::all_runs))]
pub fn lines_are_moves()
    ensures { RunLaw }
{}

/// Every run of the machine has the part of the laws that is of the bus: each note has its form, a write is taken as
/// new at most once, and the lines bring the deliveries, refusals and ends that they ask for.
#[tactic(auto, using(crate::proofs::Wire::Entries::bus_law))]
pub fn runs_are_lawful_on_the_bus()
    ensures { BusLaw }
{}
