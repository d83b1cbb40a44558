//! The laws of the statuses that an initiator takes.
ghost use Rattle.sbp_world.specs.Hosts.Statuses.Finished.{FinishedLaw, OnceTakenLaw};
ghost use Rattle.sbp_world.specs.Hosts.Statuses.Senders.{RestLaw, SendersLaw};
ghost use Rattle.sbp_world.specs.Hosts.Statuses.Taking.{TakingLaw};

/// The law that in every run, in each turn, an initiator takes exactly the statuses that are due: in the delivery of a
/// block write that it gets at a FIFO, which spells a status block for one of its ORBs that waits, that status, and none in
/// any other turn. The ORB whose status is taken waits until then, and the packet that was got last spells the status with
/// the address of its slot; it goes to the FIFO of the latest login, or to that of a place of management.
#[tactic(auto, using(crate::proofs::Hosts::Statuses::Runs::taking_law))]
pub fn statuses_are_taken()
    ensures { TakingLaw }
{}

/// The law that in every run the status of an ORB is taken at most once.
#[tactic(auto, using(crate::proofs::Hosts::Statuses::Finished::once_taken_law))]
pub fn statuses_are_taken_once()
    ensures { OnceTakenLaw }
{}

/// The law of every finished history: the second part of the status law, that each turn takes exactly the statuses that are
/// due, whichever initiators are left out; and that each status is taken so.
#[tactic(auto, using(crate::proofs::Hosts::Statuses::Finished::finished_law))]
pub fn due_statuses_are_taken()
    ensures { FinishedLaw }
{}

/// The law that in every run a status is taken of a packet that the target sent to the initiator, and that was not injected.
#[tactic(auto, using(crate::proofs::Hosts::Statuses::Senders::senders_law))]
pub fn statuses_are_of_the_target()
    ensures { SendersLaw }
{}

/// The law that a status which is taken so is taken as the first part of the status law says, where the target did its part:
/// the ORB ended with this status, and its end sent this packet behind it, to another FIFO than that of a place of management.
#[tactic(auto, using(crate::proofs::Hosts::Statuses::Senders::rest_law))]
pub fn the_rest_is_the_targets()
    ensures { RestLaw }
{}
