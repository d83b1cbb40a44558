//! The laws of the writes of ORB_POINTER of the initiators, and of the moments of their lists.
ghost use Rattle.sbp_world.specs.Pointers.Bases.{RegistersLaw};
ghost use Rattle.sbp_world.specs.Pointers.Pointers.{MomentsLaw, PointersLaw, WritesLaw};

/// In every run, after each line and behind each delivery of a line that delivers one packet after the other: each write of
/// ORB_POINTER of an initiator is a block write of 8 bytes that points to the first ORB of a list of it, as the run stands then; no list
/// has two of them, and the later one is of the later list; and one that was not judged, in the generation that its initiator is in, is of the
/// present list, beside no operation that ends lists. Each other write of it is that of DOORBELL, AGENT_RESET or UNSOLICITED_STATUS_ENABLE, or
/// tells the address of a management ORB; and a list that begins before a pointer was judged does so in a later generation.
#[tactic(auto, using(crate::proofs::Pointers::Proved::pointers_law))]
pub fn pointers_are_of_lists()
    ensures { PointersLaw }
{}

/// And each moment of an initiator's lists stands as it may: nothing is appended, linked or rung while an operation that ends lists is under
/// way; such an operation begins once the ORB_POINTER write of the present list was answered; and a list is dropped only then, as
/// AGENT_RESET or the status of such an operation comes, or a read of AGENT_STATE gives RESET, or as a later generation is seen.
#[tactic(auto, using(crate::proofs::Pointers::Proved::moments_law))]
pub fn moments_stand_as_they_may()
    ensures { MomentsLaw }
{}

/// And each request of an initiator to write is asked for in the line of an action of it, but for those that it injected: a ring writes ORB_POINTER,
/// or DOORBELL where that was written for the present list; AGENT_RESET and UNSOLICITED_STATUS_ENABLE their registers; and an operation of
/// management the address of its ORB.
#[tactic(auto, using(crate::proofs::Pointers::Proved::writes_law))]
pub fn writes_are_of_actions()
    ensures { WritesLaw }
{}

/// And each initiator writes and reads at the agent of the response that its session carries: ORB_POINTER for its present list and a read of
/// AGENT_STATE that tells of that list, where no logout of it was refused, which leaves the list; and AGENT_RESET while that is under way. Then a
/// session that has a list is live, or is being left, or became stuck so.
#[tactic(auto, using(crate::proofs::Pointers::Based::registers_law))]
pub fn registers_are_of_the_session()
    ensures { RegistersLaw }
{}
