//! The laws of the sessions of the initiators and the logins of the target.
ghost use Rattle.sbp_world.specs.Sessions.Asking.{AskingLaw};
ghost use Rattle.sbp_world.specs.Sessions.Blocks.{BlocksLaw};
ghost use Rattle.sbp_world.specs.Sessions.Caught.{CaughtBetweenLaw, CaughtLaw};
ghost use Rattle.sbp_world.specs.Sessions.Entering.{EnteringLaw};
ghost use Rattle.sbp_world.specs.Sessions.Handed.{HandedLaw};
ghost use Rattle.sbp_world.specs.Sessions.Holding.{HoldingLaw};
ghost use Rattle.sbp_world.specs.Sessions.Joined.{JoinedBetweenLaw, JoinedLaw};
ghost use Rattle.sbp_world.specs.Sessions.Placed.{PlacedLaw};
ghost use Rattle.sbp_world.specs.Sessions.Single.{SingleLaw};
ghost use Rattle.sbp_world.specs.Sessions.Standing.{StandingLaw};
ghost use Rattle.sbp_world.specs.Sessions.Starting.{StartingLaw};
ghost use Rattle.sbp_world.specs.Sessions.Writing.{WritingLaw, WrittenBetweenLaw, WrittenLaw, WrittenRunLaw};

/// After every line of every run each initiator of a live login of the target, and the one that it manages for, is in the
/// generation that the target knows or in a later one; and so is the initiator of the place of an agent that is not in RESET.
#[tactic(auto, using(crate::proofs::Sessions::Runs::caught_law))]
pub fn nodes_have_caught_up_with_the_target()
    ensures { CaughtLaw }
{}

/// And behind each delivery of a line that may follow.
#[tactic(auto, using(crate::proofs::Sessions::Runs::caught_between_law))]
pub fn deliveries_keep_nodes_caught_up()
    ensures { CaughtBetweenLaw }
{}

/// After every line of every run the target is in the generation of each initiator whose session is live or is being left, or
/// that has a list, or in a later one.
#[tactic(auto, using(crate::proofs::Sessions::Runs::joined_law))]
pub fn sessions_and_lists_are_of_seen_generations()
    ensures { JoinedLaw }
{}

/// And behind each delivery of a line that may follow.
#[tactic(auto, using(crate::proofs::Sessions::Runs::joined_between_law))]
pub fn deliveries_keep_sessions_and_lists_seen()
    ensures { JoinedBetweenLaw }
{}

/// Each call of a target changes the live logins of the node whose operation is under way alone: those of every other node
/// stand as they are, and no other comes beside them. But as it sees a later generation no login stays live.
#[tactic(auto, using(crate::proofs::Sessions::Standing::standing_law))]
pub fn live_logins_stand()
    ensures { StandingLaw }
{}

/// In every run a login ID names one place of the target's table, and so does a node with a live login on a unit: that is the only
/// live login of the node there.
#[tactic(auto, using(crate::proofs::Sessions::Single::single_law))]
pub fn nodes_have_one_login_on_a_unit()
    ensures { SingleLaw }
{}

/// An operation of the management that is under way after a call of a target was under way before it, of the same node and with
/// the same address; or the call delivered the request to MANAGEMENT_AGENT by which that node asked for it, while none was.
#[tactic(auto, using(crate::proofs::Sessions::Starting::starting_law))]
pub fn operations_are_asked_for()
    ensures { StartingLaw }
{}

/// Where an operation of the management writes its response or its status block after a call of a target, it wrote before, and
/// what was decided still stands; or the call delivered the packet by which its ORB was decided, and what a status of 00 says
/// is so: a login that was granted stands live in the place that the response names, one that was reconnected is live, and one
/// that was logged out is gone.
#[tactic(auto, using(crate::proofs::Sessions::Writing::writing_law))]
pub fn decisions_stand_while_they_are_written()
    ensures { WritingLaw }
{}

/// So after every list of calls of a target what its operation writes is of a decision that still stands: a response to a login
/// names a live login of the node that it goes to, and a status block names the ORB of the operation.
#[tactic(auto, using(crate::proofs::Sessions::Writing::written_law))]
pub fn what_is_written_was_decided()
    ensures { WrittenLaw }
{}

/// And so it is after every line of every run, by the terms of the run.
#[tactic(auto, using(crate::proofs::Sessions::Writing::written_run_law))]
pub fn runs_write_what_was_decided()
    ensures { WrittenRunLaw }
{}

/// And behind each delivery of a line that may follow.
#[tactic(auto, using(crate::proofs::Sessions::Writing::written_between_law))]
pub fn deliveries_keep_what_is_written_decided()
    ensures { WrittenBetweenLaw }
{}

/// What leaves for an operation of the management. Behind the answer to the request by which it is asked for, nothing or a read of the
/// 32 bytes at the address that was written, at the node that wrote it. As a reply brings it to where it writes, nothing or the write
/// of the bytes that the target has for it, at that node: of its response to the address that its ORB names for that, and of its
/// status block to the FIFO of its ORB.
#[tactic(auto, using(crate::proofs::Sessions::Handed::handed_law))]
pub fn operations_ask_where_their_orbs_say()
    ensures { HandedLaw }
{}

/// In every run a session becomes live, and the response of one that is live changes, by a status block of its target alone,
/// which names the management ORB of its login or its reconnect under way with a status of 00: a login takes the response in
/// the buffer of that ORB's place, a reconnect has the one that was held.
#[tactic(auto, using(crate::proofs::Sessions::Entering::entering_law))]
pub fn sessions_enter_by_their_status()
    ensures { EnteringLaw }
{}

/// In every run each packet of the target that writes, writes a block, and so does each packet that an initiator got: no quadlet is
/// written to one, for it takes the writes of its target alone.
#[tactic(auto, using(crate::proofs::Sessions::BlockRuns::blocks_law))]
pub fn writes_to_initiators_are_blocks()
    ensures { BlocksLaw }
{}

/// In every run the login of an initiator's host is the response that its session carries, also while that is held, returns, is
/// left or is stuck; and the response buffers of the run are those in its places of management.
#[tactic(auto, using(crate::proofs::Sessions::HoldingRuns::holding_law))]
pub fn hosts_hold_the_login_of_their_session()
    ensures { HoldingLaw }
{}

/// In every run each place of management in an initiator's memory holds the ORB of the latest operation that used it, with the
/// fields of its line, as the run terms have it, and zeros before any; and a read there that is complete gives its bytes.
#[tactic(auto, using(crate::proofs::Sessions::PlaceRuns::placed_law))]
pub fn places_hold_the_orbs_of_their_operations()
    ensures { PlacedLaw }
{}

/// In every run an initiator that begins an operation with a management ORB sends one packet, a write of MANAGEMENT_AGENT with the
/// address of its next place; and the ORB of the action stands in that place then.
#[tactic(auto, using(crate::proofs::Sessions::PlaceAsks::asking_law))]
pub fn operations_name_the_place_of_their_orb()
    ensures { AskingLaw }
{}
