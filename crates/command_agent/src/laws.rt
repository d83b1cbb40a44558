ghost use Rattle.command_agent.specs.Counting.{FailuresMakeNoMore, LostAheadsMakeNoMore};
ghost use Rattle.command_agent.specs.Lost.{LostLaw, LossesRunNothing, TwoLossesEndIt, RereadsEndNothing};
ghost use Rattle.command_agent.specs.Sound.{CallsKeepSound};

/// A reply that fails runs no command and asks nothing of a unit or a medium: it is what
/// [`crate::Agent::lose`] does. Two losses in turn leave no main transaction under way.
#[tactic(auto, using(crate::proofs::Losing::reply_lost, crate::proofs::Losing::losses_silent, crate::proofs::Losing::two_losses))]
pub fn failed_reply_is_a_loss()
    ensures loss { LostLaw }
    ensures silent { LossesRunNothing }
    ensures over { TwoLossesEndIt }
{}

/// At a failing read of a next pointer no ORB ends, whatever the state of the agent else is.
#[tactic(auto, using(crate::proofs::Losing::rereads_end_nothing))]
pub fn failing_reread_ends_nothing()
    ensures { RereadsEndNothing }
{}

/// A transaction that fails leaves no more requests to be made than before it: the write of the status
/// block is within what was left of the present ORB, and a read ahead gives back a doorbell mark at most.
pub fn failures_make_no_more_requests()
    ensures main { FailuresMakeNoMore }
    ensures ahead { LostAheadsMakeNoMore }
{}

/// What always holds of an agent, by its phase, holds behind each of its calls: of a reply, where a run
/// told what a run of its command may tell.
pub fn calls_keep_agents_sound()
    ensures { CallsKeepSound }
{}
