//! What a queue keeps, against the terms of the laws.
ghost use Rattle.retry_queue.specs.Heard.{KeptLaw};

/// What a queue keeps of its world's notes is what the run terms of its journal say: its session, whether
/// an operation is under way and whether the present list is marked dead; and by them the submission that
/// the present list began with, the next one for it, and the first one without a status.
#[tactic(auto, using(crate::proofs::Keeping::kept_law))]
pub fn queues_keep_the_terms()
    ensures { KeptLaw }
{}
