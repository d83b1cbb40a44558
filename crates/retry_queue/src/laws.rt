//! The laws of the retry queue, over its steps.
ghost use Rattle.retry_queue.specs.Entries.{AppendsComeFirst, LinesBring};
ghost use Rattle.retry_queue.specs.Law.{DeadListsWait, OrderKept, QueuesAreLawful};
ghost use Rattle.retry_queue.specs.Runs.{QueueMediaLaw, QueueRunsArePlain, QueueRunsLaw, StandsForRuns};
ghost use Rattle.retry_queue.specs.Tried.{QueueTried};

/// In each list of a queue the ORBs are those of consecutive submissions, from the first one without a
/// status as the list began; and the submissions with a status are a front.
#[tactic(auto, using(crate::proofs::Order::keeps_order))]
pub fn queues_keep_order()
    ensures { OrderKept }
{}

/// While a status of the present list is none that a submission has, aborted, dummy, illegal or failed, a
/// pump appends nothing.
#[tactic(auto, using(crate::proofs::Marks::dead_lists_wait))]
pub fn dead_lists_wait()
    ensures { DeadListsWait }
{}

/// The queue law over the steps of a journal: these together, and what unit 0 holds. Where no status is a
/// check, each block holds what the last submission with a status that writes it wrote, or what a later one
/// wrote; without such a submission it may also hold its bytes at the start. Where besides each submission
/// has its status, unit 0 holds what it held at the start with the submissions written over it, each once,
/// in order.
pub fn queues_are_lawful()
    ensures { QueuesAreLawful }
{}

/// Of each line whose notes the action law allows an append is the first note, and the only one, and is
/// that of the line's CMD.
#[tactic(auto, using(crate::proofs::Entries::appends_come_first))]
pub fn appends_come_first()
    ensures { AppendsComeFirst }
{}

/// What a line of the world brings is what is asked of journals: an ORB is appended directly behind the
/// line that asked for it, by the action law, and the rest by what each note stands on.
#[tactic(auto, using(crate::proofs::Brought::lines_bring))]
pub fn lines_bring_what_is_asked()
    ensures { LinesBring }
{}

/// In the journal of every script of a queue the statuses of a list are taken in the order of its ORBs,
/// without a gap, and none behind one that is failed or illegal; each is good, check, failed or illegal;
/// and commands run on unit 0.
#[tactic(auto, using(crate::proofs::PlainRuns::queue_runs_plain))]
pub fn queue_runs_are_plain()
    ensures { QueueRunsArePlain }
{}

/// The journal of every script of a queue keeps the queue law, over what unit 0 held; and what the queue
/// keeps of the notes of its world is what the terms of its run say.
#[tactic(auto, using(crate::proofs::ScriptRuns::queue_runs_law))]
pub fn queue_runs_are_lawful()
    ensures { QueueRunsLaw }
{}

/// A queue that stands for the journal of a script, over one to four media, stands for a run of that script.
pub fn queues_stand_for_runs()
    ensures { StandsForRuns }
{}

/// What the run of a script leaves on unit 0 is what the runs of its journal leave.
#[tactic(auto, using(crate::proofs::ScriptRuns::queue_media_law))]
pub fn queue_runs_leave_their_medium()
    ensures { QueueMediaLaw }
{}

/// The parts of the queue law accept a worked journal and refuse others that differ from it in a step.
#[tactic(auto, using(crate::proofs::Tries::queue_tried))]
pub fn queue_law_tried()
    ensures { QueueTried }
{}
