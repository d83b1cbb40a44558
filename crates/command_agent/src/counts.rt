ghost use Rattle.command_agent.specs.Making.{ChunksAreCounted, RepliesMakeNoMore, TurnsMakeTheirShare, AheadsMakeNothing, PointersMakeTheirShare, DoorbellsMakeOne, ResetsMakeNothing, AbortsMakeNothing};
ghost use Rattle.command_agent.specs.Working.{RepliesGoOn, AheadsBeginNone, LossesBeginNone};

/// The pieces of at most so many bytes that are left of a whole buffer are its chunks.
#[tactic(auto, using(crate::proofs::Making::Chunks::chunks_are_counted))]
pub fn chunks_are_counted()
    ensures { ChunksAreCounted }
{}

/// A number of an agent falls with each reply by the requests that the reply makes: of its present ORB
/// the page table that it reads, its chunks, its status block and the read ahead behind it. An ORB whose
/// turn comes brings its share of them, and its fetch; a next pointer is read again for a doorbell mark.
pub fn replies_make_no_more_requests()
    ensures replies { RepliesMakeNoMore }
    ensures turns { TurnsMakeTheirShare }
    ensures aheads { AheadsMakeNothing }
{}

/// A pointer that is written makes no more requests than the share of its ORB, and a doorbell makes one or
/// sets the mark; a reset and an abort make none, and leave no more than was left.
pub fn registers_make_no_more_requests()
    ensures pointers { PointersMakeTheirShare }
    ensures doorbells { DoorbellsMakeOne }
    ensures resets { ResetsMakeNothing }
    ensures aborts { AbortsMakeNothing }
{}

/// From the turn of an ORB until its end an agent is at work: a reply for the present ORB, and one that
/// has the turn of another, leaves it at work or ends an ORB, and behind an end it is not at work. The
/// reply to a read ahead, and a transaction that fails, begin no ORB.
pub fn agents_work_until_an_end()
    ensures replies { RepliesGoOn }
    ensures aheads { AheadsBeginNone }
    ensures losses { LossesBeginNone }
{}
