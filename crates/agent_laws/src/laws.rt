ghost use Rattle.agent_laws.specs.Answers.{CallsAnswer};
ghost use Rattle.agent_laws.specs.Bells.{SuspendedLaw, MarkLaw};
ghost use Rattle.agent_laws.specs.Buffers.{CallsFeed};
ghost use Rattle.agent_laws.specs.Calls.{CallsAreLawful, CallsKeepOrder};
ghost use Rattle.agent_laws.specs.Deaths.{CallsDieDuly, DeathLaw};
ghost use Rattle.agent_laws.specs.Transactions.{UnderWayLaw};
ghost use Rattle.agent_laws.specs.Wire.{CallsAreWired};

/// Over every list of calls of an agent: each turn comes when the ORB before has ended, and to the one
/// that its next pointer last read names; the present ORB runs at most once, with all of its data, and
/// then ends, once; nothing else is written for it than its answer, between these, and its status block.
#[tactic(auto, using(crate::proofs::Lists::calls_lawful))]
pub fn calls_are_lawful()
    ensures { CallsAreLawful }
{}

/// Over every list of calls of an agent: the ORBs that ended since the latest pointer was taken are, in
/// order, the one pointed to and then each one whose turn came.
#[tactic(auto, using(crate::proofs::Order::calls_keep_order))]
pub fn calls_keep_order()
    ensures { CallsKeepOrder }
{}

/// Over every list of calls of an agent: it asks for one main transaction at a time, and for one read
/// ahead; what it reads has the address and the length that the pointers, the ORBs and the page tables
/// that were read name; an ORB ends good or with a check behind its run alone, and as dummy, aborted or
/// illegal without one, by the status block that says so; a pointer is taken in RESET and SUSPENDED alone.
#[tactic(auto, using(crate::proofs::Lists::calls_wired))]
pub fn calls_ask_and_end()
    ensures { CallsAreWired }
{}

/// Over every list of calls of an agent: a command runs on the buffer of its ORB or of the page table
/// that was read for it, and on the chunks of that buffer that were read, joined, all of them or none.
#[tactic(auto, using(crate::proofs::Lists::calls_fed))]
pub fn calls_run_on_their_data()
    ensures { CallsFeed }
{}

/// Over every list of calls of an agent: an answer is written chunk by chunk into the same buffer, and
/// whole before the status block, unless the ORB ends as failed.
#[tactic(auto, using(crate::proofs::Lists::calls_answered))]
pub fn calls_write_their_answers()
    ensures { CallsAnswer }
{}

/// Over every list of calls of an agent: an ORB ends as failed exactly where its transaction failed, and
/// the agent becomes dead exactly where its main transaction failed, for that cause, and with an illegal
/// ORB.
#[tactic(auto, using(crate::proofs::Lists::calls_mortal, crate::proofs::Lists::deaths_due))]
pub fn calls_die_duly()
    ensures only { CallsDieDuly }
    ensures always { DeathLaw }
{}

/// After each list of calls of an agent the transactions under way are those asked for and not answered
/// since; an agent is SUSPENDED only at the end of its list, with no doorbell since; and a doorbell's
/// mark is cleared only as a read of an ORB or next pointer is asked for.
pub fn calls_keep_state()
    ensures under_way { UnderWayLaw }
    ensures suspended { SuspendedLaw }
    ensures mark { MarkLaw }
{}
