//! The laws of turns, each of every run of the machine of up to four initiators with one to four units.
ghost use Rattle.turn_laws.specs.AbortOwners.{AbortOwnersLaw};
ghost use Rattle.turn_laws.specs.Aborted.{AbortedLaw};
ghost use Rattle.turn_laws.specs.Aborts.{AbortsLaw};
ghost use Rattle.turn_laws.specs.ActEntries.{ActionRunLaw};
ghost use Rattle.turn_laws.specs.Actions.{ActionsLaw};
ghost use Rattle.turn_laws.specs.Alone.{AloneLaw};
ghost use Rattle.turn_laws.specs.Announced.{AnnouncedLaw};
ghost use Rattle.turn_laws.specs.Answers.{AnsweredLaw};
ghost use Rattle.turn_laws.specs.Asked.{AskedLaw};
ghost use Rattle.turn_laws.specs.Cleared.{ClearedLaw};
ghost use Rattle.turn_laws.specs.Codes.{CodesLaw};
ghost use Rattle.turn_laws.specs.Cuts.{CutsLaw};
ghost use Rattle.turn_laws.specs.Deaths.{DeathsLaw};
ghost use Rattle.turn_laws.specs.Decided.{DecidedLaw};
ghost use Rattle.turn_laws.specs.DecisionsSent.{DecisionsSentLaw};
ghost use Rattle.turn_laws.specs.Ends.{EndsLaw};
ghost use Rattle.turn_laws.specs.Failing.{FailingLaw};
ghost use Rattle.turn_laws.specs.Failures.{FailuresLaw};
ghost use Rattle.turn_laws.specs.Faults.{FaultsLaw};
ghost use Rattle.turn_laws.specs.Judgement.{JudgementRunLaw};
ghost use Rattle.turn_laws.specs.LawfulRuns.{LawfulRunsLaw};
ghost use Rattle.turn_laws.specs.Login.{LoginRunLaw};
ghost use Rattle.turn_laws.specs.Once.{OnceLaw};
ghost use Rattle.turn_laws.specs.Operations.{OperationsLaw};
ghost use Rattle.turn_laws.specs.Ordered.{OrderedLaw};
ghost use Rattle.turn_laws.specs.Packets.{PacketsLaw};
ghost use Rattle.turn_laws.specs.Requests.{RequestsRunLaw};
ghost use Rattle.turn_laws.specs.RunsEnd.{RunsEndLaw};
ghost use Rattle.turn_laws.specs.PushSent.{ToldSentLaw};
ghost use Rattle.turn_laws.specs.PushTold.{PushToldLaw};
ghost use Rattle.turn_laws.specs.Pushes.{PushesLaw};
ghost use Rattle.turn_laws.specs.Silent.{SilentLaw};
ghost use Rattle.turn_laws.specs.Statuses.{StatusesLaw};
ghost use Rattle.turn_laws.specs.Told.{ToldLaw};
ghost use Rattle.turn_laws.specs.UnderWay.{AfterLaw, RomsWaitLaw, TargetWaitsLaw};
ghost use Rattle.turn_laws.specs.Unserved.{UnservedLaw};

/// In each turn of every run exactly the units are cleared that the decision of the turn resets, whatever
/// anybody injected: `cleared` of the cause law.
#[tactic(auto, using(crate::proofs::Cleared::cleared_law))]
pub fn units_are_cleared_where_due()
    ensures { ClearedLaw }
{}

/// In each turn of every run that a note begins, whatever anybody injected, the notes stand in one order.
/// First what the node tells: lists that are cut, units that are cleared, logins that are held, expire, come
/// back or leave, the decision, its failure, a command that runs, ends and deaths, unsolicited statuses; of an
/// initiator what it is told or takes, then what its operations, its list and its session come to. Behind
/// these the packets that it sends: `ordered` of the action law.
#[tactic(auto, using(crate::proofs::OrderRuns::ordered_law))]
pub fn turns_are_in_order()
    ensures { OrderedLaw }
{}

/// In each turn of every run exactly the lists are cut whose agents AGENT_RESET, the decision of the turn or a
/// reset that the target sees puts into RESET, by rising place, each by the name that its pointer had as it
/// was taken, whatever anybody injected: `cuts` of the cause law.
#[tactic(auto, using(crate::proofs::Cuts::cuts_law))]
pub fn lists_are_cut_where_due()
    ensures { CutsLaw }
{}

/// In each turn of every run, whatever anybody injected, an ORB ends as failed or illegal only directly
/// behind the `dead` of its initiator: `faults` of the cause law.
#[tactic(auto, using(crate::proofs::Faults::faults_law))]
pub fn faults_follow_deaths()
    ensures { FaultsLaw }
{}

/// In each turn of every run, whatever anybody injected, what a decision brings is what its note says. With
/// status 00 the open lists of the login that it names, of its unit, or all are cut; the unit is cleared, or
/// each; the login comes back or leaves. With another status nothing is cut, cleared or moved: `decided` of
/// the cause law.
#[tactic(auto, using(crate::proofs::DecisionRuns::decided_law))]
pub fn decisions_stand_as_told()
    ensures { DecidedLaw }
{}

/// In each turn of every run exactly the deaths of agents and the ends of ORBs stand that the step of an agent
/// brings, at a reply, a time-out, a pointer or a doorbell, or where its first request finds no label, whatever
/// anybody injected: each of the initiator, the list and the ORB that the history names, a death before the end
/// that it brings or behind the one whose status write finds no label: `ends` of the cause law.
#[tactic(auto, using(crate::proofs::Ends::ends_law))]
pub fn orbs_end_where_due()
    ensures { EndsLaw }
{}

/// In every run, whatever anybody injected, a turn tells one death of an agent at most, and none where the agent
/// that it takes on is DEAD: `once` of the cause law.
#[tactic(auto, using(crate::proofs::Once::once_law))]
pub fn agents_die_once()
    ensures { OnceLaw }
{}

/// In each turn of every run a death of an agent has its row, whatever anybody injected: a main transaction of the
/// agent timed out, found no label, was answered by another rcode than 0 or brought a payload of another length
/// than it asked for, or the ORB or the page table that comes to be checked is illegal: `deaths` of the cause law.
#[tactic(auto, using(crate::proofs::Deaths::deaths_law))]
pub fn deaths_have_rows()
    ensures { DeathsLaw }
{}

/// In each turn of every run an ORB that ends as illegal does so with the code of what is illegal, whatever anybody
/// injected: of the first field that is, where the ORB comes to be checked, as it is read or as its turn comes that
/// was read ahead; or of the page table that its read brings: `codes` of the cause law.
#[tactic(auto, using(crate::proofs::Codes::codes_law))]
pub fn illegal_orbs_have_codes()
    ensures { CodesLaw }
{}

/// In each turn of every run, whatever anybody injected, an ORB ends as aborted exactly where an abort with 00 of it
/// stands before, it has neither run nor ended since, and the turn brings its next response, whole, with no ORB of
/// a format other than 0: `aborts` of the cause law.
#[tactic(auto, using(crate::proofs::Aborts::aborts_law))]
pub fn orbs_abort_where_due()
    ensures { AbortsLaw }
{}

/// In every run, whatever anybody injected, an abort with 00 is of the initiator of each login that its management ORB
/// names, as the target got that ORB: nobody aborts an ORB of another's login. By it `aborted` of the cause law, which
/// reads the name of an ORB by the initiator of the abort, and `aborts`, which reads its place, speak of one initiator.
#[tactic(auto, using(crate::proofs::AbortOwners::abort_owners_law))]
pub fn aborts_are_of_owners()
    ensures { AbortOwnersLaw }
{}

/// In every run in which no initiator injected packets, or few logins were given, an ORB of an initiator that injected
/// none ends as aborted only where an abort of it stands before: an `mgmt` of this initiator, an abort with 00, whose
/// management ORB, as the target got it, has the address by which that ORB was named then, which had neither run nor
/// ended: `aborted` of the cause law.
#[tactic(auto, using(crate::proofs::AbortedRuns::aborted_law))]
pub fn aborts_end_what_they_named()
    ensures { AbortedLaw }
{}

/// In each turn of every run, whatever anybody injected, an end of an ORB has its status write, or a death beside
/// it: where the turn tells none, a label serves the write of that status to the FIFO of the login, with the
/// address of the ORB's slot and the src of its next pointer: `silent` of the cause law.
#[tactic(auto, using(crate::proofs::Silent::silent_law))]
pub fn ends_are_heard()
    ensures { SilentLaw }
{}

/// In each turn of every run, whatever anybody injected, behind an end of an ORB its initiator is sent one write, and
/// no other: the status of that end, with the address of the ORB's slot, to the FIFO of the login, with src 0
/// exactly where the next pointer that was got last is not null; and none where that write finds no label:
/// `statuses` of the sent law.
#[tactic(auto, using(crate::proofs::Statuses::statuses_law))]
pub fn statuses_are_sent_where_due()
    ensures { StatusesLaw }
{}

/// In each turn of every run, whatever anybody injected, behind a decision its initiator is sent one write, and no
/// other: the response, cut to the length that the management ORB allows, to the address that it names, or, where the
/// response has no byte, the status block to the ORB's FIFO; and behind the answer to a response the status block with
/// 00; and none where that write finds no label: `decisions` of the sent law.
#[tactic(auto, using(crate::proofs::DecisionsSent::decisions_sent_law))]
pub fn decisions_are_sent_where_due()
    ensures { DecisionsSentLaw }
{}

/// In every run, whatever anybody injected, there are bytes with which the write of a chunk of an answer finds no
/// label, as many as it has, where the medium did not tell them and the turn tells that it found none: `unserved`
/// of the cause law.
#[tactic(auto, using(crate::proofs::Unserved::unserved_law))]
pub fn untold_chunks_find_no_label()
    ensures { UnservedLaw }
{}

/// The login law holds of every run, whatever anybody injected: in each turn the decisions stand that are
/// due, each with the status of the first row that holds, and `held`, `expired`, `back` and `left` exactly
/// where a reset that the target sees, a second or a decision has them.
#[tactic(auto, using(crate::proofs::LoginRuns::login_run_law))]
pub fn logins_are_lawful()
    ensures { LoginRunLaw }
{}

/// In every run, whatever anybody injected, serials count from 1, and each packet that was not injected is
/// canonical, from its sender's ID to its receiver's in its sender's generation; a request has the lowest
/// label that serves it: `packets` of the sent law.
#[tactic(auto, using(crate::proofs::SentPackets::packets_run_law))]
pub fn packets_are_lawful()
    ensures { PacketsLaw }
{}

/// In every run, whatever anybody injected, the packets of a delivery in which a node gets a request begin with
/// the response to it. It has the rcode of the tables: of the target's addresses, with conflict_error where an agent
/// is active or dead or an operation is under way and data_error for a null pointer; and of the windows and FIFOs of
/// an initiator. A read that is complete is given the bytes that stand there: of a ROM, of an agent's state and
/// pointer, and of the ORBs, page tables, buffers and management ORBs in an initiator's memory: `answers` of the
/// sent law.
#[tactic(auto, using(crate::proofs::AnswerRuns::answered_law))]
pub fn requests_are_answered_by_the_tables()
    ensures { AnsweredLaw }
{}

/// The judgement law holds of every run, of every node, whatever anybody injected: each delivery begins with
/// `got`, or with `ignored` and its cause, by the first row that holds on what the history says. Where it is
/// ignored, no other note follows but the one answer that the row has, to the sender, with the row's rcode;
/// and none where the row has none.
#[tactic(auto, using(crate::proofs::Judgements::judgement_run_law))]
pub fn judgements_are_lawful()
    ensures { JudgementRunLaw }
{}

/// In the delivery in which a command loads a disc into the empty tray of a unit each other live login of that
/// unit whose register is enabled has one note, `unsolicited` or `unsent`, by rising place, and no other turn has
/// such a note, whatever anybody injected: whom the media law has told.
#[tactic(auto, using(crate::proofs::Announcing::announced_law))]
pub fn discs_are_announced_where_due()
    ensures { AnnouncedLaw }
{}

/// In every run, whatever anybody injected, an unsolicited status is sent to an initiator only where no earlier
/// one to it is under way and the label of none rests: the half of `pushes` of the media law that keeps a second
/// one back.
#[tactic(auto, using(crate::proofs::Alone::alone_law))]
pub fn unsolicited_statuses_go_alone()
    ensures { AloneLaw }
{}

/// In every run, whatever anybody injected, each login that hears of a disc has `unsolicited` where the write finds a
/// label to its initiator and no earlier one to it is pending, and else `unsent`; no other turn has such a note:
/// `pushes` of the media law.
#[tactic(auto, using(crate::proofs::Pushes::pushes_law))]
pub fn unsolicited_statuses_stand_where_due()
    ensures { PushesLaw }
{}

/// In each turn of every run, whatever anybody injected, a failure of the management operation is told exactly
/// where a reply fails it, or its request finds no label to its initiator, with that cause: `failures` of the
/// cause law.
#[tactic(auto, using(crate::proofs::FailureNotes::failures_law))]
pub fn operations_fail_where_due()
    ensures { FailuresLaw }
{}

/// In each turn of every run, whatever anybody injected, a failure of the management operation has its row: its
/// request timed out, finds no label, was answered by another rcode than 0, or brought a payload of another
/// length than it asked for: `failing` of the cause law.
#[tactic(auto, using(crate::proofs::FailingRuns::failing_law))]
pub fn failures_have_rows()
    ensures { FailingLaw }
{}

/// In each turn, whatever anybody injected, `op`, `drop` and `stuck` stand exactly where the rules of an initiator say;
/// `stuck` alone not where an initiator gets conflict_error for a write of its own to MANAGEMENT_AGENT that is of no
/// operation of management, and injected packets, or others did in a run where more than few logins were given. An
/// operation ends by the status block of its management ORB, with its list where it ends lists, or with an error as its
/// write is refused or lapses; an AGENT_RESET and an `enable` by the answer to their writes. A `rom` operation ends by
/// the answer to its latest read, with the ROM that it read or with an error, or as that read lapses. A read of
/// AGENT_STATE ends with the state or with an error, and RESET drops the list that it says something of. A session
/// becomes stuck where a write of its own is refused or lapses. A reset that an initiator sees ends its operation and
/// its reads of AGENT_STATE, in the order of their lines, and drops its list.
#[tactic(auto, using(crate::proofs::OwnCases::operations_law))]
pub fn statuses_and_resets_end_operations()
    ensures { OperationsLaw }
{}

/// Behind each turn of every run, whatever anybody injected, an agent that is ACTIVE has its main request under way,
/// and an operation of the management its one request, each under the serial that the history has for it. One that
/// is SUSPENDED has none: its last ORB's status is answered, the next pointer that was got last is null, and no
/// DOORBELL came since its read was sent. It is `agents` and `management` of what the sent law asks behind each turn.
#[tactic(auto, using(crate::proofs::TargetWaits::target_waits_law))]
pub fn what_is_active_waits_for_a_request()
    ensures { TargetWaitsLaw }
{}

/// Behind each turn of every run, whatever anybody injected, a `rom` operation of an initiator has the latest of its
/// reads under way: `roms` of what the sent law asks behind each turn.
#[tactic(auto, using(crate::proofs::RomRuns::roms_wait_law))]
pub fn rom_operations_wait_for_a_read()
    ensures { RomsWaitLaw }
{}

/// Behind each turn of every run, whatever anybody injected, all stands under way that the sent law asks for there:
/// what ACTIVE agents, the management and `rom` operations wait for: `after` of the sent law.
#[tactic(auto, using(crate::proofs::RomRuns::after_law))]
pub fn what_runs_is_under_way_behind_turns()
    ensures { AfterLaw }
{}

/// In every run, whatever anybody injected, a command that runs ends by the ORB that was read: by the check that
/// holds on the plain disk or, where none does, good or by a medium call that failed: `runs_end` of the lawful runs.
#[tactic(auto, using(crate::proofs::RunEnds::runs_end_law))]
pub fn commands_end_as_read()
    ensures { RunsEndLaw }
{}

/// In each turn of every run that begins with an action of an initiator, whatever anybody injected, the action is
/// refused and nothing else, or brings its notes, and behind them what it sends. It is refused exactly where a row
/// holds, with the least number of those that hold.
#[tactic(auto, using(crate::proofs::Actions::actions_law))]
pub fn actions_are_done_or_refused()
    ensures { ActionsLaw }
{}

/// The action law holds of the journal of every run, whatever anybody injected: each line brings what the law says of it,
/// behind what stood before it, an action the refusal with the least number that holds, and nothing else, or its notes and
/// its request, a line of the bus its deliveries, its end or its refusal; and in each turn the effects stand in one order,
/// and the packets behind them.
#[tactic(auto, using(crate::proofs::ActEntries::action_run_law))]
pub fn actions_are_lawful()
    ensures { ActionRunLaw }
{}

/// In each turn of every run, whatever anybody injected, `told` stands exactly where an initiator got a packet whose row
/// says so: a write of the unsolicited status block by the target to the FIFO of its latest login, while its session is
/// not out. So it stands in no other turn, and none is missing. That this packet was sent as an unsolicited status is
/// not said here.
#[tactic(auto, using(crate::proofs::Told::told_law))]
pub fn initiators_are_told_by_the_row()
    ensures { ToldLaw }
{}

/// In each turn of every run in which an initiator gets a packet that the target sent as an unsolicited status, `told`
/// stands for this initiator, once, and for no other: where this initiator injected no packets, and no other did or few
/// logins were given; and, whatever anybody injected, where the packet is for an address of a FIFO of a login.
#[tactic(auto, using(crate::proofs::PushTold::push_told_law))]
pub fn unsolicited_statuses_are_told()
    ensures { PushToldLaw }
{}

/// In each turn of every run in which an initiator that injected no packets gets one, where no other injected any or few
/// logins were given, `told` stands exactly where the target sent this packet as an unsolicited status, once, for this
/// initiator: `told` of the media law. What agents and the management write to it besides is no unsolicited status.
#[tactic(auto, using(crate::proofs::PushSent::told_sent_law))]
pub fn what_is_told_was_sent_so()
    ensures { ToldSentLaw }
{}

/// In each turn of every run, whatever anybody injected, behind its response exactly those requests are sent that an
/// agent, the management operation, a load, an initiator's action or its read of a ROM has in it and finds a label for, in
/// this order, and no more: each with the next serial, in its sender's generation, to its node, and spelled canonically
/// under the lowest label that serves it. It is `requests` of the sent law.
#[tactic(auto, using(crate::proofs::Requests::requests_run_law))]
pub fn requests_are_sent_where_due()
    ensures { RequestsRunLaw }
{}

/// Each request that the target sends in a run, whatever anybody injected, while neither an agent nor the management
/// operation has one of its kind to send, is the write of an unsolicited status block to an initiator of which
/// `unsolicited` stands before it in its turn, the first packet there to that initiator: `asked` of the sent law.
#[tactic(auto, using(crate::proofs::Asked::asked_law))]
pub fn requests_are_asked_for()
    ensures { AskedLaw }
{}

/// Every run of up to four initiators with one to four units, whose notes are inside their types, is lawful where nobody
/// injected a packet: all laws together hold of its journal, of everybody (`whole`). And where some did while few logins
/// were given, its parts hold as they stand here: the once law and the laws of lists of those that injected none, and all
/// other laws of everybody but for three sentences, which are false of one that injects: `aborted`, `told`, and `stuck`
/// where MANAGEMENT_AGENT answers conflict_error.
#[tactic(auto, using(crate::proofs::LawfulRuns::lawful_runs_law))]
pub fn runs_are_lawful()
    ensures { LawfulRunsLaw }
{}
