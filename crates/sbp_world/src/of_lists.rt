//! The laws of the lists and the agents.
ghost use Rattle.sbp_world.specs.Completing.Labels.{FewUnderWayLaw, LabelsLeftLaw, LosslessLaw, NoneRestsLaw};
ghost use Rattle.sbp_world.specs.Completing.LabelsAsked.{AskedLaw};
ghost use Rattle.sbp_world.specs.Completing.LabelsFollowing.{ChunksLaw, DataLaw, FollowingLaw, NextLaw, ReadsLaw, ServedLaw, StatusesLaw};
ghost use Rattle.sbp_world.specs.Completing.LabelsFound.{ClosedLaw, FoundLaw};
ghost use Rattle.sbp_world.specs.Completing.Answers.{CompleteAsGotLaw, CompleteLaw, ManagedCompleteLaw, OrbWholeAsGotLaw, WholeAsGotLaw};
ghost use Rattle.sbp_world.specs.Completing.Operations.{ManagementAloneLaw, NoReadsLaw, WrittenLaw};
ghost use Rattle.sbp_world.specs.Completing.OperationsReplies.{WholeRepliesLaw};
ghost use Rattle.sbp_world.specs.Completing.Present.{FreshFewLaw, RestPointedLaw, RungWrittenLaw};
ghost use Rattle.sbp_world.specs.Completing.PresentHomes.{BasedFewLaw, HomeStillFewLaw, HomesFewLaw};
ghost use Rattle.sbp_world.specs.Completing.Deaths.{DeliveriesLive, LivesFewLaw, OthersLive, RepliesLive};
ghost use Rattle.sbp_world.specs.Completing.Done.{AllRungCompleteLaw, DeadKnownLaw, RungOrbsCompleteLaw};
ghost use Rattle.sbp_world.specs.Completing.Ends.{AllGoOnLaw, BlocksEnd, BusyRefuses, DeliveriesHandle, DeliveriesManage, NoneFailedLaw, OthersManage, RefusedLaw};
ghost use Rattle.sbp_world.specs.Completing.Writes.{AnsweredFewLaw, FifosOpenFewLaw, ReadableLaw};
ghost use Rattle.sbp_world.specs.Completing.EndsAimed.{AimedLaw};
ghost use Rattle.sbp_world.specs.Completing.EndsBecame.{BecameLaw, LeftLaw};
ghost use Rattle.sbp_world.specs.Completing.EndsJudged.{AcceptedAtRestLaw, GotNewLaw};
ghost use Rattle.sbp_world.specs.Completing.EndsLevels.{LevelLaw};
ghost use Rattle.sbp_world.specs.Completing.EndsTaken.{TakenWriteLaw};
ghost use Rattle.sbp_world.specs.Completing.ToldEnds.{ToldEndLaw};
ghost use Rattle.sbp_world.specs.Completing.EndsWell.{AllManagedWellLaw};
ghost use Rattle.sbp_world.specs.Completing.OperationsEnd.{NoneLeftLaw};
ghost use Rattle.sbp_world.specs.Completing.Rest.{RestLaw};
ghost use Rattle.sbp_world.specs.Completing.RestServed.{RestServedLaw};
ghost use Rattle.sbp_world.specs.Completing.RestStatuses.{RestStatusesLaw};
ghost use Rattle.sbp_world.specs.Completing.Managed.{FindsLaw, GivenBeforeLaw};
ghost use Rattle.sbp_world.specs.Completing.ManagedRefusals.{RefusalsLaw};
ghost use Rattle.sbp_world.specs.Completing.Nulls.{NullsLaw};
ghost use Rattle.sbp_world.specs.Completing.Bells.{BelledLaw, EndedAtRestLaw, ListsThenLaw, NullsNamedLaw, NullsThenLaw, RestsLastLaw, RungEndedWhereGotLaw, RungLinkedLaw};
ghost use Rattle.sbp_world.specs.Completing.BellsFound.{BellsAddressedLaw};
ghost use Rattle.sbp_world.specs.Completing.BellsFew.{OpeningsFewLaw, QuadletsGotFewLaw, RungEndedFewLaw};
ghost use Rattle.sbp_world.specs.Completing.BellsFree.{BellsFreeLaw};
ghost use Rattle.sbp_world.specs.Completing.BellsTaken.{RestBelledLaw};
ghost use Rattle.sbp_world.specs.Completing.Rung.{RungLaw};
ghost use Rattle.sbp_world.specs.Counting.Bounded.{CompletionLaw};
ghost use Rattle.sbp_world.specs.Completing.Shut.{GivenWholeLaw, LoginsInsideLaw, LoginsLatestLaw, ToFifosLaw};
ghost use Rattle.sbp_world.specs.Lists.AheadGots.{AheadAsGotLaw, AheadSinceLaw, WaitsAsGotLaw};
ghost use Rattle.sbp_world.specs.Lists.Along.{AlongLaw};
ghost use Rattle.sbp_world.specs.Lists.Bases.{BasesLaw};
ghost use Rattle.sbp_world.specs.Lists.Brings.{BringsLaw};
ghost use Rattle.sbp_world.specs.Lists.CarriedEnds.{WereReadLaw};
ghost use Rattle.sbp_world.specs.Lists.CarriedRuns.{RunsReadLaw};
ghost use Rattle.sbp_world.specs.Lists.CarriedWhole.{CarriedRunLaw};
ghost use Rattle.sbp_world.specs.Lists.Faults.{FaultsLaw};
ghost use Rattle.sbp_world.specs.Lists.FedRuns.{BesideLaw, RunsFedLaw, RunsSinceLaw};
ghost use Rattle.sbp_world.specs.Lists.GotOnce.{GotOnceLaw};
ghost use Rattle.sbp_world.specs.Lists.ManagedGots.{ManagedAsGotLaw};
ghost use Rattle.sbp_world.specs.Lists.OwnGots.{OwnAsGotLaw};
ghost use Rattle.sbp_world.specs.Lists.OwnReads.{OwnGotsLaw, OwnReadsLaw};
ghost use Rattle.sbp_world.specs.Lists.OwnSince.{OwnSinceLaw};
ghost use Rattle.sbp_world.specs.Lists.OwnWaits.{ReadsAsGotLaw};
ghost use Rattle.sbp_world.specs.Lists.Lists.{GrowingLaw};
ghost use Rattle.sbp_world.specs.Lists.CutLists.{CutListsLaw};
ghost use Rattle.sbp_world.specs.Lists.Closes.{ClosingLaw, OpenListsLaw};
ghost use Rattle.sbp_world.specs.Lists.EndedLists.{EndedListsLaw};
ghost use Rattle.sbp_world.specs.Lists.Opens.{OpensLaw};
ghost use Rattle.sbp_world.specs.Lists.Taken.{TakenListsLaw};
ghost use Rattle.sbp_world.specs.Lists.TakenAlive.{AliveTakesLaw};
ghost use Rattle.sbp_world.specs.Lists.Orders.{AppendsLaw, OrderRunLaw};
ghost use Rattle.sbp_world.specs.Lists.Names.{NamesLaw};
ghost use Rattle.sbp_world.specs.Lists.Running.{ListsRunLaw, RunsRunLaw, UnrunLaw};
ghost use Rattle.sbp_world.specs.Lists.Execution.{ExecutionRunLaw, LoginsRunLaw, OutcomesRunLaw};
ghost use Rattle.sbp_world.specs.Lists.Places.{ListedLaw};
ghost use Rattle.sbp_world.specs.Lists.Lasts.{LastLaw};
ghost use Rattle.sbp_world.specs.Lists.Begun.{BegunLaw};
ghost use Rattle.sbp_world.specs.Lists.SentReads.{SentReadsLaw};
ghost use Rattle.sbp_world.specs.Lists.Presents.{PresentLaw};
ghost use Rattle.sbp_world.specs.Lists.SlotsStay.{SlotsStayLaw};
ghost use Rattle.sbp_world.specs.Lists.Roms.{RomLaw};
ghost use Rattle.sbp_world.specs.Lists.Firsts.{FirstLaw};
ghost use Rattle.sbp_world.specs.Lists.Underway.{UnderwayLaw};
ghost use Rattle.sbp_world.specs.Lists.PlaceReads.{PlaceReadsLaw};
ghost use Rattle.sbp_world.specs.Lists.Contents.{ContentsLaw};
ghost use Rattle.sbp_world.specs.Lists.ReadFeeds.{ReadAndFedLaw};
ghost use Rattle.sbp_world.specs.Lists.ReadOrbs.{ReadOrbsLaw};
ghost use Rattle.sbp_world.specs.Lists.AnswerLengths.{AnswerLengthsLaw};
ghost use Rattle.sbp_world.specs.Lists.AnswersTold.{AnswersToldLaw};
ghost use Rattle.sbp_world.specs.Lists.EndReads.{EndsReadLaw};
ghost use Rattle.sbp_world.specs.Lists.EndsWell.{GoodEndsLaw};
ghost use Rattle.sbp_world.specs.Lists.DataEnds.{AnswersEndLaw};
ghost use Rattle.sbp_world.specs.Lists.AnswersCarried.{AnswersBroughtLaw};
ghost use Rattle.sbp_world.specs.Lists.AnswersHold.{AnswersHoldLaw};
ghost use Rattle.sbp_world.specs.Lists.CutOff.{CutOffLaw, MainSlotsLaw};
ghost use Rattle.sbp_world.specs.Lists.CutSlots.{CutSlotsLaw};
ghost use Rattle.sbp_world.specs.Lists.DataGots.{DataGotsLaw, ServedGotLaw};
ghost use Rattle.sbp_world.specs.Lists.DataHolds.{DataHeldLaw};
ghost use Rattle.sbp_world.specs.Lists.DataSequences.{DataSequenceLaw};
ghost use Rattle.sbp_world.specs.Lists.DataServes.{DataServedLaw};
ghost use Rattle.sbp_world.specs.Lists.DataWhole.{AnswersWholeLaw};
ghost use Rattle.sbp_world.specs.Lists.DataWrites.{DataSentLaw, DataWritesLaw};
ghost use Rattle.sbp_world.specs.Lists.DueRuns.{DueRunsLaw};
ghost use Rattle.sbp_world.specs.Lists.FewRuns.{FewLoginsLaw};
ghost use Rattle.sbp_world.specs.Lists.FifoWrites.{FifoWritesLaw};
ghost use Rattle.sbp_world.specs.Lists.Live.{LiveLaw};
ghost use Rattle.sbp_world.specs.Lists.Managing.{ManagingLaw};
ghost use Rattle.sbp_world.specs.Lists.OneUp.{OneUpLaw};
ghost use Rattle.sbp_world.specs.Lists.Opened.{LogoutsLaw};
ghost use Rattle.sbp_world.specs.Lists.LawfulLists.{ListsLaw};
ghost use Rattle.sbp_world.specs.Lists.LoginUnits.{LoginUnitsLaw, RunUnitsLaw};
ghost use Rattle.sbp_world.specs.Lists.UnitLines.{OneUnitLaw};
ghost use Rattle.sbp_world.specs.Lists.PlainStatuses.{NoneAbortedLaw, NoneDummyLaw};
ghost use Rattle.sbp_world.specs.Lists.SendsLast.{SendsLastLaw};
ghost use Rattle.sbp_world.specs.Lists.TakenTurns.{IgnoredLaw, TakenTurnsLaw};
ghost use Rattle.sbp_world.specs.Lists.LetsGo.{MainStaysLaw, NobodyWaitsLaw};
ghost use Rattle.sbp_world.specs.Lists.NobodyGots.{NobodyAsGotLaw};
ghost use Rattle.sbp_world.specs.Lists.CarriedOrbs.{CarriedOrbsLaw};
ghost use Rattle.sbp_world.specs.Completing.Latest.{EnteredLatestLaw, FifosLatestKnownLaw};

/// The lists of an initiator, as the run terms have them, are laid out as an agent asks for it: an ORB without
/// elements of a page table names the buffer of its command. From each moment of every run on a list grows:
/// more of its ORBs are linked, and those that were linked keep their addresses, their commands, their buffers
/// and their data.
#[tactic(auto, using(crate::proofs::Lists::Lists::growing_law))]
pub fn lists_grow()
    ensures { GrowingLaw }
{}

/// In every run an ORB that is appended has the next number of the latest list of its initiator, or begins the
/// next list with number 0; and it is prepared in one of the 32 slots, in which no ORB of its list waits.
#[tactic(auto, using(crate::proofs::Lists::RunLaws::appends_law))]
pub fn appends_are_numbered()
    ensures { AppendsLaw }
{}

/// In every run an ORB of an initiator's latest list of which no status was taken is the one that was prepared
/// last in its slot, one of 32; and it is the one that the bus has for its address at a place of that initiator.
#[tactic(auto, using(crate::proofs::Lists::Naming::names_law))]
pub fn orbs_stand_in_their_slots()
    ensures { NamesLaw }
{}

/// Where lists were open as they should be before in a run (`OpenBefore`, `OpenBetween`), and are so now, what an agent
/// waits for, to read in a slot of an initiator that injected no packets, was sent when the ORB that the slot has now had
/// been appended: after every line of every run, and behind each delivery of a line that may follow.
#[tactic(auto, using(crate::proofs::Lists::RunLaws::sent_reads_law))]
pub fn reads_are_sent_behind_appends()
    ensures { SentReadsLaw }
{}

/// Where lists were open as they should be before in a run (`OpenBefore`, `OpenBetween`), and are so now, what an agent
/// reads along a list of an initiator that injected no packets is what the list holds: the
/// response to its read brings the ORB behind those that have ended, or the one behind that; its page table, which is
/// read as the buffer laid out for its command; the next bytes of its data; or the next pointer of the last ORB.
/// After every line of every run, and behind each delivery of a line that may follow.
#[tactic(auto, using(crate::proofs::Lists::RunLaws::brings_law))]
pub fn agents_read_what_lists_hold()
    ensures { BringsLaw }
{}

/// Where lists were open as they should be before in a run (`OpenBefore`, `OpenBetween`), an agent that has a list open of
/// an initiator that injected no packets is along that list, behind as many of its ORBs as the history has ends of it:
/// after every line of every run, and behind each delivery of a line that may follow.
#[tactic(auto, using(crate::proofs::Lists::RunLaws::along_law))]
pub fn agents_are_along_lists()
    ensures { AlongLaw }
{}

/// Where lists were open as they should be before in a run (`OpenBefore`, `OpenBetween`), the order law holds of it: the
/// ORBs of a list run and end in their order, each behind its append, and none of a list that was cut or behind which the
/// next one began.
#[tactic(auto, using(crate::proofs::Lists::RunLaws::order_run_law))]
pub fn orbs_end_in_order()
    ensures { OrderRunLaw }
{}

/// Where lists were open as they should be before in a run (`OpenBefore`, `OpenBetween`), an ORB runs at its turn, with
/// the command of its append, and with no data or with as many of the first bytes of its data as the command asks for.
#[tactic(auto, using(crate::proofs::Lists::OnceLaws::lists_run_law))]
pub fn orbs_run_as_they_were_appended()
    ensures { ListsRunLaw }
{}

/// Where lists were open as they should be before in a run (`OpenBefore`, `OpenBetween`), an ORB that ran, of a list that was
/// not cut and of which none has ended, is at an agent that has the list open: after every line of the run, and behind each
/// delivery of a line that may follow. Of the initiators that injected no packets.
#[tactic(auto, using(crate::proofs::Lists::UnrunLaws::unrun_law))]
pub fn orbs_that_ran_are_at_agents()
    ensures { UnrunLaw }
{}

/// Where lists were open as they should be before in a run (`OpenBefore`, `OpenBetween`), an ORB runs at most once; and it
/// ends good or with a check behind its run with that outcome alone, and as dummy, aborted or illegal without one.
#[tactic(auto, using(crate::proofs::Lists::OnceLaws::runs_run_law))]
pub fn orbs_run_once()
    ensures { RunsRunLaw }
{}

/// In every run, whatever anyone injected, a command runs on the unit of a live login of the initiator that its note names:
/// after every line of every run, and behind each delivery of a line that may follow.
#[tactic(auto, using(crate::proofs::Lists::Executes::logins_run_law))]
pub fn commands_run_at_live_logins()
    ensures { LoginsRunLaw }
{}

/// Where lists were open as they should be before in a run (`OpenBefore`, `OpenBetween`), the command of an ORB of an
/// initiator that injected no packets runs as its append asks for: with its command, and with no data or, for a WRITE of one
/// block or more, with its whole data, on the disk fold as it stands, with the place of its initiator's login. Where a check
/// holds, that is the outcome; where none does, a WRITE of one block or more has its data, and the outcome is good, or the
/// check of a medium call that failed.
#[tactic(auto, using(crate::proofs::Lists::Executes::outcomes_run_law))]
pub fn commands_end_as_the_disk_allows()
    ensures { OutcomesRunLaw }
{}

/// Where lists were open as they should be before in a run (`OpenBefore`, `OpenBetween`), each ORB that runs, of an
/// initiator that injected no packets, was read: the target got a response that brought the 32 bytes of the ORB's slot, to
/// the read of it by the agent of a place. They are no dummy's, and have the command and the direction of the append, and
/// that command runs. After every line of every run, and behind each delivery of a line that may follow.
#[tactic(auto, using(crate::proofs::Lists::Executes::runs_read_law))]
pub fn orbs_that_run_were_read()
    ensures { RunsReadLaw }
{}

/// And each such ORB runs on the buffer and with the data that the main requests of the agent brought since its turn came to the ORB,
/// behind the response that brought it: the buffer by its page table, as that was read then, has the length of the append's, and
/// the bytes of the command are the payloads of the reads of the buffer's chunks, joined in order.
#[tactic(auto, using(crate::proofs::Lists::Executes::runs_fed_law))]
pub fn orbs_that_run_were_fed()
    ensures { RunsFedLaw }
{}

/// In every run in which no initiator injected packets, or few logins were given (`IsTameOrFew`), where lists were open as they should
/// be before: what an agent waits for, to read in a page table or a buffer of an initiator that injected none and has a list open, is
/// the main transaction of the agent that has this list, in the slot of the first ORB of it that has not ended.
#[tactic(auto, using(crate::proofs::Lists::Clauses::own_law))]
pub fn agents_read_for_their_own_orbs()
    ensures { OwnReadsLaw }
{}

/// In every run in which no initiator injected packets, or few logins were given (`IsTameOrFew`), where lists were open as they should
/// be before: a packet that the target gets, which answers what an agent waits for, brings of an initiator that injected none and has
/// a list open what the main transaction of the agent of this list brought, or what begins elsewhere than in page tables and buffers.
#[tactic(auto, using(crate::proofs::Lists::Clauses::gots_law))]
pub fn answers_to_agents_are_their_own()
    ensures { OwnGotsLaw }
{}

/// In every run in which no initiator injected packets, or few logins were given (`IsTameOrFew`), where lists were open as they should
/// be before: the buffer and the data of each command that runs, of an initiator that injected none, are those by all that the target
/// got of the initiator since the response that brought the ORB, as the carried law has them, where what its agent did not read begins
/// elsewhere than in the page table and the buffer of the ORB's slot.
#[tactic(auto, using(crate::proofs::Lists::Clauses::since_law))]
pub fn commands_have_what_was_read_since()
    ensures { RunsSinceLaw }
{}

/// By every history, where answers to agents are their own as they are got, of the initiators that are not among these: while the agent
/// of a place waited for an answer of such an initiator as each packet was got, and what answers no agent begins elsewhere than in a
/// slot, each packet brought of this initiator what the main transaction of that place asked for, or what begins elsewhere.
pub fn answers_since_are_own_or_elsewhere()
    ensures { OwnSinceLaw }
{}

/// In every run in which no initiator injected packets, or few logins were given (`IsTameOrFew`), as each packet is got: while the agent
/// of a place waits for an answer of an initiator that injected none, what any agent waits for, to read in a page table or a buffer of
/// this initiator, is the main transaction of that place, and stands in the slot of the first ORB of the latest list that has not ended.
#[tactic(auto, using(crate::proofs::Lists::Clauses::waits_law))]
pub fn agents_read_their_own_as_packets_are_got()
    ensures { ReadsAsGotLaw }
{}

/// In every run in which no initiator injected packets, or few logins were given (`IsTameOrFew`), as each packet is got which answers a
/// request of an agent: while the agent of a place waits for an answer of an initiator that injected none, it brings of this initiator
/// what the main transaction of that place asked for, or what begins elsewhere than in a slot.
#[tactic(auto, using(crate::proofs::Lists::Clauses::got_law))]
pub fn answers_are_their_own_as_they_are_got()
    ensures { OwnAsGotLaw }
{}

/// In every run in which no initiator injected packets, or few logins were given (`IsTameOrFew`), as each packet is got: what answers a
/// request of the target's management operation and comes of an initiator that injected none begins elsewhere than in the page table and
/// the buffer of a slot, or brings no bytes of the buffer, as the answer to a write.
#[tactic(auto, using(crate::proofs::Lists::Clauses::managed_gots))]
pub fn answers_to_the_management_begin_elsewhere()
    ensures { ManagedAsGotLaw }
{}

/// In every run in which no initiator injected packets, or few logins were given (`IsTameOrFew`), as each packet is got: while the agent of
/// a place waits for an answer of an initiator that injected none and has an ORB that it read ahead, what is got of the initiator begins
/// elsewhere than in the slot of that ORB, where what answers no agent does.
#[tactic(auto, using(crate::proofs::Lists::Clauses::ahead_gots))]
pub fn orbs_read_ahead_are_spared_as_packets_are_got()
    ensures { AheadAsGotLaw }
{}

/// In every run in which no initiator injected packets, as each packet is got: an agent that has an ORB which it read ahead waits for an
/// answer of an initiator.
#[tactic(auto, using(crate::proofs::Lists::Clauses::ahead_waits))]
pub fn agents_that_read_ahead_wait_for_an_answer()
    ensures { WaitsAsGotLaw }
{}

/// By every history, where what is got begins elsewhere than in the slots of ORBs that were read ahead: while the agent of a place waited
/// for an answer of an initiator and had an ORB read ahead as each packet was got, and what answers no agent begins elsewhere, what
/// was got of this initiator begins elsewhere than in the slot of that ORB.
#[tactic(auto, using(crate::proofs::Lists::AheadSince::ahead_since_law))]
pub fn what_is_got_since_spares_the_orb_read_ahead()
    ensures { AheadSinceLaw }
{}

/// In every run in which no initiator injected packets, or few logins were given (`IsTameOrFew`), the response that brought the ORB of
/// each run of an initiator that injected none, as the carried law has it, is the one behind which its agent turned to it, and as each
/// packet was got since then the agent waited for an answer of the initiator: the buffer and the data of the command are those by all
/// that the target got of the initiator since the response, so the carried law holds of the run.
#[tactic(auto, using(crate::proofs::Lists::Clauses::feeds_law))]
pub fn orbs_that_run_were_read_and_fed()
    ensures { ReadAndFedLaw }
{}

/// In every run in which no initiator injected packets, or few logins were given (`IsTameOrFew`), the carried law holds of the initiators
/// that injected none: of how the ORB of each run and of each end was read, of what each command runs with, of where commands run, and
/// of what each answer that is taken was written by.
#[tactic(auto, using(crate::proofs::Lists::Clauses::carried_law))]
pub fn runs_keep_the_carried_law()
    ensures { CarriedRunLaw }
{}

/// In every run, where lists were open as they should be before: a response that closed the transaction of a request that was sent,
/// where neither of its nodes is an initiator that injected packets, is not got again.
#[tactic(auto, using(crate::proofs::Lists::FedOnce::got_once_law))]
pub fn responses_are_got_once()
    ensures { GotOnceLaw }
{}

/// By every history, what the target got of an initiator since a response is what the agent of a place read since its turn came, and
/// others that begin elsewhere than in a slot: where each packet that it got since brought the one or the other, and the response did
/// not come again.
#[tactic(auto, using(crate::proofs::Lists::FedSince::beside_law))]
pub fn reads_are_own_or_elsewhere()
    ensures { BesideLaw }
{}

/// Each ORB that ends, but with the status failed, was read so too: its format is 3 exactly where its status is dummy; and where it
/// is not, it has the command and the direction of the append.
#[tactic(auto, using(crate::proofs::Lists::Executes::ends_read_law))]
pub fn orbs_that_end_were_read()
    ensures { EndsReadLaw }
{}

/// Where lists were open as they should be before in a run (`OpenBefore`, `OpenBetween`), the execution law holds of it: after
/// every line of every run, and behind each delivery of a line that may follow.
#[tactic(auto, using(crate::proofs::Lists::Executes::execution_run_law))]
pub fn orbs_execute_as_the_law_says()
    ensures { ExecutionRunLaw }
{}

/// In every run an agent is out of RESET only at the place of a live login, whose initiator is the one that the bus has there.
/// Its list, then, is that of the ORB which a write of ORB_POINTER of that initiator to that place named, as the target got it:
/// after every line of every run, and behind each delivery of a line that may follow.
#[tactic(auto, using(crate::proofs::Lists::OpenProved::opens_law))]
pub fn open_lists_were_pointed_to()
    ensures { OpensLaw }
{}

/// In every run, whoever injected packets, the list of an agent that is not in RESET, be it DEAD, is that of the ORB which
/// ORB_POINTER of its place named when it was last taken, as ORBs were named then: so the laws read it off the history.
/// After every line of every run, and behind each delivery of a line that may follow.
#[tactic(auto, using(crate::proofs::Lists::OpenProved::taken_lists_law))]
pub fn open_lists_are_those_that_were_named()
    ensures { TakenListsLaw }
{}

/// In every run a list that was cut had been open at an agent: a write of ORB_POINTER of its initiator had named an ORB of it
/// as the target got it. After every line of every run, and behind each delivery of a line that may follow.
#[tactic(auto, using(crate::proofs::Lists::OpenProved::cut_lists_law))]
pub fn cut_lists_were_open()
    ensures { CutListsLaw }
{}

/// Where what open lists stand on holds at a place of a run (`ArePlaced`), an agent that has a list open of an initiator that
/// injected no packets has the latest list of it, which was not cut, and the ORBs of it that are linked and have not ended are the
/// ones that their addresses name; no two places have a list open of one such initiator; and a pointer that an agent takes is that
/// to the first ORB of the latest list, of which none has ended, and which no other agent has open.
pub fn open_lists_are_the_latest()
    ensures { ListedLaw }
{
    crate::of_pointers::pointers_are_of_lists();
    crate::of_pointers::moments_stand_as_they_may();
    crate::of_sessions::nodes_have_caught_up_with_the_target();
    crate::of_sessions::deliveries_keep_nodes_caught_up();
}

/// In every run an initiator begins its lists in generations that the target has seen, whatever any initiator injected. So of one
/// that injected no packets a write of ORB_POINTER that was not taken as new yet, in the target's generation, is for its latest list.
pub fn lists_begin_in_seen_generations()
    ensures { BegunLaw }
{
    crate::of_pointers::pointers_are_of_lists();
    crate::of_pointers::moments_stand_as_they_may();
    crate::of_sessions::sessions_and_lists_are_of_seen_generations();
}

/// For `open_lists_are_the_latest` it is enough, while the initiator is ahead of the target, that an open list is its latest one
/// (`AreLast`). That its ORBs which have not ended stand in their slots then holds in every run; and so does that a list whose
/// write of ORB_POINTER waits in the target's generation is the latest one.
pub fn latest_lists_stand()
    ensures { LastLaw }
{
    open_lists_are_the_latest();
    crate::of_pointers::pointers_are_of_lists();
    crate::of_pointers::moments_stand_as_they_may();
    crate::of_sessions::sessions_and_lists_are_of_seen_generations();
}

/// Where lists were open as they should be before in a run (`OpenBefore`, `OpenBetween`), a list of an initiator that
/// injected no packets, of which an ORB has ended, had been open at an agent: a write of ORB_POINTER of its initiator had
/// named an ORB of it as the target got it. After every line of every run, and behind each delivery of a line that may
/// follow.
#[tactic(auto, using(crate::proofs::Lists::EndedLists::ended_lists_law))]
pub fn ended_lists_were_open()
    ensures { EndedListsLaw }
{}

/// Where no initiator injected packets, or few logins were given (`IsTameOrFew`): if at each place of a run, before which lists were open as they should be,
/// what this place needs holds (`PlacesLaw`), they are so in every run (`OpenListsLaw`): that each write of ORB_POINTER that
/// the target got was named for a list whose slot held its first ORB then, and that a list whose write waits has no end, is
/// shown. And where they are so in every run, they were so before each place of it, as the laws of lists ask.
pub fn lists_stay_open_from_place_to_place()
    ensures { ClosingLaw }
{
    latest_lists_stand();
    crate::of_pointers::pointers_are_of_lists();
    lists_begin_in_seen_generations();
}

/// In every run the present list of an initiator is the latest one, and an ORB of it whose status was not taken is the one that
/// was prepared last in its slot: after every line, and behind each delivery of a line that delivers one packet after the other.
pub fn present_lists_are_the_latest()
    ensures { PresentLaw }
{
    crate::of_pointers::moments_stand_as_they_may();
}

/// By every history, and so in every run, a slot of an initiator has its ORB from the append on, used or at rest,
/// until this ORB is over or the initiator sees another generation: until then no other ORB is prepared there.
#[tactic(auto, using(crate::proofs::Lists::SlotsHeld::slots_stay_law))]
pub fn slots_stay()
    ensures { SlotsStayLaw }
{}

/// In every run, whatever anyone injected, an initiator that knows where MANAGEMENT_AGENT stands knows it at the one address that
/// the target has it at, and each packet of an action with a management ORB goes there: in the target's ROM the key of
/// MANAGEMENT_AGENT stands once, so no quadlet that the target ever gives names another address. After every line, and behind
/// each delivery of a line that delivers one packet after the other.
#[tactic(auto, using(crate::proofs::Lists::RomHeld::rom_law))]
pub fn initiators_find_the_management_agent()
    ensures { RomLaw }
{}

/// In every run each packet of an initiator that injected none by which an agent is pointed to an ORB is the write of ORB_POINTER
/// for a list of that initiator, with the address of the first ORB of it: after every line, and behind each delivery of a line
/// that delivers one packet after the other.
#[tactic(auto, using(crate::proofs::Lists::Firsts::first_law))]
pub fn pointers_name_first_orbs()
    ensures { FirstLaw }
{}

/// In every run an initiator writes and reads at the registers of the agent of its host's login: ORB_POINTER for its present list, and a read of
/// AGENT_STATE that tells of that list, where no logout of it was refused; and AGENT_RESET while that is under way. A read tells of a list only
/// behind the answer to the ORB_POINTER write of it.
pub fn registers_are_of_the_login()
    ensures { BasesLaw }
{
    crate::of_pointers::registers_are_of_the_session();
    crate::of_sessions::hosts_hold_the_login_of_their_session();
}

/// In every run the operation that an initiator has under way began with a request that was sent in the line of its action; its
/// management ORB, as it was made then, stands in its place of the initiator's memory as long as it is under way, and the login of the
/// initiator's host is that of then. One that is under way later, and had begun by an earlier moment, was under way at that moment.
#[tactic(auto, using(crate::proofs::Lists::UnderwayRuns::underway_law))]
pub fn operations_keep_their_orbs()
    ensures { UnderwayLaw }
{}

/// In every run a response of an initiator that was not injected, and that tells bytes in answer to a block read of the 32 bytes of a
/// place of management, brings the ORB that stood in that place as the initiator got the read, which had been sent before.
#[tactic(auto, using(crate::proofs::Lists::PlaceBrings::place_reads_law))]
pub fn places_are_read_as_they_stood()
    ensures { PlaceReadsLaw }
{}

/// In every run a packet that the target sent as its management asked for it is what the operation asked for: at the operation's start
/// a read of the 32 bytes of its ORB, where it stands; at its end a write of the status block that names the ORB.
#[tactic(auto, using(crate::proofs::Lists::ContentAsked::contents_law))]
pub fn operations_ask_for_their_orbs()
    ensures { ContentsLaw }
{}

/// In every run the target has an operation whose ORB it reads, in the place of an operation that an initiator has under way, and the
/// read was sent behind the first request of that. A response to it that was not injected brings the ORB that stands in that place.
#[tactic(auto, using(crate::proofs::Lists::OrbsRead::read_orbs_law))]
pub fn the_orb_in_its_place_is_read()
    ensures { ReadOrbsLaw }
{}

/// In each history the management ORB that the target read last is that of its operation from then on: while the EUI-64 of the source is
/// read, and behind the decision, which is on this ORB.
#[tactic(auto, using(crate::proofs::Lists::OrbsCarried::carried_orbs_law))]
pub fn the_orb_that_was_read_is_decided()
    ensures { CarriedOrbsLaw }
{}

/// Where lists were open as they should be before in a run (`OpenBefore`, `OpenBetween`), a status block that names a management
/// ORB of an initiator that injected no packets is written to a FIFO of it for the operation of the target alone whose ORB that
/// is, at its end.
#[tactic(auto, using(crate::proofs::Lists::FifoProved::fifo_writes_law))]
pub fn places_hear_of_their_operations()
    ensures { FifoWritesLaw }
{}

/// Where lists were open as they should be before in a run (`OpenBefore`, `OpenBetween`), one management operation of an initiator
/// that injected no packets is in hand at a time, at both ends: the write of the operation that it has under way alone may wait;
/// as that is judged the target handles the ORB in its place alone, or refuses; and the one status block that then waits is of
/// that place.
#[tactic(auto, using(crate::proofs::Lists::ManageProved::one_managed_law))]
pub fn one_operation_is_in_hand()
    ensures { ManagingLaw }
{}

/// In every run in which no initiator injected packets, or few logins were given (`IsTameOrFew`), where lists were open as they
/// should be before: while an initiator that injected none is in the target's generation its node has one live login at most, and
/// none but that of its session; a live session has its login, and one that is out or held has none. Of a session that is stuck with no operation under way this is not said.
#[tactic(auto, using(crate::proofs::Lists::Clauses::sessions_law))]
pub fn sessions_have_their_logins()
    ensures { LiveLaw }
{}

/// In every run in which no initiator injected packets, or few logins were given (`IsTameOrFew`), where lists were open as they
/// should be before, no logout of an initiator that injected none is refused.
#[tactic(auto, using(crate::proofs::Lists::Clauses::logouts_law))]
pub fn logouts_are_not_refused()
    ensures { LogoutsLaw }
{}

/// In every run in which no initiator injected packets, or few logins were given (`IsTameOrFew`), lists are open as they should
/// be: after every line, and behind each delivery of a line that delivers one packet after the other. So what is said where they were so before holds of these runs.
#[tactic(auto, using(crate::proofs::Lists::Clauses::open_lists_law))]
pub fn lists_are_open_as_they_should_be()
    ensures { OpenListsLaw }
{}

/// In every run in which no initiator injected packets, or few logins were given (`FewLogins`), fewer than there are login IDs, so that
/// none was given twice, the order law, the execution law and the status law hold, of the initiators that injected none, after its lines.
#[tactic(auto, using(crate::proofs::Lists::Clauses::lists_law))]
pub fn lists_are_lawful()
    ensures { ListsLaw }
{}

/// In every run of a script's length, whatever anyone injected, few logins are given, so that no ID of a login is given twice. For the
/// target has eight places, and each decision on a management ORB takes a write of MANAGEMENT_AGENT, which an initiator sends in a line
/// of its own; so there are nine lines for each eight logins, but for the first few.
#[tactic(auto, using(crate::proofs::Lists::GrantRuns::few_logins_law))]
pub fn few_logins_are_given()
    ensures { FewLoginsLaw }
{}

/// In every run in which no initiator injected packets, or few logins were given, a good status that is taken of an initiator that
/// injected none is of an ORB that ran, and its answer has as many bytes as the answer to its command, on the medium as that was before
/// the run. Where the data of the command do not go to its initiator it has none, and is the answer that the medium tells. So of the
/// answer law what is left are the bytes of the others.
#[tactic(auto, using(crate::proofs::Lists::Clauses::lengths_law))]
pub fn answers_have_their_length()
    ensures { AnswerLengthsLaw }
{}

/// Where lists were open as they should be before in a run (`OpenBefore`, `OpenBetween`), and are so now, an agent that writes an
/// answer, of an initiator that injected no packets, waits for a write of the next chunk of its present ORB's buffer, behind the
/// bytes that were written, in the slot that the ORB has.
#[tactic(auto, using(crate::proofs::Lists::DataRuns::data_writes_law))]
pub fn agents_write_the_next_chunk()
    ensures { DataWritesLaw }
{}

/// In every run in which no initiator injected packets, or few logins were given, where lists were open as they should be before,
/// each write of the target into a data buffer of an initiator that injected none was of the next chunk of the answer of an ORB as
/// it was sent: as the turn began, that ORB was the first one of its list that had not ended, its slot had it, and the write has
/// the bytes of its agent's answer behind those that were written; it ran, and has not ended in this turn but as failed; and no
/// write of data was sent before it in the turn. These writes come in turn: the first one in the turn in which the command runs,
/// and each later one as the target gets the answer, with rcode 0, to the write of the chunk before it, where that ended.
#[tactic(auto, using(crate::proofs::Lists::Clauses::data_law))]
pub fn answers_are_sent_in_chunks()
    ensures { DataSentLaw }
{}

/// In every run, whatever anyone injected, a command runs exactly where it is due: in the delivery after which the agent of a place
/// has all that it needs. Its note names the initiator and the unit of the login in that place, and the agent's present ORB, and has
/// the command and the data that the agent has read. No other turn tells a run.
#[tactic(auto, using(crate::proofs::Lists::Executes::due_runs_law))]
pub fn commands_run_where_they_are_due()
    ensures { DueRunsLaw }
{}

/// In every run where lists were open as they should be before, each ORB of an initiator that injected no packets which ends, but
/// as failed, had not run before the turn in which it ends; or in this turn the target gets the answer, with rcode 0, to the write
/// of the last chunk of its answer.
#[tactic(auto, using(crate::proofs::Lists::DataLaws::answers_end_law))]
pub fn answers_are_written_before_the_end()
    ensures { AnswersEndLaw }
{}

/// In every run in which no initiator injected packets, or few logins were given, the ORB of each run, and of each end but with the
/// status failed, of an initiator that injected none, was read as the carried law says: the target got a response of 32 bytes, which
/// answers its read of the ORB's slot in this initiator, sent behind the ORB's append and while its list was open. What runs is no
/// dummy, an ORB has format 3 exactly where it ends so, and else the command and the direction of its append. So of ends it is all of
/// the carried law. After every line, and behind each delivery of a line that delivers one packet after the other.
#[tactic(auto, using(crate::proofs::Lists::Clauses::reads_law))]
pub fn orbs_were_read_while_their_lists_were_open()
    ensures { WereReadLaw }
{}

/// In every run in which no initiator injected packets no two agents of the target are out of RESET of one initiator, be they DEAD:
/// after every line, and behind each delivery of a line that delivers one packet after the other.
#[tactic(auto, using(crate::proofs::Lists::Clauses::one_up))]
pub fn initiators_have_one_agent_up()
    ensures { OneUpLaw }
{}

/// In every run in which no initiator injected packets, or few logins were given, no ORB of a list of an initiator that injected none
/// ends behind one that ended as failed or illegal: so an ORB that ended so is the last one of its list that ended. After every line,
/// and behind each delivery of a line that delivers one packet after the other.
#[tactic(auto, using(crate::proofs::Lists::Clauses::faults))]
pub fn no_orb_ends_behind_a_failed_one()
    ensures { FaultsLaw }
{}

/// In every run in which no initiator injected packets, or few logins were given, an initiator that injected none, and that takes
/// the statuses of a list in the order of its ORBs, without a gap, takes no status of a list behind one that is failed or illegal:
/// after the lines of the run.
#[tactic(auto, using(crate::proofs::Lists::Clauses::takes_alive))]
pub fn no_status_is_taken_behind_a_failed_one()
    ensures { AliveTakesLaw }
{}

/// In every run in which no initiator injected packets, or few logins were given, an initiator that injected none takes the statuses of
/// each list in the order of its ORBs, without a gap: the number of each is how many it took of this list before. After every line, and
/// behind each delivery of a line that delivers one packet after the other.
#[tactic(auto, using(crate::proofs::Lists::TakenInOrder::taken_turns))]
pub fn statuses_are_taken_in_order()
    ensures { TakenTurnsLaw }
{}

/// In every run in which no initiator injected packets, or few logins were given, where lists were open as they should be before,
/// each write of the target into a data buffer of an initiator that injected none is of a generation that the initiator has seen;
/// and in the present one it is of an ORB that ran, which its slot has until the status of the ORB is taken.
#[tactic(auto, using(crate::proofs::Lists::Clauses::held_law))]
pub fn slots_are_held_for_data()
    ensures { DataHeldLaw }
{}

/// In every run in which no initiator injected packets, or few logins were given, where lists were open as they should be before,
/// each write of the data of an ORB of an initiator that injected none, but the latest one, was closed with rcode 0 and served
/// once; behind an end of the ORB, but as failed, the latest one was, too; and until a write is judged its slot has the ORB. So it
/// is of the writes in the generation that the initiator is in.
#[tactic(auto, using(crate::proofs::Lists::Clauses::served_law))]
pub fn data_are_served_in_turn()
    ensures { DataServedLaw }
{}

/// In every run in which no initiator injected packets, or few logins were given, where lists were open as they should be before,
/// the data of an answer to an initiator that injected none are written in sequence: the first write of an ORB's data begins with
/// the first byte of the answer, and each later one behind the bytes of the one before it, which was served, and wrote a whole
/// chunk of the buffer. Behind an end, but as failed, the last one ended with the buffer. So it is of the writes in the generation
/// that the initiator is in.
#[tactic(auto, using(crate::proofs::Lists::Clauses::sequence_law))]
pub fn data_are_written_in_sequence()
    ensures { DataSequenceLaw }
{}

/// In every run in which no initiator injected packets, or few logins were given, where lists were open as they should be before, a
/// write into the data buffer of a slot that an initiator gets which injected none is of the data of the ORB that the slot has, in
/// its sequence; it is the latest write of these data, and each one before it was served.
#[tactic(auto, using(crate::proofs::Lists::Clauses::data_gots))]
pub fn initiators_get_data_in_sequence()
    ensures { DataGotsLaw }
{}

/// In every run in which no initiator injected packets, or few logins were given, where lists were open as they should be before, a
/// write of the target into a data buffer of an initiator that injected none, which was served, was got: what an initiator ignores
/// for its slot is written to a FIFO.
#[tactic(auto, using(crate::proofs::Lists::Clauses::served_got))]
pub fn data_that_were_served_were_got()
    ensures { ServedGotLaw }
{}

/// In every run in which no initiator injected packets, or few logins were given, where lists were open as they should be before,
/// the answer of each good status that is taken by one that injected none is, as the carried law says, the payloads, joined, of the
/// writes to the chunks of its ORB's buffer that the initiator got since the run. Where the data of the ORB go to it, these are
/// what brought bytes of the buffer since the append, and are its chunks, each once and in order; where they do not, it got none.
#[tactic(auto, using(crate::proofs::Lists::Clauses::answers_brought))]
pub fn answers_are_what_data_writes_brought()
    ensures { AnswersBroughtLaw }
{}

/// In every run in which no initiator injected packets, or few logins were given (`IsTameOrFew`), where lists were open as they should be
/// before, of each initiator that injected none: the slot of an ORB whose list was cut before the ORB had ended has no ORB of a list
/// that is open, while the target is in no later generation than the initiator was in as the list was cut.
#[tactic(auto, using(crate::proofs::Lists::Clauses::cut_slots))]
pub fn slots_of_cut_lists_are_apart()
    ensures { CutSlotsLaw }
{}

/// In every run in which no initiator injected packets, or few logins were given, each answer of a good status that is taken by one
/// that injected none is what the target's writes brought to the chunks of its ORB's buffer since the run, and it is the answer of
/// the plain disk as that was before the ORB ran: its length always, and its bytes where the medium tells them.
#[tactic(auto, using(crate::proofs::Lists::Clauses::answers_hold))]
pub fn answers_are_those_of_the_plain_disk()
    ensures { AnswersHoldLaw }
{}

/// In every run where lists were open as they should be before, an ORB of an initiator that injected no packets whose data go to
/// its initiator, in a buffer with bytes, ends good in the turn in which the target gets the answer, with rcode 0, to the write of
/// the last chunk of its answer; one whose data do not, in the turn in which it runs.
#[tactic(auto, using(crate::proofs::Lists::DataLaws::good_law))]
pub fn good_ends_come_behind_the_last_chunk()
    ensures { GoodEndsLaw }
{}

/// In every run where lists were open as they should be before, the answer that an agent of an initiator writes which injected no
/// packets has as many bytes as the buffer of the ORB, and not all of them were written.
#[tactic(auto, using(crate::proofs::Lists::DataWhole::whole_law))]
pub fn answers_fill_their_buffers()
    ensures { AnswersWholeLaw }
{}

/// In every run in which no initiator injected packets, where lists were open as they should be before, the answer that an agent writes
/// is the one that the plain disk had for the command of its present ORB as this ran, where the medium told its bytes.
#[tactic(auto, using(crate::proofs::Lists::AnswersTold::told_law))]
pub fn answers_are_as_the_disk_told()
    ensures { AnswersToldLaw }
{}

/// In each turn of every run, whatever anyone injected, the effects stand before the packets that are sent in it, as the action law
/// has it: after every line, and behind each delivery of a line that delivers one packet after the other.
#[tactic(auto, using(crate::proofs::Lists::TurnOrders::sends_last_law))]
pub fn packets_are_sent_behind_effects()
    ensures { SendsLastLaw }
{}

/// In every history what was the main transaction of the agent of a place is that still, or the agent let it go at one moment since: a
/// reply to it took the agent on, or the agent was put into RESET.
#[tactic(auto, using(crate::proofs::Lists::MainLater::main_stays_law))]
pub fn main_transactions_stay()
    ensures { MainStaysLaw }
{}

/// In every history where a request that was the main transaction of an agent is nobody's as a turn ends, and under way still, its agent
/// was put into RESET since.
#[tactic(auto, using(crate::proofs::Lists::NobodyWaits::nobody_waits_law))]
pub fn nobodys_requests_were_of_agents_reset()
    ensures { NobodyWaitsLaw }
{}

/// In every run in which no initiator injected packets, or few logins were given, before which lists were open as they should be: what
/// is under way as the main transaction of an agent, for the page table or the buffer of a slot of an initiator that injected none, is
/// for the first ORB of the agent's list that has not ended, which has the slot. A write into a buffer is left out.
#[tactic(auto, using(crate::proofs::Lists::Clauses::main_slots))]
pub fn requests_are_for_the_orb_of_their_slot()
    ensures { MainSlotsLaw }
{}

/// In every such run a request of the target that is under way, for the page table or the buffer of a slot of such an initiator, but for
/// a write into the buffer, is the main transaction of an agent; or the slot had an ORB that has not ended and whose list is cut, and the
/// target is in no later generation than the initiator was in then.
#[tactic(auto, using(crate::proofs::Lists::Clauses::cut_offs))]
pub fn requests_of_nobody_were_cut_off()
    ensures { CutOffLaw }
{}

/// As each packet is got in every run in which no initiator injected packets, or few logins were given: what answers a request of nobody,
/// of no agent and not of the management operation, begins elsewhere than in the page table of a slot that has an ORB of a list which is
/// open, of an initiator that injected none; and where it begins in the buffer, it has no bytes.
#[tactic(auto, using(crate::proofs::Lists::Clauses::nobody_as_got))]
pub fn answers_to_nobody_begin_elsewhere()
    ensures { NobodyAsGotLaw }
{}

/// In every run in which no initiator injected packets each login of the target is on a unit that a `login` line of some initiator asked
/// for, or on unit 0, where the initiators begin logged in. Where few logins were given, each live login of an initiator that injected
/// none is on a unit that this one asked for. After every line, and behind each delivery of a line that delivers one packet after the
/// other.
#[tactic(auto, using(crate::proofs::Lists::UnitLaws::login_units_law))]
pub fn logins_are_on_their_units()
    ensures { LoginUnitsLaw }
{}

/// In every run in which no initiator injected packets, or few logins were given, each command ran on such a unit: one that some
/// initiator asked for, or, of an initiator that injected none where few logins were given, one that this one asked for.
#[tactic(auto, using(crate::proofs::Lists::UnitRan::run_units_law))]
pub fn commands_run_on_their_units()
    ensures { RunUnitsLaw }
{}

/// By every history, where each `login` line asks for one unit, and that is unit 0 where the initiators begin logged in, no other unit was
/// asked for.
#[tactic(auto, using(crate::proofs::Lists::UnitLines::one_unit_law))]
pub fn lines_ask_for_one_unit()
    ensures { OneUnitLaw }
{}

/// In every run in which no initiator injected packets, and no line aborts an ORB, no ORB ends as aborted: no agent has its ORB marked,
/// since each management ORB that the target decides on was made in a line of an action.
#[tactic(auto, using(crate::proofs::Lists::AbortedEnds::none_aborted_law))]
pub fn no_orb_ends_as_aborted()
    ensures { NoneAbortedLaw }
{}

/// In every run in which no initiator injected packets, or few logins were given, no ORB of an initiator that injected none ends as
/// dummy, where this initiator made none a dummy: what the target read of an ORB is what the initiator's memory held.
#[tactic(auto, using(crate::proofs::Lists::DummyEnds::none_dummy_law))]
pub fn no_orb_ends_as_dummy()
    ensures { NoneDummyLaw }
{}

/// In every run, whatever anyone injected, a status block that an initiator ignored for its slot names a slot whose ORB, the one that was
/// prepared last there, does not wait for a status. After every line, and behind each delivery of a line that delivers one packet after
/// the other.
#[tactic(auto, using(crate::proofs::Lists::IgnoredSlots::ignored_law))]
pub fn ignored_statuses_name_no_waiting_orb()
    ensures { IgnoredLaw }
{}

/// In every run in which no initiator injected packets, of one initiator at least, deliveries are bounded:
/// from a line on before which the run is lossless, over lines that deliver alone, in any order, the
/// deliveries, with the packets that are in flight still, are no more than the budget before that line. So a
/// `settle` there ends with nothing in flight, unless its budget is more than 10,000,000.
pub fn deliveries_are_bounded()
    ensures { CompletionLaw }
{}

/// In every run, after every line, and behind each delivery of a line that delivers one packet after the other: where the run is lossless,
/// nothing was lost since the latest reset, and the target has seen that reset.
#[tactic(auto, using(crate::proofs::Completing::LabelsResting::lossless_law))]
pub fn lossless_runs_lose_nothing()
    ensures { LosslessLaw }
{}

/// In every run, where nothing was lost since the latest reset, which the target has seen, none of its labels to any node rests.
#[tactic(auto, using(crate::proofs::Completing::LabelsResting::none_rests_law))]
pub fn no_label_of_the_target_rests()
    ensures { NoneRestsLaw }
{}

/// In every run in which no initiator injected packets, of the target's 64 labels to an initiator at most four more are under way than those
/// of requests that were sent for lists which have been cut: one for the main transaction of an agent, one for its read ahead, one for the
/// management operation, and one for an unsolicited status.
#[tactic(auto, using(crate::proofs::Completing::LabelsRuns::few_under_way_law))]
pub fn few_labels_of_the_target_are_under_way()
    ensures { FewUnderWayLaw }
{}

/// In every run in which no initiator injected packets, where nothing was lost and at most 40 requests of the target to an initiator are
/// under way that were sent for lists which have been cut, 20 of its labels to that one are neither under way nor at rest.
#[tactic(auto, using(crate::proofs::Completing::LabelsRuns::labels_left_law))]
pub fn labels_of_the_target_are_left()
    ensures { LabelsLeftLaw }
{}

/// So each request that the target makes in a call there finds a label: a read behind fewer than 20 requests to the initiator, a read ahead,
/// which needs 16 free labels, behind four, and a write where the last request under a free label is another.
#[tactic(auto, using(crate::proofs::Completing::LabelsFound::found_law))]
pub fn requests_of_the_target_find_labels()
    ensures { FoundLaw }
{}

/// In every run the label of the target that a response closes is free then, and the last request under it is the one that was answered.
#[tactic(auto, using(crate::proofs::Completing::LabelsClosed::closed_law))]
pub fn closed_labels_have_the_answered_request()
    ensures { ClosedLaw }
{}

/// Where requests of the target find labels so, no transaction is lost for want of one: what follows a step of an agent, which does not make it
/// dead, is that its main request leaves, and then its read ahead; and what the management operation asks for leaves.
#[tactic(auto, using(crate::proofs::Completing::LabelsAsked::asked_law))]
pub fn no_transaction_is_lost_for_want_of_a_label()
    ensures { AskedLaw }
{}

/// In every run in which no initiator injected packets, or few logins were given, and before which lists were open as they should be: a request
/// that an agent waits for, of an initiator that injected none and is in the target's generation, is answered complete (rcode 0) if it is got
/// now, and a read with as many bytes as it asks for. It may be a read of an ORB or of its next pointer, of a page table or of data, a write
/// of data, or a write of a status block. After every line, and behind each delivery of a line that delivers one packet after the other.
#[tactic(auto, using(crate::proofs::Completing::AnswersRuns::complete_law))]
pub fn agents_wait_for_complete_answers()
    ensures { CompleteLaw }
{}

/// So it is as each packet is got, in every run in which no initiator injected packets, or few logins were given: where it is a request that an
/// agent waits for, it is answered complete.
#[tactic(auto, using(crate::proofs::Completing::AnswersRuns::complete_as_got_law))]
pub fn requests_of_agents_are_answered_complete()
    ensures { CompleteAsGotLaw }
{}

/// In every run, whatever anyone injected, where every node has seen the latest reset, nothing was lost
/// since, no transaction timed out, nothing was injected, and nothing is in flight, the run is at rest: no
/// request is under way, of any node. So each agent is in RESET, SUSPENDED or DEAD and has no transaction,
/// the target has no management operation, and no initiator waits for a response, to a write or a read.
/// So it is in the nodes, and by the terms of the history. After every line, and behind each delivery of a
/// line that delivers one packet after the other.
pub fn runs_come_to_rest()
    ensures { RestLaw }
{}

/// In every run, at such a place, each write of the latest generation that was not injected, between two
/// nodes that injected no packets, was taken as new by its receiver exactly once.
pub fn writes_are_taken_at_rest()
    ensures { RestServedLaw }
{}

/// In every run in which no initiator injected packets, or few logins were given, at such a place, of each
/// list that is the present one of an initiator that injected none, and was not cut, the status of each ORB
/// that ended was taken, but for that of the last one, where an agent of the initiator is DEAD.
pub fn statuses_are_taken_at_rest()
    ensures { RestStatusesLaw }
{}

/// In every run, behind a response to a request of the target, each write to that node finds a label which is not the request that was
/// answered: that of this request.
#[tactic(auto, using(crate::proofs::Completing::LabelsFollowing::served_law))]
pub fn writes_find_the_label_of_the_answered_request()
    ensures { ServedLaw }
{}

/// In every run a write that an agent asks for behind a reply to its main transaction finds a label to the node of its login, unless that
/// transaction was the same write: the label of that request.
#[tactic(auto, using(crate::proofs::Completing::LabelsFollowing::following_law))]
pub fn writes_of_agents_find_the_label_of_the_answered_request()
    ensures { FollowingLaw }
{}

/// In every run in which no initiator injected packets, what an agent asks to write behind a reply to the write of a chunk of its answer is
/// another write: the next chunk begins elsewhere, and a status block goes to a FIFO, which is in no buffer.
#[tactic(auto, using(crate::proofs::Completing::LabelsChunks::chunks_law))]
pub fn writes_behind_a_chunk_are_others()
    ensures { ChunksLaw }
{}

/// In every run in which no initiator injected packets, or few logins were given, as the target gets a response to a read that an agent waits
/// for, of an initiator that injected none: it brings as many bytes as the read asked for. So no agent finds such a read refused or cut short.
#[tactic(auto, using(crate::proofs::Completing::AnswersRuns::whole_as_got_law))]
pub fn reads_of_agents_bring_what_they_ask_for()
    ensures { WholeAsGotLaw }
{}

/// In every run in which no initiator injected packets, or few logins were given, as each packet is got: a read that the management operation
/// waits for, of its ORB or of a half of the EUI-64 of the node that sent it, of an initiator that injected none, is answered complete if it is
/// got now, with as many bytes as it asks for.
#[tactic(auto, using(crate::proofs::Completing::AnswersRuns::managed_complete_law))]
pub fn reads_of_the_operation_are_answered_complete()
    ensures { ManagedCompleteLaw }
{}

/// In every run, whatever anyone injected, at such a place no initiator has a read of AGENT_STATE under way.
#[tactic(auto, using(crate::proofs::Completing::OperationsRuns::no_reads_law))]
pub fn no_state_is_read_at_rest()
    ensures { NoReadsLaw }
{}

/// In every run in which no initiator injected packets, or few logins were given, an agent whose DOORBELL the
/// target got is not SUSPENDED later, at the node and by the terms of the history, unless since then the target
/// got a response that brought the agent a null pointer, in an ORB, in a next pointer or in an ORB that it reads
/// ahead, to a read that was sent since. After every line, and behind each delivery of a line that delivers one
/// packet after the other.
pub fn rung_agents_go_on()
    ensures { RungLaw }
{}

/// In every run in which no initiator injected packets, or few logins were given, an agent whose DOORBELL the
/// target got, or that was in RESET as the target got a packet, is SUSPENDED later, by the terms of the history,
/// only where its last ORB is one of which, since then, the target got a response that brought a null next
/// pointer to a read that was sent since. After every line, and behind each delivery of a line that delivers one
/// packet after the other.
pub fn agents_rest_at_last_orbs()
    ensures { RestsLastLaw }
{}

/// In every run in which no initiator injected packets, or few logins were given, and before which lists were
/// open as they should be: where an answer may bring an agent a null next pointer, to a read that it waits for
/// of an initiator that injected none, the read is of an ORB of the list that the agent has, which stands in its
/// slot. At each place of such a run.
#[tactic(auto, using(crate::proofs::Completing::BellsNamedRuns::nulls_named_law))]
pub fn null_pointers_are_of_the_agents_lists()
    ensures { NullsNamedLaw }
{}

/// In every such run, of each agent that is out of RESET, be it DEAD: the ORB_POINTER that it took last was for the
/// list of its place, and what it waits for goes to the initiator that has the place. At each place of such a run.
#[tactic(auto, using(crate::proofs::Completing::BellsNamedRuns::lists_then_law))]
pub fn agents_have_the_lists_of_their_places()
    ensures { ListsThenLaw }
{}

/// In every such run, where the target got a null pointer from an initiator that injected none, the ORB that was
/// prepared last in the slot was the last one of its list that was linked, as the read was got; and the read had
/// been sent then.
pub fn null_pointers_are_of_last_orbs_then()
    ensures { NullsThenLaw }
{}

/// In every run in which no initiator injected packets, or few logins were given, and before which lists were
/// open as they should be: an agent whose DOORBELL was got, or that was in RESET as a packet was got, and that is
/// SUSPENDED with the list that it has had since, the latest one of its initiator, which injected none, has ended
/// each ORB of the list that was linked at that moment. At each place of such a run.
#[tactic(auto, using(crate::proofs::Completing::BellsRuns::ended_at_rest_law))]
pub fn linked_orbs_have_ended_at_rest()
    ensures { EndedAtRestLaw }
{}

/// In every such run: where what each ring wrote for the latest list of an initiator was got by the agent that has
/// the list, a DOORBELL or the ORB_POINTER of the list, and this agent is SUSPENDED, each rung ORB of the list has
/// ended. At each place of such a run.
#[tactic(auto, using(crate::proofs::Completing::BellsRuns::rung_ended_law))]
pub fn rung_orbs_end_where_their_writes_are_got()
    ensures { RungEndedWhereGotLaw }
{}

/// In every run, at each place: no login bars a write at the `DOORBELL` of an agent that is out of RESET, be it DEAD, by
/// the node of the initiator that has the place.
#[tactic(auto, using(crate::proofs::Completing::BellsFreeRuns::bells_free_law))]
pub fn no_login_bars_bells_of_open_agents()
    ensures { BellsFreeLaw }
{}

/// In every run in which no initiator injected packets: each quadlet that a ring wrote once the `ORB_POINTER` of its
/// list was got is for the `DOORBELL` of the agent that has the list.
#[tactic(auto, using(crate::proofs::Completing::BellsAddressRuns::bells_addressed_law))]
pub fn quadlets_of_rings_are_for_their_doorbells()
    ensures { BellsAddressedLaw }
{}

/// In every run in which few logins were given: a list that was not cut, and for which the write of `ORB_POINTER` was
/// taken, is at an agent that was in RESET as that was got, and that has had the list as each packet was got since.
#[tactic(auto, using(crate::proofs::Completing::BellsFewOpened::openings_few_law))]
pub fn few_agents_have_had_their_lists()
    ensures { OpeningsFewLaw }
{}

/// In every run in which no initiator injected packets and few logins were given, at rest: each quadlet that a ring
/// wrote once the `ORB_POINTER` of its list was got, is got, of each list that its initiator began since it first saw
/// the latest reset.
#[tactic(auto, using(crate::proofs::Completing::BellsFewRuns::quadlets_got_few_law))]
pub fn quadlets_of_rings_are_got()
    ensures { QuadletsGotFewLaw }
{}

/// In every run in which no initiator injected packets and few logins were given: at rest each rung ORB has ended of a
/// list that is present, which its initiator began since it first saw the latest reset.
#[tactic(auto, using(crate::proofs::Completing::BellsFewRuns::rung_ended_few_law))]
pub fn rung_orbs_have_ended()
    ensures { RungEndedFewLaw }
{}

/// In every run, where every node has seen the latest reset, nothing was lost since, and nothing is in flight: what
/// each ring wrote, `ORB_POINTER` or `DOORBELL`, for a list that was not cut, and that its initiator, which injected
/// no packets, began since it first saw that reset, was taken as new exactly once.
#[tactic(auto, using(crate::proofs::Completing::BellsTakenRuns::rest_belled_law))]
pub fn ring_writes_are_taken_at_rest()
    ensures { RestBelledLaw }
{}

/// In every run, whatever anyone injected, no ORB is rung that is not linked, at each moment of the history.
/// After every line, and behind each delivery of a line that delivers one packet after the other.
pub fn rung_orbs_are_linked()
    ensures { RungLinkedLaw }
{}

/// In every run, whatever anyone injected, of each rung ORB a ring of its initiator sent a write behind the
/// moment at which the ORB was rung, while its list was the present one. After every line, and behind each
/// delivery of a line that delivers one packet after the other.
pub fn rung_orbs_have_their_write()
    ensures { BelledLaw }
{}

/// In every run in which no initiator injected packets, or few logins were given, where the target got a null
/// pointer from an initiator that injected none, in answer to its read of the ORB of a slot or of the next
/// pointer there: as the read was got, the ORB that was prepared last in this slot was the last one of its list
/// that was linked. That was behind each moment before which the read was not sent, so the ORB is no earlier
/// one of its list than the last one that was linked at that moment. After every line, and behind each delivery
/// of a line that delivers one packet after the other.
pub fn null_pointers_are_of_last_orbs()
    ensures { NullsLaw }
{}

/// In every such run, as the target gets a response to the read of its ORB that the management operation waits for, of an initiator that injected
/// none: it brings as many bytes as the read asked for.
#[tactic(auto, using(crate::proofs::Completing::AnswersRuns::orb_whole_law))]
pub fn reads_of_management_orbs_bring_what_they_ask_for()
    ensures { OrbWholeAsGotLaw }
{}

/// At such a place an operation that an initiator has under way is one of the management agent: no read of the ROM is under way, nor a
/// write of AGENT_RESET or UNSOLICITED_STATUS_ENABLE, each of which ends with its own request.
#[tactic(auto, using(crate::proofs::Completing::OperationsRuns::management_alone_law))]
pub fn operations_at_rest_are_of_the_management()
    ensures { ManagementAloneLaw }
{}

/// In every such run in which no initiator injected packets, or few logins were given, the write of MANAGEMENT_AGENT of an operation that an
/// initiator which injected none has under way at such a place was answered complete, and the target had taken it as new: each other end
/// of it ends the operation.
#[tactic(auto, using(crate::proofs::Completing::OperationsRuns::written_law))]
pub fn writes_of_operations_at_rest_were_completed()
    ensures { WrittenLaw }
{}

/// A whole reply to what an operation of the management agent asked for takes it on: a read that brings as many bytes as its phase waits
/// for, or a write that is answered complete. Nothing fails; and the operation goes on, of the same node and with the same management
/// ORB, or it is over where its status block was written.
#[tactic(auto, using(crate::proofs::Completing::OperationsReplies::whole_replies_law))]
pub fn whole_replies_take_operations_on()
    ensures { WholeRepliesLaw }
{}

/// In every run, whatever anyone injected, ORB_POINTER was written for each list with a rung ORB: a ring
/// writes it, where it was not written for the present list, and nothing else that an initiator does rings an
/// ORB. After every line, and behind each delivery of a line that delivers one packet after the other.
pub fn rung_lists_have_their_pointer()
    ensures { RungWrittenLaw }
{}

/// In every run, at such a place, where the run is lossless and nothing is in flight: of each list with a rung
/// ORB that an initiator which injected no packets began since it first saw the latest reset, and that was not
/// cut, the write of ORB_POINTER was sent in the generation that the initiator is in, and was taken as new.
pub fn pointers_of_rung_lists_are_taken_at_rest()
    ensures { RestPointedLaw }
{}

/// In every run with few logins, before which lists were open as they should be: where a session of an initiator
/// that injected no packets carries a response, and the target has a live login of its node with that ID, in the
/// generation of both, the response names the agent of the place of this login.
#[tactic(auto, using(crate::proofs::Completing::PresentBased::based_few_law))]
pub fn responses_name_the_agents_of_their_logins()
    ensures { BasedFewLaw }
{}

/// In every run in which no initiator injected packets and few logins were given: where every node has seen the
/// latest reset, nothing was lost since, and nothing is in flight, a list with a rung ORB that its initiator began
/// since it first saw that reset, and that was not cut, is the present one, and a SUSPENDED agent has it, unless an
/// agent of the initiator is DEAD.
#[tactic(auto, using(crate::proofs::Completing::PresentLaws::fresh_few_law))]
pub fn fresh_lists_are_present_at_rest()
    ensures { FreshFewLaw }
{}

/// While a write of `ORB_POINTER` waits to be judged, in the generation of both ends, the target has the login of its
/// initiator in the place to whose agent it is written, where few logins were given.
#[tactic(auto, using(crate::proofs::Completing::PresentLaws::homes_few_law))]
pub fn pointers_that_wait_find_their_logins()
    ensures { HomesFewLaw }
{}

/// In every run in which no initiator injected packets, what an agent asks to write behind a reply to the write of a status block is another
/// write, unless it is a status block too: a buffer stands below each FIFO.
#[tactic(auto, using(crate::proofs::Completing::LabelsData::data_law))]
pub fn writes_of_data_behind_a_status_are_others()
    ensures { DataLaw }
{}

/// In every run, behind the response to a read of the target each write to that node finds a label: that of the read.
#[tactic(auto, using(crate::proofs::Completing::LabelsFollowing::reads_law))]
pub fn writes_behind_a_read_find_its_label()
    ensures { ReadsLaw }
{}

/// In every run in which no initiator injected packets, what an agent asks to write behind a reply to the write of a status block is another
/// write, whatever that is: a status block names the next ORB of the list, which stands in another slot.
#[tactic(auto, using(crate::proofs::Completing::LabelsData::statuses_law))]
pub fn writes_behind_a_status_are_others()
    ensures { StatusesLaw }
{}

/// So in every run in which no initiator injected packets, each write that an agent asks for behind a reply to its main transaction finds a
/// label to the node of its login.
#[tactic(auto, using(crate::proofs::Completing::LabelsAgents::next_law))]
pub fn writes_of_agents_find_labels()
    ensures { NextLaw }
{}

/// An agent that is along a list of commands which a script can state (a max_payload of 9 at most, and no empty segment) does not die at a
/// reply to its main transaction that is complete and brings what the list holds: its ORB, its page table, its data, its next pointer, or the
/// answer to a write. It dies at no reply to its read ahead.
#[tactic(auto, using(crate::proofs::Completing::DeathsReplies::replies_live))]
pub fn agents_live_on_complete_replies()
    ensures { RepliesLive }
{}

/// No agent of the target dies in the delivery of a packet to it at which the step of an agent does not make that one dead, and what it asks
/// for finds a label: the step at the response to its transaction, the read of an ORB at ORB_POINTER, and that of a next pointer at DOORBELL.
#[tactic(auto, using(crate::proofs::Completing::DeathsTold::deliveries_live))]
pub fn no_agent_dies_in_a_delivery_that_goes_on()
    ensures { DeliveriesLive }
{}

/// No agent of the target dies where the target sees a generation, or a second goes by.
#[tactic(auto, using(crate::proofs::Completing::DeathsTold::others_live))]
pub fn no_agent_dies_at_a_sight_or_a_tick()
    ensures { OthersLive }
{}

/// In every run in which nobody injected packets, at a place where the target has seen the latest reset: where no agent died since it first
/// saw that reset, none is DEAD. A sight of a reset puts each agent into RESET, and a step by which one dies tells so.
#[tactic(auto, using(crate::proofs::Completing::DeadKnownRuns::dead_known_law))]
pub fn agents_that_are_dead_died()
    ensures { DeadKnownLaw }
{}

/// In every run in which nobody injected packets, few logins were given, and the commands of the lines are those that a script can state:
/// where the run is lossless and nothing is in flight, and at each moment since the target first saw the latest reset 40 requests at most to
/// each initiator are under way that were sent for lists which have been cut, each ORB of a list that an initiator began since it first saw
/// that reset, and did not cut, has its status, up to the one that was rung last; no operation and no read of AGENT_STATE is under way; and
/// since the target first saw the reset no agent died, and no operation of the management failed.
#[tactic(auto, using(crate::proofs::Completing::Done::rung_orbs_complete_law))]
pub fn rung_orbs_complete()
    ensures { RungOrbsCompleteLaw }
{}

/// So it is behind each line of such a run, by its journal.
#[tactic(auto, using(crate::proofs::Completing::DoneFronts::all_rung_complete_law))]
pub fn rung_orbs_complete_behind_each_line()
    ensures { AllRungCompleteLaw }
{}

/// The management operation of the target does not fail in the delivery of a packet to it at which a step of the operation does not fail, and
/// what it asks for finds a label: the step at the response to its transaction, and the read of a management ORB at a write of
/// MANAGEMENT_AGENT. Nothing else that a delivery brings tells of such a failure.
#[tactic(auto, using(crate::proofs::Completing::EndsTold::deliveries_manage))]
pub fn no_operation_fails_in_a_delivery_that_goes_on()
    ensures { DeliveriesManage }
{}

/// Such a delivery takes the operation on by the reply; or it starts one by a write of MANAGEMENT_AGENT, exactly where none is under way; or it
/// leaves the operation as it is.
#[tactic(auto, using(crate::proofs::Completing::EndsHandled::deliveries_handle))]
pub fn deliveries_take_the_operation_on()
    ensures { DeliveriesHandle }
{}

/// Nor does it where the target sees a generation, or a second goes by.
#[tactic(auto, using(crate::proofs::Completing::EndsTold::others_manage))]
pub fn no_operation_fails_at_a_sight_or_a_tick()
    ensures { OthersManage }
{}

/// In every run in which no initiator injected packets, or few logins were given: a write of an initiator that injected none, which the target
/// got and answered with conflict_error, is not answered complete. While it is the present request of its transaction, each response to it
/// has that rcode.
#[tactic(auto, using(crate::proofs::Completing::EndsRefused::refused_law))]
pub fn refused_writes_are_not_completed()
    ensures { RefusedLaw }
{}

/// While an operation is under way, a write of MANAGEMENT_AGENT that the target gets leaves it as it is, and is answered with conflict_error:
/// the target hands out that response alone.
#[tactic(auto, using(crate::proofs::Completing::EndsBusy::busy_refuses))]
pub fn a_busy_management_agent_refuses()
    ensures { BusyRefuses }
{}

/// A status block of the target that an initiator hears at an open FIFO, which names the management ORB of the operation under way, is got, and
/// ends that operation.
#[tactic(auto, using(crate::proofs::Completing::EndsHeard::blocks_end))]
pub fn status_blocks_end_operations()
    ensures { BlocksEnd }
{}

/// In every run in which no initiator injected packets, or few logins were given: the write by which an operation of management began that an
/// initiator has under way, which injected none, brings the address of the management ORB in the place of the operation to MANAGEMENT_AGENT.
#[tactic(auto, using(crate::proofs::Completing::EndsAimed::aimed_law))]
pub fn operations_write_the_management_agent()
    ensures { AimedLaw }
{}

/// In every run: behind a packet of the latest generation that was taken as new no reset began, and its receiver was in that generation, for what
/// is taken is of a generation that its receiver had seen. So it was at each moment behind which it was taken.
#[tactic(auto, using(crate::proofs::Completing::EndsLevels::level_law))]
pub fn what_was_taken_was_of_a_generation_seen()
    ensures { LevelLaw }
{}

/// In every run in which no initiator injected packets, at each place where nothing was lost since the latest reset: the write of an operation of
/// management that an initiator has under way in the latest generation became, once it was taken, an operation that the target handles; or it
/// was refused or ignored; or the status block of its ORB was taken. So it is if, while the target was in that generation, no operation of it
/// failed, and what its operations waited for was answered whole.
#[tactic(auto, using(crate::proofs::Completing::EndsBecame::became_law))]
pub fn operations_become_what_their_writes_become()
    ensures { BecameLaw }
{}

/// In every run in which no initiator injected packets, at each place where the run is without loss and nothing is in flight: an operation that an
/// initiator has under way is one of management, whose write of MANAGEMENT_AGENT found another operation under way at the target, or was ignored;
/// or its status block was taken. So it is if, while the target was in the latest generation, no operation of it failed, and what its operations
/// waited for was answered whole.
#[tactic(auto, using(crate::proofs::Completing::EndsLeft::left_law))]
pub fn operations_left_at_rest_were_refused_or_ended()
    ensures { LeftLaw }
{}

/// In every run in which no initiator injected packets no operation of an initiator is left at rest whose status block was taken: the response
/// to the block was complete, so the block was got at an open FIFO while that operation was under way, and ended it.
#[tactic(auto, using(crate::proofs::Completing::ToldEnds::told_end_law))]
pub fn taken_status_blocks_end_their_operations()
    ensures { ToldEndLaw }
{}

/// In every run in which no initiator injected packets: a write of MANAGEMENT_AGENT that was not injected, and that the target took as new, was
/// got then, for no login is asked for there. No operation was under way as it was got; or the target answered it with conflict_error.
#[tactic(auto, using(crate::proofs::Completing::EndsJudged::got_new_law))]
pub fn new_writes_of_the_management_agent_are_got()
    ensures { GotNewLaw }
{}

/// In every run in which no initiator injected packets, at each place where the run is without loss and nothing is in flight: the write of an
/// operation that an initiator has under way found no other operation under way at the target, and was not ignored as new.
#[tactic(auto, using(crate::proofs::Completing::EndsAccepted::accepted_law))]
pub fn operations_left_at_rest_were_accepted()
    ensures { AcceptedAtRestLaw }
{}

/// In every run in which no initiator injected packets, where nothing was lost since the latest reset, and few requests are under way that were
/// sent for lists which have been cut: while the target is in the latest generation no operation of it fails, and what its operations wait for
/// is whole; a response to a status block answers one that was taken as new.
#[tactic(auto, using(crate::proofs::Completing::EndsEverywhere::all_managed_well_law))]
pub fn the_management_goes_well_in_the_latest_generation()
    ensures { AllManagedWellLaw }
{}

/// So no operation of the management is under way at rest.
#[tactic(auto, using(crate::proofs::Completing::EndsEverywhere::none_left_law))]
pub fn no_operation_is_left_at_rest()
    ensures { NoneLeftLaw }
{}

/// In every run in which no initiator injected packets: no operation of the management failed since the target first saw the latest reset,
/// where nothing was lost since that reset, and at each moment since that sight at most 40 requests of the target to an initiator are under way
/// that were sent for lists which have been cut.
#[tactic(auto, using(crate::proofs::Completing::EndsEverywhere::none_failed_law))]
pub fn no_operation_fails()
    ensures { NoneFailedLaw }
{}

/// In every run in which no initiator injected packets, at each place where nothing was lost since the latest reset, the target has seen that
/// reset, and at most 40 requests of it to an initiator are under way that were sent for lists which have been cut: in each delivery to the
/// target an operation under way goes on, of the same node and with the same ORB, or is over as the write of its status block was answered.
#[tactic(auto, using(crate::proofs::Completing::EndsEverywhere::all_go_on_law))]
pub fn operations_go_on()
    ensures { AllGoOnLaw }
{}

/// In every history: a write of MANAGEMENT_AGENT that the target took as new started an operation, which the target handles, unless one was
/// under way, or the write was ignored; or the status block of its ORB was sent behind it, taken as new and answered complete. So it is while
/// nothing times out, no operation fails, the target sees no other generation, and what the operation waits for is answered whole.
#[tactic(auto, using(crate::proofs::Completing::EndsTaken::taken_write_law))]
pub fn writes_that_are_taken_are_handled()
    ensures { TakenWriteLaw }
{}

/// In every run in which nobody injected packets: the response to the request that the target's management operation waits for, as it is in flight
/// to the target, is whole for the operation's phase, but for the response to its status block. The read of its ORB brings 32 bytes, that of a half
/// of the EUI-64 brings 4, and the write of a login response or a query response is answered complete, whether the request was repeated or not.
/// After every line, and behind each delivery of a line that delivers one packet after the other.
#[tactic(auto, using(crate::proofs::Completing::ManagedRuns::given_before_law))]
pub fn the_operation_is_answered_whole_before_its_status()
    ensures { GivenBeforeLaw }
{}

/// In every run in which nobody injected packets: what the target's management operation asks for behind the response to its request finds a label, by
/// the one that the response closed, where few labels are taken. A read does; a write behind a read does; and the status block behind the response
/// that was written does, since it goes to a FIFO, and the response to a buffer. So it is also where the lists that the operation ends gave their
/// transactions up before.
#[tactic(auto, using(crate::proofs::Completing::ManagedFinding::managed_finds_law))]
pub fn the_operation_finds_labels()
    ensures { FindsLaw }
{}

/// In every run in which nobody injected packets, what an agent writes as a status can be read as a status block, which names a command ORB.
#[tactic(auto, using(crate::proofs::Completing::FifosReadable::readable_law))]
pub fn agents_write_status_blocks()
    ensures { ReadableLaw }
{}

/// In every run in which nobody injected packets and few logins were given, the FIFO of a login whose agent writes a status is open while target and
/// initiator are in one generation: it is that of the login which the initiator asked for last, whose session is not out.
#[tactic(auto, using(crate::proofs::Completing::WritesLives::fifos_open_few))]
pub fn fifos_of_statuses_are_open()
    ensures { FifosOpenFewLaw }
{}

/// In every run in which nobody injected packets, few logins were given and the commands are legal, while nothing is lost and few requests of lists that
/// were cut are under way: the response to the main transaction of an agent answers complete what the agent asked for, a read with as many bytes as it
/// asked for, and a write with rcode 0, also where it answers a write that came again.
#[tactic(auto, using(crate::proofs::Completing::WritesLives::answered_few_law))]
pub fn main_transactions_are_answered_complete()
    ensures { AnsweredFewLaw }
{}

/// In every run an initiator answers a request of the target with an error, where its payload is read as a status block, only if it writes to a FIFO that is
/// closed then: that of a login number which is not the initiator's latest one, or whose session is out. So none to a FIFO of management is refused.
#[tactic(auto, using(crate::proofs::Completing::ManagedRefusals::refusals_law))]
pub fn status_blocks_to_open_fifos_are_taken()
    ensures { RefusalsLaw }
{}

/// In every run in which nobody injected packets the status block of the target's management operation goes to the FIFO that its management ORB names, which
/// is the one that the target read last: the FIFO of a login number, or that of a place of management.
#[tactic(auto, using(crate::proofs::Completing::ShutRuns::to_fifos_law))]
pub fn status_blocks_go_to_the_fifos_of_their_orbs()
    ensures { ToFifosLaw }
{}

/// In every run in which nobody injected packets the session of an initiator that has a login under way is not out: it is entering, or stuck.
#[tactic(auto, using(crate::proofs::Completing::ShutSessions::logins_inside_law))]
pub fn sessions_with_a_login_under_way_are_not_out()
    ensures { LoginsInsideLaw }
{}

/// In every run in which nobody injected packets the FIFO of a login number to which the status block of the target's operation of management goes is that
/// of the login which its initiator asked for last, and the session is not out, whenever the initiator ignores the block for a cause that is answered with
/// an error: no place of an ORB that the target has in hand gets another one meanwhile.
#[tactic(auto, using(crate::proofs::Completing::LoginsLatest::logins_latest_law))]
pub fn statuses_of_logins_go_to_the_latest_fifo()
    ensures { LoginsLatestLaw }
{}

/// So in every such run the response to each request that the target's operation of management waits for is whole, as it is in flight: a read brings as many
/// bytes as its phase waits for, and a write is answered complete.
#[tactic(auto, using(crate::proofs::Completing::LoginsGiven::given_whole_law))]
pub fn the_operation_is_answered_whole()
    ensures { GivenWholeLaw }
{}

/// While a write of ORB_POINTER waits to be judged, in the generation of both ends, the target has the login of its initiator, also where this
/// has given up meanwhile, where few logins were given: the session was live as the write was sent, with no logout under way, and none began
/// since.
#[tactic(auto, using(crate::proofs::Completing::HomeLaws::home_still_law))]
pub fn logins_stay_while_a_pointer_waits()
    ensures { HomeStillFewLaw }
{}

/// In every run in which no initiator injected packets: while a login of an initiator is under way, each live login that
/// the target has of its node has the FIFO of this login, in the generation of both.
#[tactic(auto, using(crate::proofs::Completing::LatestRuns::entered_latest_law))]
pub fn logins_under_way_have_their_fifo()
    ensures { EnteredLatestLaw }
{}

/// In every run in which no initiator injected packets and few logins were given: each status that an agent writes goes
/// to the FIFO of the login that its initiator asked for last, in the generation of both.
#[tactic(auto, using(crate::proofs::Completing::LatestLaws::latest_fifos_law))]
pub fn statuses_of_commands_go_to_the_latest_fifo()
    ensures { FifosLatestKnownLaw }
{}

/// In every run in which no initiator injected packets, few logins were given and each command is one that a script can
/// state: no agent died since the target first saw the latest reset, where nothing was lost since, and few requests that
/// were sent for lists which have been cut are under way at each moment since.
#[tactic(auto, using(crate::proofs::Completing::WritesLives::lives_few_law))]
pub fn no_agent_dies_where_few_logins_were_given()
    ensures { LivesFewLaw }
{}
