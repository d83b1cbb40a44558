//! The laws of the terms of a run: what they say of an initiator is what it holds.
ghost use Rattle.sbp_world.specs.Hosts.Acting.{ActionLaw};
ghost use Rattle.sbp_world.specs.Hosts.Answering.{AnsweringLaw};
ghost use Rattle.sbp_world.specs.Hosts.Answers.{TakenLaw};
ghost use Rattle.sbp_world.specs.Hosts.Bytes.{BytesLaw};
ghost use Rattle.sbp_world.specs.Hosts.Calling.{CallsLaw};
ghost use Rattle.sbp_world.specs.Hosts.Calls.{CallLaw};
ghost use Rattle.sbp_world.specs.Hosts.Carrying.{CarriesLaw};
ghost use Rattle.sbp_world.specs.Hosts.Core.{HostLaw};
ghost use Rattle.sbp_world.specs.Hosts.DataReads.{DataLaw};
ghost use Rattle.sbp_world.specs.Hosts.Deciding.{RunRefusalLaw};
ghost use Rattle.sbp_world.specs.Hosts.Deliveries.{DeliveriesLaw};
ghost use Rattle.sbp_world.specs.Hosts.Finished.{FinishedLaw};
ghost use Rattle.sbp_world.specs.Hosts.Gathered.{GatheredLaw};
ghost use Rattle.sbp_world.specs.Hosts.Handing.{HandLaw};
ghost use Rattle.sbp_world.specs.Hosts.Keeping.{KeepingLaw};
ghost use Rattle.sbp_world.specs.Hosts.Labels.{RunLabelLaw};
ghost use Rattle.sbp_world.specs.Hosts.Lasting.{LastingLaw};
ghost use Rattle.sbp_world.specs.Hosts.Lines.{LineLaw};
ghost use Rattle.sbp_world.specs.Hosts.Orbs.{OrbsLaw};
ghost use Rattle.sbp_world.specs.Hosts.PointerRuns.{PointerRunLaw};
ghost use Rattle.sbp_world.specs.Hosts.Quadlets.{QuadletLaw};
ghost use Rattle.sbp_world.specs.Hosts.Reading.{ReadLaw};
ghost use Rattle.sbp_world.specs.Hosts.Reads.{MemoryLaw};
ghost use Rattle.sbp_world.specs.Hosts.Refusing.{RunActionLaw};
ghost use Rattle.sbp_world.specs.Hosts.Remaining.{RemainingLaw};
ghost use Rattle.sbp_world.specs.Hosts.Responses.{ResponsesLaw};
ghost use Rattle.sbp_world.specs.Hosts.Runs.{RunLaw};
ghost use Rattle.sbp_world.specs.Hosts.Sources.{SourceLaw};
ghost use Rattle.sbp_world.specs.Hosts.Standing.{StandingLaw};
ghost use Rattle.sbp_world.specs.Hosts.Steps.{StepLaw};
ghost use Rattle.sbp_world.specs.Hosts.Worlds.{WorldLaw};

/// The law of the steps of an initiator's slots: with the note that tells each step, the run terms of its lists
/// are the rows of its slots, and no other note changes them.
#[tactic(auto, using(crate::proofs::Hosts::StepLaws::step_law))]
pub fn steps_keep_rows()
    ensures { StepLaw }
{}

/// The law of the calls of an initiator: behind what each of them tells, the run terms of its lists are the rows
/// of its slots.
#[tactic(auto, using(crate::proofs::Hosts::CallLaws::call_law))]
pub fn calls_keep_rows()
    ensures { CallLaw }
{}

/// The law that the run terms of an initiator's lists are read off its slots: the links of the present list, the
/// ORBs that wait, the free slots, the name of the next ORB, and the ORB that an address names.
#[tactic(auto, using(crate::proofs::Hosts::Readings::read_law))]
pub fn terms_are_read()
    ensures { ReadLaw }
{}

/// The law that over every list of calls of the slots an ORB that is not over is in its slot, with its request; its
/// next pointer is null until the ORB behind it was linked, and then that ORB's address; and that it is
/// not over before its status was taken, nor the last one of src 1 before a later one was.
#[tactic(auto, using(crate::proofs::Hosts::Chains::keeping_law))]
pub fn orbs_have_slots()
    ensures { KeepingLaw }
{}

/// The law that an action of an initiator that is done tells the notes that the run asks for, and that the rows of
/// a refusal that read its lists are those of the run.
#[tactic(auto, using(crate::proofs::Hosts::Telling::action_law))]
pub fn actions_tell_their_notes()
    ensures { ActionLaw }
{}

/// The law of what a node hands out: what the target tells, and each packet that leaves but that of an abort, leave
/// the run terms of an initiator's lists; and what an initiator tells stands in the history as it was told.
#[tactic(auto, using(crate::proofs::Hosts::Hands::hand_law))]
pub fn others_leave_rows()
    ensures { HandLaw }
{}

/// The law of the initiators of a world: as a node hands out what a call told and sent, the run terms of the lists
/// of each initiator are the rows of its slots.
#[tactic(auto, using(crate::proofs::Hosts::Hosting::world_law))]
pub fn worlds_keep_rows()
    ensures { WorldLaw }
{}

/// The law of single steps of a world: at a delivery, a time-out, a sight, a second, an action and an abort the run
/// terms of the lists of each initiator stay or become the rows of its slots.
#[tactic(auto, using(crate::proofs::Hosts::LineLaws::line_law))]
pub fn steps_of_worlds_keep_rows()
    ensures { LineLaw }
{}

/// The law of every run: after each of its lines, and behind each delivery of a line that delivers more, the run terms
/// of the lists of each initiator are the rows of its slots, and so say what its slots say.
#[tactic(auto, using(crate::proofs::Hosts::Runs::run_law))]
pub fn runs_keep_rows()
    ensures { RunLaw }
{}

/// The law that behind every line of a run the rows of a refusal that read the lists of an initiator are those of the
/// run, for each action, and that an action that is done tells the notes that the run asks for.
#[tactic(auto, using(crate::proofs::Hosts::Refusing::run_action_law))]
pub fn run_actions_tell_their_notes()
    ensures { RunActionLaw }
{}

/// The law that each initiator of every run is what a list of its own calls makes of a new one: so the laws of an
/// initiator over every list of calls hold of it.
#[tactic(auto, using(crate::proofs::Hosts::Calling::calls_law))]
pub fn runs_are_calls()
    ensures { CallsLaw }
{}

/// The law that in every run the terms of an initiator's host have its session, the operation under way, how many
/// login numbers and management writes it used, its next running number, and whether it wrote ORB_POINTER for its
/// present list; and that the rows of a refusal that read the session are its own.
#[tactic(auto, using(crate::proofs::Hosts::Hosted::host_law))]
pub fn runs_know_sessions()
    ensures { HostLaw }
{}

/// The law that an action of a run is refused with the least number whose row holds of the run terms: each step of a
/// list that sends nothing and begins no ORB; and each other action but logins, queries, rings and those that prepare
/// an ORB or end a list, where its request finds a label exactly as the run says.
#[tactic(auto, using(crate::proofs::Hosts::Deciding::run_refusal_law))]
pub fn runs_refuse_by_their_rows()
    ensures { RunRefusalLaw }
{}

/// The law that in every run a request of an initiator to its target finds the label that the run terms say, and none
/// exactly where they say so; and that a read of the ROM and a read of AGENT_STATE are refused with the least number
/// whose row holds of them.
#[tactic(auto, using(crate::proofs::Hosts::Labels::run_label_law))]
pub fn runs_find_labels()
    ensures { RunLabelLaw }
{}

/// The law that in every run the slot in which an ORB of an initiator was prepared last spells it: the command, the
/// direction, the buffer and the page table of its append, a next pointer that is null until the ORB behind it is linked
/// and then that ORB's address, and format 3 exactly where it was made a dummy; that a read of its 32 bytes that is served
/// gives them; and that an ORB that uses a slot is the one that was prepared last there.
#[tactic(auto, using(crate::proofs::Hosts::Orbs::orbs_law))]
pub fn orbs_stand_in_memory()
    ensures { OrbsLaw }
{}

/// The law that in every run an initiator's memory is what the run terms say: a slot is armed exactly where they have an
/// ORB in it or let it rest; the slot that an ORB was prepared in last has its 32 bytes, with the quadlets of its next
/// pointer that were written, the node ID of its append and its format, and its page table; the ROM is that of the node; a
/// read or a write has the rcode of the run terms; and a read that is complete gives the bytes that they say: of the ROM, of
/// an ORB, of a page table, and of a buffer.
#[tactic(auto, using(crate::proofs::Hosts::MemoryReads::memory_law))]
pub fn memory_is_read_by_the_run()
    ensures { MemoryLaw }
{}

/// The law that in every run, in a delivery at which an initiator gets a request, the first packet that is told is the
/// response of the sent law: with the rcode and the bytes that the run terms have as the request is got. Of a read that
/// is complete this is said where it is of the ROM, of an ORB, of a page table, or of a buffer.
#[tactic(auto, using(crate::proofs::Hosts::AnsweringLines::answering_law))]
pub fn requests_are_answered_by_the_run()
    ensures { AnsweringLaw }
{}

/// The law that in every run a write of ORB_POINTER that is under way in an initiator's layer is the one that the
/// run names for its present list: its label waits for the answer to that request; that unless the session is Stuck
/// it points exactly while that request is under way; and that an action that ends a list is refused by the run's rows.
#[tactic(auto, using(crate::proofs::Hosts::PointerRuns::pointer_run_law))]
pub fn runs_point_by_writes()
    ensures { PointerRunLaw }
{}

/// The law that in every run what is said of an initiator's ORBs lasts: from each moment on an ORB that was appended keeps
/// its slot, its command, what it asks for and the node ID of its append; of no list fewer ORBs are appended or linked
/// later, and none is linked that was not appended; so a next pointer that was the address of the ORB behind is so for good.
#[tactic(auto, using(crate::proofs::Hosts::Lasting::lasting_law))]
pub fn orbs_last()
    ensures { LastingLaw }
{}

/// The law that in every run, in a delivery at which an initiator gets a read of the 32 bytes of a slot's ORB that is
/// complete, the response carries that ORB: it spells the command, the direction and the buffer of its append, and its
/// next pointer and its format as they stand before the response is sent. So it does of a read of the next pointer, of the
/// page table, and of bytes of its buffer in their order, where its data go to the target: it carries these data.
#[tactic(auto, using(crate::proofs::Hosts::AnsweringLines::responses_law))]
pub fn responses_carry_their_orbs()
    ensures { ResponsesLaw }
{}

/// The law that in every run a packet that was sent keeps, by every later history, its bytes, the request that it answers,
/// and the history before it.
#[tactic(auto, using(crate::proofs::Hosts::Remaining::remaining_law))]
pub fn packets_remain()
    ensures { RemainingLaw }
{}

/// The law that in every run a response that was not injected is owed, and stands right behind the note that its request
/// was got or ignored, with nothing of the bus between them.
#[tactic(auto, using(crate::proofs::Hosts::Standing::standing_law))]
pub fn responses_stand_behind_requests()
    ensures { StandingLaw }
{}

/// The law that in every run each note that a packet was got stands at a delivery of it: the history before it is that of a
/// line that delivers packets, behind the deliveries of it so far, and the history behind that delivery is the end of
/// that of the run.
#[tactic(auto, using(crate::proofs::Hosts::Deliveries::deliveries_law))]
pub fn gets_are_deliveries()
    ensures { DeliveriesLaw }
{}

/// The law of every finished history: behind the note that an initiator got a read of a slot's ORB, of its next pointer, of
/// its page table or of its data that is complete, it goes on with the response, and that carries what was read, by the whole
/// history too; and a packet that is sent behind that note and plain effects alone has the next serial.
#[tactic(auto, using(crate::proofs::Hosts::Finished::finished_law))]
pub fn finished_responses_carry_their_orbs()
    ensures { FinishedLaw }
{}

/// The law that in every run a response that was not injected, and that tells bytes in answer to a block read of an
/// initiator, stands behind the moment at which the read was got, with the next serial; that the read was complete, and
/// the bytes are those that the memory held at that moment: the ORB that was prepared last in a slot, its next pointer, its
/// page table, which is read as the buffer laid out for its command, or the data of its append, where that buffer is
/// read; and that of an ORB that is still the one prepared last in its slot they say what is so now: its command, a next
/// pointer that is null or the address of the ORB behind, which is linked, its page table, and its data. After each
/// line, and behind some deliveries of a line that delivers packets.
#[tactic(auto, using(crate::proofs::Hosts::Carrying::carries_law))]
pub fn responses_bring_what_memory_held()
    ensures { CarriesLaw }
{}

/// The law that in every run the page tables and the buffers in an initiator's memory hold what the run says: the page table of
/// a slot that of the ORB that was prepared there last, with what stood behind its end before; each byte of a buffer the byte of
/// the data of the latest append there that has one at its address, or of a write that the initiator got since and answered
/// complete, of a block or of a quadlet; and while the data of a slot's ORB go to the target, these data stand in its segments.
#[tactic(auto, using(crate::proofs::Hosts::ByteRuns::bytes_law))]
pub fn buffers_hold_what_was_written()
    ensures { BytesLaw }
{}

/// The law that in every run a read of bytes that follow each other in the buffer of a slot's ORB, by its segments, gives the
/// bytes of its data in their order, where these go to the target; so does a read of a chunk of it.
#[tactic(auto, using(crate::proofs::Hosts::ByteReads::data_law))]
pub fn data_are_read_as_appended()
    ensures { DataLaw }
{}

/// The law that in every run the target sends no write of a quadlet, and no initiator gets one that it answers complete.
#[tactic(auto, using(crate::proofs::Hosts::Quadlets::quadlet_law))]
pub fn no_quadlets_are_written()
    ensures { QuadletLaw }
{}

/// The law that in every run each request that an initiator got, but for a read of its ROM, was sent by the target.
#[tactic(auto, using(crate::proofs::Hosts::Quadlets::source_law))]
pub fn requests_come_from_the_target()
    ensures { SourceLaw }
{}

/// The law that in every run the answer of a good status that an initiator takes is what the run says that its ORB's buffer held
/// then, in the order of its segments, where its data go to the initiator, and has no byte where they do not.
#[tactic(auto, using(crate::proofs::Hosts::AnswerRuns::taken_law))]
pub fn answers_are_what_buffers_held()
    ensures { TakenLaw }
{}

/// The law that in every run, where the writes that brought bytes of an ORB's buffer since its append are the pieces of the
/// buffer, each once and in turn, the answer of a good status that is taken is their bytes, joined; so where the target's writes to
/// these pieces since the ORB's run are those, it is the answer of the carried law.
#[tactic(auto, using(crate::proofs::Hosts::Gathered::gathered_law))]
pub fn answers_join_what_was_written()
    ensures { GatheredLaw }
{}
