//! The terms of the agents and the target.
ghost use Rattle.sbp_world.specs.Agents.Agents.{AgentsBetweenLaw, AgentsRunLaw, SerialsBetweenLaw, SerialsLaw};
ghost use Rattle.sbp_world.specs.Agents.Alike.{AlikeLaw};
ghost use Rattle.sbp_world.specs.Agents.Asides.{AsidesLaw};
ghost use Rattle.sbp_world.specs.Agents.Asked.{AccessesLaw, CallsAskLaw, FollowLaw, LateLaw, ManagementAskLaw, RepliesLaw, RequestsAskLaw, SightsLaw, TicksAskLaw, UnderLaw};
ghost use Rattle.sbp_world.specs.Agents.AskedRuns.{AskedBetweenLaw, AskedRunLaw};
ghost use Rattle.sbp_world.specs.Agents.Calls.{AgentsLaw};
ghost use Rattle.sbp_world.specs.Agents.Demands.{DemandsLaw};
ghost use Rattle.sbp_world.specs.Agents.Enabled.{EnabledBetweenLaw, EnabledLaw, EnabledTermsBetweenLaw, EnabledTermsLaw};
ghost use Rattle.sbp_world.specs.Agents.Fresh.{LabelsBetweenLaw, LabelsLaw};
ghost use Rattle.sbp_world.specs.Agents.Hands.{HandsLaw};
ghost use Rattle.sbp_world.specs.Agents.Holders.{HoldersBetweenLaw, HoldersLaw};
ghost use Rattle.sbp_world.specs.Agents.Leaving.{LeavingBetweenLaw, LeavingLaw};
ghost use Rattle.sbp_world.specs.Agents.Notes.{NotesLaw};
ghost use Rattle.sbp_world.specs.Agents.Purposes.{BetweenLaw, PurposesLaw};
ghost use Rattle.sbp_world.specs.Agents.Serials.{HandedBetweenLaw, HandedLaw};
ghost use Rattle.sbp_world.specs.Agents.Units.{UnitsBetweenLaw, UnitsLaw};

/// Two agents that differ in nothing that their phase reads any more answer each call alike, and stay so.
#[tactic(auto, using(crate::proofs::Agents::Steps::alike_law))]
pub fn alike_agents_step_alike()
    ensures { AlikeLaw }
{}

/// Each call of a target changes its agents as its notes and packets tell: the first note of its turn,
/// then what the call tells, then its packets, one after the other; and what was asked for and did not
/// leave is lost when the turn is over. The serial of a transaction that an agent waits for is that of
/// the request that left for it, under the label that the target keeps.
pub fn calls_change_the_agents()
    ensures { AgentsLaw }
{}

/// What a note, a request of the target and the end of a turn make of the agents that the laws read off a
/// history; at the beginning they are those of a new target.
#[tactic(auto, using(crate::proofs::Agents::Notes::notes_law))]
pub fn notes_change_the_agents()
    ensures { NotesLaw }
{}

/// A request that the target got makes of the agents and of the enabled registers of the terms what the
/// target is asked for by its address.
#[tactic(auto, using(crate::proofs::Agents::Demands::demands_law))]
pub fn requests_ask_of_the_agents()
    ensures { DemandsLaw }
{}

/// What the target hands out behind the first note of a turn changes the agents of the terms as what it
/// tells and its packets do, in this order; a reply that waits takes its agent on before, with the run that
/// is told first, which has to be of the initiator of the login in that place.
#[tactic(auto, using(crate::proofs::Agents::Hands::hands_law))]
pub fn hand_outs_change_the_agents()
    ensures { HandsLaw }
{}

/// The notes of initiators and of the bus, and what other nodes send, get, see and wait for in vain leave
/// the agents of the terms alone.
#[tactic(auto, using(crate::proofs::Agents::Asides::asides_law))]
pub fn other_notes_leave_the_agents()
    ensures { AsidesLaw }
{}

/// After every line of every run of a machine with a unit, each transaction that an agent waits for has one request
/// that waits on the wire, and each request of the target that waits there is for an agent, as its main transaction or
/// its read ahead, for the management operation, as the terms have it, for an unsolicited status, or for nobody.
#[tactic(auto, using(crate::proofs::Agents::Runs::purposes_law))]
pub fn requests_have_purposes()
    ensures { PurposesLaw }
{}

/// And behind each delivery of a line that may follow, as the packets in flight are delivered one after the other.
#[tactic(auto, using(crate::proofs::Agents::Runs::between_law))]
pub fn deliveries_keep_the_purposes()
    ensures { BetweenLaw }
{}

/// After every line of every run where the agents of the terms are the target's, a response to a request that
/// waits and its time-out are handed, by the terms, to the agent or to the operation that the target has the
/// transaction under way for, or to nobody.
#[tactic(auto, using(crate::proofs::Agents::Runs::handed_law))]
pub fn serials_have_purposes()
    ensures { HandedLaw }
{}

/// And behind each delivery of a line that may follow.
#[tactic(auto, using(crate::proofs::Agents::Runs::handed_between_law))]
pub fn deliveries_keep_what_serials_are_for()
    ensures { HandedBetweenLaw }
{}

/// After every line of every run each packet that the target hands out leaves, whatever is delivered to it and
/// whatever times out: it goes to a node of the bus, and is a request where it has a label.
#[tactic(auto, using(crate::proofs::Agents::Runs::leaving_law))]
pub fn packets_of_the_target_leave()
    ensures { LeavingLaw }
{}

/// And behind each delivery of a line that may follow.
#[tactic(auto, using(crate::proofs::Agents::Runs::leaving_between_law))]
pub fn deliveries_keep_packets_leaving()
    ensures { LeavingBetweenLaw }
{}

/// After every line of every run the requests that the target hands out have labels of their own, whatever is
/// delivered to it and whatever times out: no two go to one node under one label, and none has the label of a
/// transaction that an agent waits for.
#[tactic(auto, using(crate::proofs::Agents::Runs::labels_law))]
pub fn labels_of_requests_are_new()
    ensures { LabelsLaw }
{}

/// And behind each delivery of a line that may follow.
pub fn deliveries_keep_labels_new()
    ensures { LabelsBetweenLaw }
{}

/// After every line of every run each login of the target has the place that the bus has for it, with its unit and its ID,
/// and no other place is taken. A live login is of the initiator that the bus has there and that the laws read off the
/// history: its node is that initiator's ID in the generation that the target knows, and the terms find its place by its
/// unit and that ID. The source of the management operation is an initiator's ID too, and no packet goes from the target
/// to itself.
pub fn places_have_their_initiators()
    ensures { HoldersLaw }
{}

/// And behind each delivery of a line that may follow.
pub fn deliveries_keep_who_has_places()
    ensures { HoldersBetweenLaw }
{}

/// After every line of every run a place whose register for unsolicited status is enabled has a live login.
pub fn enabled_registers_have_live_logins()
    ensures { EnabledLaw }
{}

/// And behind each delivery of a line that may follow.
pub fn deliveries_keep_enabled_registers_live()
    ensures { EnabledBetweenLaw }
{}

/// After every line of every run the terms have as many units as the target, and each is the target's with what its
/// medium holds: it is started or not, its removal is prevented or not, and the same places are to be told of a reset
/// and of a changed medium.
pub fn units_are_the_targets()
    ensures { UnitsLaw }
{}

/// And behind each delivery of a line that may follow.
pub fn deliveries_keep_the_units()
    ensures { UnitsBetweenLaw }
{}

/// After every line of every run the agents of the terms are the target's, once a turn is over: each has the machine of
/// its desk, but for what its phase reads no more, its pointer, and its transactions by the serials of the requests that
/// left for them, which the bus knows.
pub fn agents_are_the_targets()
    ensures { AgentsRunLaw }
{}

/// And behind each delivery of a line that may follow.
pub fn deliveries_keep_the_agents()
    ensures { AgentsBetweenLaw }
{}

/// After every line of every run a response to a request that waits and its time-out are handed, by the terms, to the
/// agent or to the operation that the target has the transaction under way for, or to nobody.
pub fn serials_are_for_what_is_under_way()
    ensures { SerialsLaw }
{}

/// And behind each delivery of a line that may follow.
pub fn deliveries_keep_serials_for_what_is_under_way()
    ensures { SerialsBetweenLaw }
{}

/// After every line of every run the registers for unsolicited status that the laws have enabled are those of the target's
/// desks: each is enabled by a write that the target serves, and disabled as it is used up, as its login leaves, and as the
/// target sees a later generation.
pub fn enabled_registers_are_the_targets()
    ensures { EnabledTermsLaw }
{}

/// And behind each delivery of a line that may follow.
pub fn deliveries_keep_the_enabled_registers()
    ensures { EnabledTermsBetweenLaw }
{}

/// What an agent has under way behind a step is what the step asked for: its request is the main transaction, as its phase
/// has it, or the read ahead, which later becomes the main transaction as it stands; and an answer to the one, an abort
/// and the doorbell leave the other as it was.
pub fn steps_ask_for_what_is_under_way()
    ensures { UnderLaw }
{}

/// What follows a step of an agent leaves the request that it asks for: what its desk waits for then is a packet that left, to
/// its peer and under its label, of the body that its machine has under way; a status block goes to the FIFO of its login.
pub fn desks_wait_for_what_left()
    ensures { FollowLaw }
{}

/// A time-out of a transaction of an agent, and a cut of its list, leave the desks of all places waiting for what left:
/// for packets of the bodies that their machines have under way.
pub fn time_outs_keep_what_was_asked()
    ensures { LateLaw }
{}

/// A reply to a transaction of an agent leaves the desks of all places waiting for what left, whatever a command that it
/// runs tells; unsolicited statuses that leave behind it change nothing of that.
pub fn replies_keep_what_was_asked()
    ensures { RepliesLaw }
{}

/// What is asked of the registers of an agent, its reset, a pointer, the doorbell and the rest, leaves the desks of all
/// places waiting for what left.
pub fn accesses_keep_what_was_asked()
    ensures { AccessesLaw }
{}

/// A generation that is seen, and a key that is set, leave the desks of all places waiting for what left.
pub fn sights_keep_what_was_asked()
    ensures { SightsLaw }
{}

/// Each request that the target gets, to a register of an agent, to its management agent or elsewhere, leaves the desks of
/// all places waiting for what left.
pub fn requests_keep_what_was_asked()
    ensures { RequestsAskLaw }
{}

/// A second that goes by leaves the desks of all places waiting for what left.
pub fn seconds_keep_what_was_asked()
    ensures { TicksAskLaw }
{}

/// A reply to the management operation, and its time-out, leave the desks of all places waiting for what left: a login that
/// it enters finds an agent in RESET, which waits for nothing, each other live login stays as it is, and the lists that it
/// cuts wait for nothing more.
pub fn management_keeps_what_was_asked()
    ensures { ManagementAskLaw }
{}

/// Each call of a target, a delivery, a time-out, a sight, a second or a key, leaves the desks of all places waiting for
/// what left, whatever was called before; and after every list of calls of a new target, where one outbox takes all that it
/// hands out, what they wait for is in that outbox.
pub fn calls_keep_what_was_asked()
    ensures { CallsAskLaw }
{}

/// After every line of every run what an agent of the terms waits for is what it asked for: the packet with the serial of
/// its main transaction is the target's request to the initiator that has the login, is under way, and is a read at the
/// address and of as many bytes as its phase has under way, or a write of as many, with the bytes that the agent has to
/// write where the medium told them, a status block to the FIFO of its login; and the packet of its read ahead is a read of
/// the ORB that its next pointer names. A serial that is for an agent, by the terms, is one that it waits for.
pub fn agents_wait_for_what_they_asked()
    ensures { AskedRunLaw }
{}

/// And behind each delivery of a line that may follow.
pub fn deliveries_keep_what_agents_asked()
    ensures { AskedBetweenLaw }
{}
