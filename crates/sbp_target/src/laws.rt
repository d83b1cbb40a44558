ghost use Rattle.sbp_target.specs.Histories.Answers.{AnswerLaw};
ghost use Rattle.sbp_target.specs.Histories.Labels.{LabelLaw};
ghost use Rattle.sbp_target.specs.Histories.Judgements.{RowLaw};
ghost use Rattle.sbp_target.specs.Histories.Layers.{LayerLaw};
ghost use Rattle.sbp_target.specs.Histories.Sides.{SideLaw};
ghost use Rattle.sbp_target.specs.Histories.Transactions.{UnderWayLaw};
ghost use Rattle.sbp_target.specs.Requests.{FollowsAreCounted};
ghost use Rattle.sbp_target.specs.RequestsLeft.{DeliveriesAreCounted};
ghost use Rattle.sbp_target.specs.SoundAgents.{CallsKeepSound};

/// Each call of a target changes its transaction layer by a list of the layer's own steps: one judging,
/// expiry or sight of a generation first, then at most one answer, then requests; and the packets that it
/// hands out are theirs, in order. So over every list of calls the layer is one of which the layer's own
/// laws speak.
#[tactic(auto, using(crate::proofs::Histories::Made::layer_law))]
pub fn calls_are_steps_of_the_layer()
    ensures { LayerLaw }
{}

/// A request that is got has exactly one response, the first packet of its delivery, to its source and
/// under its label. An ignored packet has the answer of its cause alone, tells nothing and changes nothing
/// but the last requests. No other call gives a response.
#[tactic(auto, using(crate::proofs::Histories::Answered::answer_law))]
pub fn requests_are_answered_first()
    ensures { AnswerLaw }
{}

/// Over every list of calls of a target, by what it was handed and what it gave: a label to a peer is under
/// way from the request that was given with it until a response of that peer with that label is got, rests
/// from its time-out until a later generation is seen, and is else free. Each request has the lowest label
/// that is free and, for a write, whose last request in this generation differs from it; one that was not
/// given found no such label, or five other peers have the tables.
#[tactic(auto, using(crate::proofs::Histories::Coursed::label_law))]
pub fn labels_are_the_lowest()
    ensures { LabelLaw }
{}

/// Cuts, holds, expiries, logins that come back or leave, cleared units, opened lists and unsolicited
/// statuses are told where the rules have them and nowhere else, by rising place, by what the target was
/// before the call. A sight of a later generation tells one cut for each agent that is not in RESET, and
/// then one hold for each live login; a second tells the logins whose last it was. An AGENT_RESET that is
/// got tells one cut where the agent is not in RESET; an ORB_POINTER that is taken, in RESET or SUSPENDED
/// and not null, that a list was opened. A decision tells its effects first: cuts, and then `left`, `back`
/// or `cleared`. In the delivery in which a disc came into a tray each other live login of the unit whose
/// register is enabled has one note, behind all else that is told: it is sent an unsolicited status behind
/// the delivery's other packets, or none, where an earlier one to its node is under way, its label rests,
/// or the write finds no label.
#[tactic(auto, using(crate::proofs::Histories::Told::side_law))]
pub fn changes_are_told_in_order()
    ensures { SideLaw }
{}

/// After every list of calls of a target an agent that is ACTIVE has one main transaction under way, to its
/// login's node, and one read ahead at most; an agent in another state has none, but for the status write of
/// the ORB that made it dead; a management operation has one; and each label under way is for one of these,
/// an unsolicited status, or nobody.
#[tactic(auto, using(crate::proofs::Histories::Under::under_way_law))]
pub fn transactions_are_waited_for()
    ensures { UnderWayLaw }
{}

/// What a target serves has the rcode of the first row that holds of the table that nodes and laws share,
/// and it ignores a request exactly by the first row of the table of judging: where an agent register
/// stands at its address, of no live login of its source, and it is no lock. The rcode of a register, and
/// of MANAGEMENT_AGENT, is what the state there gives: conflict_error or data_error to a pointer,
/// conflict_error while a management operation is under way, else complete. A read is given the ROM's
/// bytes, the number of the agent's state, or its last pointer.
#[tactic(auto, using(crate::proofs::Histories::Rowing::row_law))]
pub fn first_row_has_its_rcode()
    ensures { RowLaw }
{}

/// What follows a step of an agent sends no more requests than the step asks for, those yet to be made
/// for the agent and its doorbell mark counted: a main request that finds no label makes way for the write
/// of the status block, and a read ahead that does not leave for the mark that it cleared.
#[tactic(auto, using(crate::proofs::Requests::Follows::follows_are_counted))]
pub fn steps_ask_for_what_follows()
    ensures { FollowsAreCounted }
{}

/// In each delivery the number of requests that a target is yet to send falls by those that it sends. A
/// write of a register raises it by what it brings, and the turn of an ORB by its share. A place that has
/// an ORB to work works it until it ends or is cut.
pub fn deliveries_ask_for_what_is_left()
    ensures { DeliveriesAreCounted }
{}

/// What always holds of an agent, by its phase, holds of the agents of a new target, and behind each of
/// its calls: of a delivery, where a run told what a run of its command may tell.
pub fn calls_keep_agents_sound()
    ensures { CallsKeepSound }
{}
