ghost use Rattle.sbp_initiator.specs.Handing.{DeliveryLaw, QuadletLaw};
ghost use Rattle.sbp_initiator.specs.Histories.Judging.{JudgingLaw};
ghost use Rattle.sbp_initiator.specs.Histories.Laws.{CountLaw, SessionLaw, WireLaw};
ghost use Rattle.sbp_initiator.specs.Histories.Marks.{MarkLaw};
ghost use Rattle.sbp_initiator.specs.Histories.Numbers.{NumberLaw};
ghost use Rattle.sbp_initiator.specs.Histories.Pointers.{PointerLaw};
ghost use Rattle.sbp_initiator.specs.Histories.Pointing.{PointingLaw};
ghost use Rattle.sbp_initiator.specs.Histories.Served.{ReadsLaw};
ghost use Rattle.sbp_initiator.specs.Histories.Slots.{SlotLaw};
ghost use Rattle.sbp_initiator.specs.Histories.Tells.{TakesLaw, TellsLaw};
ghost use Rattle.sbp_initiator.specs.Refusing.{RefusalLaw};

/// The law of refusals: a refused action changes nothing, and has the number of the first row that holds,
/// by what holds of the initiator as it acts.
#[tactic(auto, using(crate::proofs::FirstRow::refusal_law))]
pub fn first_row_refuses()
    ensures { RefusalLaw }
{}

/// The law that over every list of calls the slots and the memory are what the calls of the slots make of new
/// ones that these calls, one by one, do: each ORB prepared, linked, made a dummy, pinned, each status taken, each
/// write of the target tried, each list dropped.
#[tactic(auto, using(crate::proofs::Histories::Slotted::slot_law))]
pub fn slots_take_their_calls()
    ensures { SlotLaw }
{}

/// The law that over every list of calls the transaction layer is what a list of its own calls makes of a new
/// one, and the packets that were handed out are theirs, in order.
#[tactic(auto, using(crate::proofs::Histories::Called::wire_law))]
pub fn packets_are_the_layers()
    ensures { WireLaw }
{}

/// The law that over every list of calls the session goes by the moves of the table of sessions, and that one
/// that is Stuck stays so until a generation is seen.
#[tactic(auto, using(crate::proofs::Histories::Called::session_law))]
pub fn session_goes_by_its_table()
    ensures { SessionLaw }
{}

/// The law that no call lets a count fall: that of the writes to MANAGEMENT_AGENT, that of the login numbers, and
/// the running number.
#[tactic(auto, using(crate::proofs::Histories::Called::count_law))]
pub fn no_number_comes_back()
    ensures { CountLaw }
{}

/// The law of judging: the note of a delivery is that of the first row that holds, those of the transaction
/// layer first, and for a request those on what it asks for and on what holds of the initiator. What is
/// ignored has the answer of its row and changes nothing but what is remembered of it; a block that tells of
/// a changed medium is told and answered complete.
#[tactic(auto, using(crate::proofs::Histories::Judging::judging_law))]
pub fn deliveries_are_judged()
    ensures { JudgingLaw }
{}

/// The law that over every list of calls no two writes of DOORBELL or AGENT_RESET carry the same value.
#[tactic(auto, using(crate::proofs::Histories::Over::number_law))]
pub fn values_rise()
    ensures { NumberLaw }
{}

/// The law of what calls tell, over every list of them. At most one operation is under way, and it ends with
/// one `op`, with a word of its table; a read of AGENT_STATE ends beside, with one `op` where its transaction
/// ends. A status is taken in its delivery, by one `taken`. In a delivery `drop` comes, before `op`, exactly
/// where there is a present list and its AGENT_RESET is answered complete, a status 00 ends its logout, abort
/// of all, unit reset or target reset, or a read of AGENT_STATE that counts for it gives 0. `stuck` comes,
/// behind `op`, exactly where a write request of the initiator's own fails, but for a conflict_error at
/// MANAGEMENT_AGENT, while the session is not Stuck. A later generation ends the operation and the reads
/// with `reset`, in the order of their actions, and then drops the list.
#[tactic(auto, using(crate::proofs::Histories::Over::tells_law))]
pub fn calls_tell()
    ensures { TellsLaw }
{}

/// The law that over every list of calls the ORB whose status is taken is the one that waits and that the
/// block names.
pub fn waiting_orbs_are_taken()
    ensures { TakesLaw }
{}

/// The law that over every list of calls a slot holds the ORB that was prepared last in it, with what was
/// written since, a place of management that of the latest operation that used it, and the ROM is this node's.
pub fn slots_and_rom_are_read()
    ensures { ReadsLaw }
{}

/// The law that over every list of calls a list is marked dead exactly where a status with the dead bit, or an
/// AGENT_STATE of 3 that counts for it, came since it began; and that each read of AGENT_STATE counts for the
/// list that was present, and whose ORB_POINTER had been answered, as it was asked for.
pub fn lists_are_known()
    ensures { MarkLaw }
{}

/// The law that over every list of calls an ORB_POINTER that is answered, or that times out, is that of a list that
/// was begun, and counts as written while this list is the present one.
#[tactic(auto, using(crate::proofs::Histories::Pointers::pointer_law))]
pub fn pointers_are_written()
    ensures { PointerLaw }
{}

/// The law that over every list of calls the session, unless it is Stuck, counts as pointing exactly while a write of
/// ORB_POINTER is under way; and that this write is the only one, of the present list, unanswered, and beside no
/// operation that ends lists.
#[tactic(auto, using(crate::proofs::Histories::Pointing::pointing_law))]
pub fn pointing_is_a_write_under_way()
    ensures { PointingLaw }
{}

/// The law that a delivery at an initiator hands out one response to a request, and none else, and that it sends a
/// request only for a quadlet of the target's ROM that was got, of 256 at most.
pub fn deliveries_ask_for_quadlets()
    ensures { DeliveryLaw }
{}

/// The law that a time-out and a sight of a reset hand out nothing to send, and that over every list of calls at
/// most 256 quadlets are got.
pub fn quadlets_are_few()
    ensures { QuadletLaw }
{}
