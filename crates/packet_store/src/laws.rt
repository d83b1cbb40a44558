ghost use Rattle.packet_store.specs.Laws.{SerialLaw, RisingLaw, WholeLaw, KeepsLaw, GoneLaw, ClosedLaw};
ghost use Rattle.packet_store.specs.Weights.{WeightLaw};

/// The law that the serials count from 1 without a gap, over every list of calls.
pub fn serials_in_turn()
    ensures { SerialLaw }
{}

/// The law that the serials of the kept packets rise strictly, over every list of calls: no packet is
/// kept twice.
pub fn kept_in_turn()
    ensures { RisingLaw }
{}

/// The law that what is kept under a serial is what `get` and `is_in_flight` tell of it, over every
/// list of calls.
pub fn kept_whole()
    ensures { WholeLaw }
{}

/// The law that a store keeps exactly the packets in flight and the delivered ones among the last
/// 1,024 serials, over every list of calls; the state of a packet is that of the bus rule.
pub fn keeps_flights()
    ensures { KeepsLaw }
{}

/// The law that a packet which is in flight no more never is again, over every list of calls; a
/// withdrawn packet is such a one.
pub fn never_again()
    ensures { GoneLaw }
{}

/// The law that a request under a label ends the transaction before it: of that one no packet is in
/// flight or kept from then on, over every list of calls.
pub fn closed_by_request()
    ensures { ClosedLaw }
{}

/// The law of the weight of the packets in flight, for any weight of a packet and any state of a store: a packet
/// that is sent adds its own weight at most, one that is delivered or lost takes its weight away at least, and
/// no delivery and no loss adds any.
#[tactic(auto, using(crate::proofs::Weights::weight_law))]
pub fn flights_weigh()
    ensures { WeightLaw }
{}
