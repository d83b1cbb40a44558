ghost use Rattle.sbp_bus.specs.Weights.{LeavingLaw};

/// The law that, for any weight of a packet, what is in flight rises by the weight of the packets that a node hands
/// out, at most, as these leave.
pub fn leaving_packets_weigh()
    ensures { LeavingLaw }
{}
