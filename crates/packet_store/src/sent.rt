use sbp_base::{Bytes, Generation};

/// A packet as it is sent: the bus generation that its sender had, the nodes that it goes from and
/// to, its bytes, and whether it was injected. Node 0 is the target, node i + 1 is initiator i.
#[derive(Drop)]
pub struct Sent {
    pub generation: Generation,
    pub from: u8,
    pub to: u8,
    pub bytes: Bytes,
    pub injected: bool,
}

/// A packet that the store keeps, with its serial and its state: in flight or delivered.
#[derive(Drop)]
pub struct Kept {
    pub serial: u64,
    pub in_flight: bool,
    pub sent: Sent,
}
