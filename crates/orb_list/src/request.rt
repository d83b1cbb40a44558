use sbp_base::NodeId;

/// A command that is to be prepared: its command block, what data it carries, and where it goes.
#[derive(Drop)]
pub struct Request<'a> {
    pub cdb: [u8; 12],
    /// Whether its data goes to the initiator.
    pub to_initiator: bool,
    /// The bytes of its buffer, at most 16,384.
    pub length: u16,
    /// The data that it brings to the target, as long as the buffer; empty where it brings none.
    pub payload: &'a [u8],
    /// The lengths of the segments of its page table, at most 64; empty where it has no page table.
    pub segments: &'a [u16],
    /// The field of the ORB, 4 bits.
    pub max_payload: u8,
    /// The initiator's node.
    pub node: NodeId,
    pub login: u16,
}
