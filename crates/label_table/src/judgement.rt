use async_packet::{Label, PacketRef};
use sbp_base::Bytes;

/// What a delivered packet is found to be. A packet is lent from its bytes.
#[derive(Clone, Copy, Debug)]
pub enum Judgement<'a, P> {
    /// Its generation is not the node's. It is ignored, without an answer.
    Generation,
    /// Its bytes are no packet, or its destination is not the node. It is ignored, without an answer.
    Grammar,
    /// A response, and no transaction with its source, label and kind is under way. It is ignored.
    Label,
    /// A response. Its transaction is closed, and was for this, or for nobody.
    Response {
        packet: PacketRef<'a>,
        label: Label,
        purpose: Option<P>,
    },
    /// A repeated write: it is to be answered with the rcode, 4 bits, that it had the first time.
    Again {
        packet: PacketRef<'a>,
        rcode: u8,
    },
    /// A request that the node answers.
    Request {
        packet: PacketRef<'a>,
    },
}

/// A request to be sent: the transaction that it begins, and its bytes.
#[derive(Drop)]
pub struct Asked {
    pub label: Label,
    pub bytes: Bytes,
}
