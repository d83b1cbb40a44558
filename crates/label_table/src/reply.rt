/// The kinds of responses (IEEE 1394-1995, transaction layer), by which a response finds the
/// transaction that it closes.
#[derive(Clone, Copy, Debug, PartialEq, Eq)]
pub enum ReplyKind {
    /// To a write of a quadlet or a block.
    Write,
    /// To a read of a quadlet.
    ReadQuadlet,
    /// To a read of a block.
    ReadBlock,
    /// To a lock.
    Lock,
}

/// No label may be taken: each is under way, rests, or, for a write, has a last request equal to it.
#[derive(Clone, Copy, Debug, PartialEq, Eq)]
pub struct NoLabel;

/// The transaction of a label is not the one under way.
#[derive(Clone, Copy, Debug, PartialEq, Eq)]
pub struct Stale;

/// What a responder finds of a request.
#[derive(Clone, Copy, Debug, PartialEq, Eq)]
pub enum Verdict {
    /// A request to be served.
    Fresh,
    /// A repeated write: it has the rcode, 4 bits, that it was given the first time.
    Again { rcode: u8 },
    /// A request of a sixth source, which can't be remembered.
    Crowded,
}
