use thiserror::Error;

/// Why bytes are no packet.
#[derive(Clone, Copy, Debug, PartialEq, Eq, Error)]
pub enum PacketFault {
    /// There are fewer bytes than these.
    #[error("a packet has {need} bytes at least")]
    Short { need: u16 },
    /// The tcode has no kind.
    #[error("no packet has tcode {tcode}")]
    Code { tcode: u8 },
    /// The data_length is above 2,048.
    #[error("data_length {length} is too big")]
    TooBig { length: u16 },
    /// There are so many bytes behind the packet.
    #[error("{extra} bytes too many")]
    Long { extra: usize },
    /// The extended_tcode of a lock is none.
    #[error("no lock has extended_tcode {code}")]
    Extended { code: u16 },
    /// The lock has no such data_length.
    #[error("no such lock has data_length {length}")]
    LockLength { length: u16 },
}
