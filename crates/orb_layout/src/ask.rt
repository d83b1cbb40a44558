ghost use Rattle.std.specs.Prelude.{◌≡◌, length, IfOk};
ghost use Rattle.orb_layout.specs.Replies.{answer_of, lent, payload_of, write_failure};

use sbp_base::Offset;

/// What an agent or the manager wants sent next.
#[derive(Clone, Copy, Debug, Default, PartialEq, Eq)]
pub enum Ask {
    /// A read of `length` bytes from `offset` on.
    Read { offset: Offset, length: u16 },
    /// A write of `length` bytes from `offset` on.
    Write { offset: Offset, length: u16 },
    #[default]
    Nothing,
}

/// What came of an [`Ask`].
#[derive(Clone, Copy, Debug)]
pub enum Reply<'a> {
    /// The bytes of a read.
    Payload(&'a [u8]),
    /// A write was answered complete.
    Done,
    /// The answer had this rcode, which is not 0 (IEEE 1394-1995, response codes).
    Refused(u8),
    /// The time for an answer ran out.
    Expired,
    /// No label was free, so nothing was sent.
    NoLabel,
}

impl<'a> Reply<'a> {
    /// The bytes of a read of `size` bytes. Else why it failed: `Grammar` at a payload of another
    /// length and at `Done`.
    pub fn payload(self, size: usize) -> Result<&'a [u8], FailCause>
        ensures bytes { lent result ≡ payload_of (answer_of self.entry) size }
        ensures size { IfOk result (λ bytes. length bytes.now ≡ size) }
    {
        match self {
            Reply::Payload(bytes) if bytes.len() == size => Ok(bytes),
            Reply::Payload(_) | Reply::Done => Err(FailCause::Grammar),
            Reply::Refused(_) => Err(FailCause::Refused),
            Reply::Expired => Err(FailCause::Timeout),
            Reply::NoLabel => Err(FailCause::Label),
        }
    }

    /// Why a write failed: `None` at `Done` alone, `Grammar` at a payload.
    pub fn write_failure(self) -> Option<FailCause>
        ensures { result ≡ write_failure (answer_of self.entry) }
    {
        match self {
            Reply::Done => None,
            Reply::Payload(_) => Some(FailCause::Grammar),
            Reply::Refused(_) => Some(FailCause::Refused),
            Reply::Expired => Some(FailCause::Timeout),
            Reply::NoLabel => Some(FailCause::Label),
        }
    }
}

/// Why an ORB failed.
#[derive(Clone, Copy, Debug, PartialEq, Eq)]
pub enum FailCause {
    /// The time for an answer ran out.
    Timeout,
    /// No label was free.
    Label,
    /// The answer had another rcode than complete.
    Refused,
    /// The bytes were none of the layout.
    Grammar,
}
