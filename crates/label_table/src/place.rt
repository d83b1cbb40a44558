ghost use Rattle.std.specs.Prelude.{◌≡◌, ◌≤◌, ◌<◌, length, IfOk};
ghost use Rattle.label_table.specs.Table.{serves, unused, is_free};

use crate::reply::ReplyKind;
use crate::request::asks_write;
use crate::room::RequestRoom;
use sbp_base::NoMemory;
use std::alloc::Global;

/// Whether a label may be taken.
#[derive(Clone, Copy, Debug, PartialEq, Eq)]
pub enum LabelState {
    /// It may.
    Free,
    /// A request waits for its response.
    UnderWay { kind: ReplyKind, serial: u64 },
    /// Its transaction timed out, and a late response may still come.
    Resting,
}

/// One label: its state, and the last request that was sent under it in this generation.
#[derive(Drop)]
pub struct Place {
    pub state: LabelState,
    pub last: RequestRoom,
}

impl Place {
    /// A free label with room for its last request.
    pub(crate) fn new(alloc: Global) -> Result<Place, NoMemory>
        ensures { IfOk result (λ place. place ≡ unused) }
    {
        Ok(Place {
            state: LabelState::Free,
            last: RequestRoom::new(alloc)?,
        })
    }

    /// Whether the label may be taken by some request.
    pub(crate) fn is_free(&self) -> bool
        ensures { result ≡ is_free self.now.state }
    {
        matches!(self.state, LabelState::Free)
    }

    /// Whether a request may take this label, whose number is below 64.
    pub(crate) fn serves(&self, bytes: &[u8], number: u8) -> bool
        requires size { 12 ≤ length bytes.now }
        requires small { number < 64 }
        ensures { result ≡ serves number bytes.now self.now }
    {
        self.is_free() && (!asks_write(bytes) || !self.last.is_labelled(bytes, number))
    }

    /// Frees the label and forgets its last request.
    pub(crate) fn clear(&mut self)
        ensures { self.new ≡ unused }
    {
        self.state = LabelState::Free;
        self.last.forget();
    }
}
