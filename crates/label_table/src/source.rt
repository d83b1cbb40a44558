ghost use Rattle.std.specs.Prelude.{◌≡◌, ◌≤◌, ◌<◌, length, replicate, take, Some, None, IfOk};
ghost use Rattle.label_table.specs.Filter.{is_of, judged, no_request, no_source, remembered};

use crate::reply::Verdict;
use crate::request::{asks_write, label_at};
use crate::room::RequestRoom;
use crate::table::LABELS;
use sbp_base::{NoMemory, NodeId};
use std::alloc::Global;
use std::marker::Model;

/// The last request under a label, and the rcode, 4 bits, that it was given.
#[derive(Drop)]
pub struct Remembered {
    pub last: RequestRoom,
    pub rcode: u8,
}

impl Remembered {
    /// Room for a request.
    fn new(alloc: Global) -> Result<Remembered, NoMemory>
        ensures { IfOk result (λ none. none ≡ no_request) }
    {
        Ok(Remembered {
            last: RequestRoom::new(alloc)?,
            rcode: 0,
        })
    }

    /// Forgets the request.
    fn clear(&mut self)
        ensures { self.new ≡ no_request }
    {
        self.last.forget();
        self.rcode = 0;
    }
}

/// Room for the last requests of one source, one under each of 64 labels.
#[derive(Drop)]
pub struct SourceRequests {
    source: Option<NodeId>,
    requests: Vec<Remembered>,
}

impl Model for SourceRequests {
    ghost use Rattle.std.specs.Prelude.{◌≡◌, length};
    ghost use Rattle.label_table.specs.Filter.{SourcePlace};

    ghost Value = { SourcePlace };

    ghost view = { λ a. record { source = a.source; requests = a.requests.items } };

    ghost invariant = { λ a. length a.requests.items ≡ 64 };
}

impl SourceRequests {
    /// Room that no source has.
    pub(crate) fn new(alloc: Global) -> Result<SourceRequests, NoMemory>
        ensures { IfOk result (λ place. place ≡ no_source) }
    {
        let mut requests = Vec::new(alloc);
        for _ in 0..LABELS {
            requests.push(Remembered::new(alloc)?)?;
        }
        Ok(SourceRequests {
            source: None,
            requests,
        })
    }

    /// Whether this is the room of a source, or of none.
    pub(crate) fn is_of(&self, source: Option<NodeId>) -> bool
        ensures { result ≡ is_of source self.now }
    {
        self.source == source
    }

    /// Judges a request of this source.
    #[tactic(auto, unfolding(crate::specs::Filter::judged))]
    pub(crate) fn judge(&self, bytes: &[u8]) -> Verdict
        requires { 12 ≤ length bytes.now }
        ensures { result ≡ judged self.now bytes.now }
    {
        let remembered = &self.requests[usize::from(label_at(bytes))];
        if asks_write(bytes) && remembered.last.is(bytes) {
            return Verdict::Again {
                rcode: remembered.rcode,
            };
        }
        Verdict::Fresh
    }

    /// Keeps a request as the last one of this source and the request's label.
    #[tactic(auto, unfolding(crate::specs::Filter::remembered))]
    pub(crate) fn remember(&mut self, source: NodeId, bytes: &[u8], rcode: u8)
        requires least { 12 ≤ length bytes.now }
        requires most { length bytes.now ≤ 2064 }
        ensures { self.new ≡ remembered self.old source bytes.now rcode }
    {
        self.source = Some(source);
        let remembered = &mut self.requests[usize::from(label_at(bytes))];
        remembered.last.keep(bytes);
        remembered.rcode = rcode;
    }

    /// Leaves the room to none, and forgets its requests.
    pub(crate) fn clear(&mut self)
        ensures { self.new ≡ no_source }
    {
        self.source = None;
        for number in 0..LABELS {
            self.requests[number].clear();
        }
    }
}
