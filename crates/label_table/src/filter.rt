ghost use Rattle.std.specs.Prelude.{◌≡◌, ◌≢◌, ◌<◌, ◌≤◌, length, position, replicate, take, Some, None, IfOk, IfSome};
ghost use Rattle.label_table.specs.Filter.{is_of, judge_step, new_filter, no_source, place_for, remember_step};
ghost use Rattle.label_table.specs.Requests.{IsRequest};

use crate::reply::Verdict;
use crate::source::SourceRequests;
use sbp_base::{NoMemory, NodeId};
use std::alloc::Global;
use std::marker::Model;

/// The sources that a responder has room for.
const SOURCES: usize = 5;

/// The last requests of 5 sources, 64 of each, one under each label. All room is taken by `new`.
#[derive(Drop)]
pub struct Seen {
    sources: Vec<SourceRequests>,
}

impl Model for Seen {
    ghost use Rattle.std.specs.Prelude.{◌≡◌, List, length};
    ghost use Rattle.label_table.specs.Filter.{SourcePlace};

    ghost Value = { List SourcePlace };

    ghost view = { λ a. a.sources.items };

    ghost invariant = { λ a. length a.sources.items ≡ 5 };
}

impl Seen {
    /// Room in which no source is recorded.
    pub fn new(alloc: Global) -> Result<Seen, NoMemory>
        ensures { IfOk result (λ seen. seen ≡ new_filter) }
    {
        let mut sources = Vec::new(alloc);
        for _ in 0..SOURCES {
            sources.push(SourceRequests::new(alloc)?)?;
        }
        Ok(Seen { sources })
    }

    /// Judges a request. It comes again exactly where it is a write equal to the last request of its
    /// source and label, and has then the rcode kept with that. It is crowded exactly where 5 other
    /// sources are recorded.
    #[tactic(auto, using(crate::proofs::Requests::least_of_request))]
    pub fn judge(&self, source: NodeId, bytes: &[u8]) -> Verdict
        requires { IsRequest bytes.now }
        ensures { result ≡ judge_step self.now source bytes.now }
    {
        match place_for(&self.sources, source) {
            Some(place) => self.sources[place].judge(bytes),
            None => Verdict::Crowded,
        }
    }

    /// Records a request that is not crowded, of any kind, as the last one of its source and label,
    /// with the rcode, 4 bits, that it is given.
    #[tactic(auto, using(crate::proofs::Requests::least_of_request, crate::proofs::Requests::most_of_request))]
    pub fn remember(&mut self, source: NodeId, bytes: &[u8], rcode: u8)
        requires request { IsRequest bytes.now }
        requires room { judge_step self.old source bytes.now ≢ Verdict.Crowded }
        ensures { self.new ≡ remember_step self.old source bytes.now rcode }
    {
        match place_for(&self.sources, source) {
            Some(place) => self.sources[place].remember(source, bytes, rcode),
            None => unreachable!(),
        }
    }

    /// Records a request as the last one of its source and label, where it is not crowded.
    #[tactic(auto, using(crate::proofs::Requests::least_of_request, crate::proofs::Requests::most_of_request))]
    #[inline(always)]
    pub(crate) fn remember_if_room(&mut self, source: NodeId, bytes: &[u8], rcode: u8)
        requires { IsRequest bytes.now }
        ensures { self.new ≡ remember_step self.old source bytes.now rcode }
    {
        if let Some(place) = place_for(&self.sources, source) {
            self.sources[place].remember(source, bytes, rcode);
        }
    }

    /// Forgets all sources and their requests.
    pub fn clear(&mut self)
        ensures { self.new ≡ new_filter }
    {
        for place in 0..SOURCES {
            self.sources[place].clear();
        }
    }
}

/// The lowest place of a source, or of none.
fn place_of(sources: &[SourceRequests], source: Option<NodeId>) -> Option<usize>
    ensures place { result ≡ position (is_of source) sources.now }
    ensures below { IfSome result (λ place. place < length sources.now) }
{
    sources.iter().position(|place| place.is_of(source))
}

/// The place of a source, or else the lowest that none has.
#[tactic(auto, unfolding(crate::specs::Owned::owned_place))]
fn place_for(sources: &[SourceRequests], source: NodeId) -> Option<usize>
    ensures place { result ≡ place_for source sources.now }
    ensures below { IfSome result (λ place. place < length sources.now) }
{
    match place_of(sources, Some(source)) {
        Some(place) => Some(place),
        None => place_of(sources, None),
    }
}
