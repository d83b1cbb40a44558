ghost use Rattle.std.specs.Prelude.{◌≡◌, ◌+◌, ◌<◌, ◌≤◌, ◌^◌, length, replicate, take, drop, Some, None, IfOk, IfSome, OnErr, IfNone};
ghost use Rattle.label_table.specs.Table.{Table, begin_step, clear_step, close_step, count_free, expire_step, is_current, lowest_from, has_serial, new_table, place_at, unused, with_place, with_state};
ghost use Rattle.label_table.specs.Requests.{IsRequest, with_label, kind_of};

use crate::place::{LabelState, Place};
use crate::reply::{NoLabel, ReplyKind, Stale};
use crate::request::{kind_at, put_label};
use async_packet::Label;
use sbp_base::{Generation, NoMemory};
use std::alloc::Global;
use std::marker::Model;

/// The labels of a requester to one responder.
pub(crate) const LABELS: usize = 64;

/// The table of the 64 labels of a requester to one responder. All room is taken by `new`.
#[derive(Drop)]
pub struct Labels {
    generation: Generation,
    calls: u64,
    places: Vec<Place>,
}

impl Model for Labels {
    ghost use Rattle.std.specs.Prelude.{◌≡◌, length};
    ghost use Rattle.label_table.specs.Table.{Table};

    ghost Value = { Table };

    ghost view = { λ a. record { generation = a.generation; calls = a.calls; places = a.places.items } };

    ghost invariant = { λ a. length a.places.items ≡ 64 };
}

impl Labels {
    /// The table in generation 0, in which each label is free and has no last request.
    pub fn new(alloc: Global) -> Result<Labels, NoMemory>
        ensures { IfOk result (λ labels. labels ≡ new_table) }
    {
        let mut places = Vec::new(alloc);
        for _ in 0..LABELS {
            places.push(Place::new(alloc)?)?;
        }
        Ok(Labels {
            generation: Generation::first(),
            calls: 0,
            places,
        })
    }

    /// Begins the transaction of a request: the label that it takes is written into its bytes, and
    /// they are its last request. A read or a lock takes the lowest free label, a write the lowest
    /// free one whose last request in this generation differs from it in its bytes. Where there is
    /// none the bytes and the table stay.
    #[tactic(auto, unfolding(crate::specs::Table::begin_step), using(crate::proofs::Requests::least_of_request, crate::proofs::Requests::most_of_request))]
    #[inline(always)]
    pub fn begin(&mut self, bytes: &mut [u8]) -> Result<Label, NoLabel>
        requires request { IsRequest bytes.old }
        requires count { self.old.calls < 2 ^ 56 }
        ensures step { (result, (self.new, bytes.new)) ≡ begin_step self.old bytes.old }
        ensures refused { OnErr result ((self.new ≡ self.old) × (bytes.new ≡ bytes.old)) }
        ensures count { self.new.calls ≤ self.old.calls + 1 }
    {
        let Some(number) = lowest(&self.places, bytes) else {
            return Err(NoLabel);
        };
        let label = Label::new(number, self.generation, self.calls);
        let kind = kind_at(bytes);
        put_label(bytes, number);
        let place = &mut self.places[usize::from(number)];
        place.state = LabelState::UnderWay {
            kind,
            serial: self.calls,
        };
        place.last.keep(bytes);
        self.calls += 1;
        Ok(label)
    }

    /// Closes the transaction under way of a label and a kind of response, and frees the label.
    /// There is none exactly where that label is not under way with that kind; the table then stays.
    #[tactic(auto, unfolding(crate::specs::Table::close_step))]
    pub fn close(&mut self, number: u8, kind: ReplyKind) -> Option<Label>
        requires { self.old.calls < 2 ^ 56 }
        ensures step { (result, self.new) ≡ close_step self.old number kind }
        ensures refused { IfNone result (self.new ≡ self.old) }
        ensures count { self.new.calls ≤ self.old.calls + 1 }
    {
        match self.state_at(number) {
            LabelState::UnderWay {
                kind: asked,
                serial,
            } if asked == kind => {
                let label = Label::new(number, self.generation, serial);
                self.set_state(number, LabelState::Free);
                Some(label)
            }
            _ => None,
        }
    }

    /// Lays a label to rest, whose transaction timed out. It is stale exactly where its transaction
    /// is not the one under way in this generation; the table then stays.
    #[tactic(auto, unfolding(crate::specs::Table::expire_step))]
    pub fn expire(&mut self, label: Label) -> Result<(), Stale>
        requires { self.old.calls < 2 ^ 56 }
        ensures step { (result, self.new) ≡ expire_step self.old label }
        ensures refused { OnErr result (self.new ≡ self.old) }
        ensures count { self.new.calls ≤ self.old.calls + 1 }
    {
        if !self.is_under_way(&label) {
            return Err(Stale);
        }
        self.set_state(label.number(), LabelState::Resting);
        Ok(())
    }

    /// Whether this transaction is the one under way in this generation.
    #[tactic(auto, unfolding(crate::specs::Table::is_current))]
    pub fn is_under_way(&self, label: &Label) -> bool
        ensures { result ≡ is_current self.now label.now }
    {
        self.generation == label.generation()
            && has_serial(self.state_at(label.number()), label.serial())
    }

    /// The number of labels that are neither under way nor resting.
    pub fn free(&self) -> u8
        ensures value { result ≡ count_free self.now.places }
        ensures most { result ≤ 64 }
    {
        let mut count = 0;
        for place in self.places.iter() {
            if place.is_free() {
                count += 1;
            }
        }
        count
    }

    /// Enters a generation after a reset: each label is free, and each last request is forgotten.
    /// The count of changes goes on, so handles made before are stale.
    pub fn clear(&mut self, generation: Generation)
        requires { self.old.calls < 2 ^ 56 }
        ensures { self.new ≡ clear_step self.old generation }
    {
        self.generation = generation;
        self.calls += 1;
        for number in 0..LABELS {
            self.places[number].clear();
        }
    }

    /// The number of calls that changed the table.
    pub fn calls(&self) -> u64
        ensures { result ≡ self.now.calls }
    {
        self.calls
    }

    /// The state of a label; one above 63 is free.
    fn state_at(&self, number: u8) -> LabelState
        ensures value { result ≡ (place_at self.now number).state }
    {
        let number = usize::from(number);
        if number < LABELS {
            return self.places[number].state;
        }
        LabelState::Free
    }

    /// Changes the state of a label.
    fn set_state(&mut self, number: u8, state: LabelState)
        requires small { number < 64 }
        requires count { self.old.calls < 2 ^ 56 }
        ensures { self.new ≡ with_state self.old number state }
    {
        self.places[usize::from(number)].state = state;
        self.calls += 1;
    }
}

/// Whether a label in this state is under way with this serial.
fn has_serial(state: LabelState, asked: u64) -> bool
    ensures { result ≡ has_serial state asked }
{
    match state {
        LabelState::UnderWay { serial, .. } => serial == asked,
        _ => false,
    }
}

/// The lowest label that a request may take.
#[tactic(auto, using(crate::proofs::Search::searching))]
fn lowest(places: &[Place], bytes: &[u8]) -> Option<u8>
    requires whole { length places.now ≡ 64 }
    requires size { 12 ≤ length bytes.now }
    ensures lowest { result ≡ lowest_from 0 bytes.now places.now }
    ensures below { IfSome result (λ number. number < 64) }
{
    for number in 0..LABELS {
        if places[number].serves(bytes, number as u8) {
            return Some(number as u8);
        }
    }
    None
}
