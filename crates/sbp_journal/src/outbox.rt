ghost use Rattle.std.specs.Prelude.{◌≡◌, ◌<◌, [], ◌∷◌, ◌++◌, OnOk, OnErr, MatchOption};
ghost use Rattle.std.specs.VecDeque.{deque_len, deque_capacity};

use crate::side::Side;
use async_packet::Label;
use sbp_base::{Bytes, NoMemory, NodeId};
use std::alloc::Global;
use std::collections::VecDeque;
use std::marker::Model;

/// A packet to send; the label is there exactly for a request.
#[derive(Drop)]
pub struct Outgoing {
    pub to: NodeId,
    pub label: Option<Label>,
    pub bytes: Bytes,
}

/// What a node hands out in one call: packets to send, and what it tells beside them, each in its
/// order.
#[derive(Drop)]
pub struct Outbox {
    packets: VecDeque<Outgoing>,
    sides: VecDeque<Side>,
}

impl Model for Outbox {
    ghost use Rattle.sbp_journal.specs.Outgoings.{OutboxState};

    ghost Value = { OutboxState };

    ghost view = { λ outbox. record { packets = outbox.packets.items; sides = outbox.sides.items } };
}

impl Outbox {
    ghost use Rattle.sbp_journal.specs.Outgoings.{OutboxState, empty_outbox};

    /// Nothing to send and nothing to tell.
    pub fn new(alloc: Global) -> Self
        ensures { result ≡ empty_outbox }
    {
        Outbox {
            packets: VecDeque::new(alloc),
            sides: VecDeque::new(alloc),
        }
    }

    /// Adds a packet behind the others.
    #[inline(always)]
    pub fn send(&mut self, packet: Outgoing) -> Result<(), NoMemory>
        ensures ok { OnOk result (self.new ≡ record self.old { packets = self.old.packets ++ packet ∷ [] }) }
        ensures err { OnErr result (self.new ≡ self.old) }
    {
        if self.packets.capacity() <= self.packets.len() {
            grow(&mut self.packets)?;
        }
        self.packets.push_back_reserved(packet);
        Ok(())
    }

    /// Adds a side behind the others.
    #[inline(always)]
    pub fn tell(&mut self, side: Side) -> Result<(), NoMemory>
        ensures ok { OnOk result (self.new ≡ record self.old { sides = self.old.sides ++ side ∷ [] }) }
        ensures err { OnErr result (self.new ≡ self.old) }
    {
        if self.sides.capacity() <= self.sides.len() {
            grow(&mut self.sides)?;
        }
        self.sides.push_back_reserved(side);
        Ok(())
    }

    /// Takes the first packet out; `None` exactly where there is none.
    pub fn take_packet(&mut self) -> Option<Outgoing>
        ensures packets { MatchOption result ((self.old.packets ≡ []) × (self.new.packets ≡ [])) (λ packet. self.old.packets ≡ packet ∷ self.new.packets) }
        ensures sides { self.new.sides ≡ self.old.sides }
    {
        self.packets.pop_front()
    }

    /// Takes the first side out; `None` exactly where there is none.
    pub fn take_side(&mut self) -> Option<Side>
        ensures sides { MatchOption result ((self.old.sides ≡ []) × (self.new.sides ≡ [])) (λ side. self.old.sides ≡ side ∷ self.new.sides) }
        ensures packets { self.new.packets ≡ self.old.packets }
    {
        self.sides.pop_front()
    }

    /// Removes all packets and sides and keeps their room. Mostly there are none.
    #[inline(always)]
    pub fn clear(&mut self)
        ensures { self.new ≡ empty_outbox }
    {
        if !self.packets.is_empty() || !self.sides.is_empty() {
            self.remove_all();
        }
    }

    /// Removes all packets and sides. It stands apart, so that the test needs no call.
    #[inline(never)]
    fn remove_all(&mut self)
        ensures { self.new ≡ empty_outbox }
    {
        self.packets.clear();
        self.sides.clear();
    }
}

/// Makes room for one more item.
#[cold]
#[inline(never)]
fn grow<T>(items: &mut VecDeque<T>) -> Result<(), NoMemory>
    ensures items { items.new.items ≡ items.old.items }
    ensures room { OnOk result (deque_len items.new < deque_capacity items.new) }
{
    items.reserve(1)?;
    Ok(())
}
