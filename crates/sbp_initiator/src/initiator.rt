ghost use Rattle.std.specs.Prelude.{◌≡◌, ◌+◌, ◌*◌, ◌^◌, ◌<◌, ◌≤◌, IfOk, OnOk};
ghost use Rattle.sbp_initiator.specs.Acting.{HasActed, IsAction, act_step};
ghost use Rattle.label_table.specs.Layer.{new_layer};
ghost use Rattle.sbp_initiator.specs.Counted.{IsSound};
ghost use Rattle.sbp_initiator.specs.Initiators.{first_counts, first_management, first_seat, new_state, own_rom, ready_response};
ghost use Rattle.orb_list.specs.Lists.{last_at, new_lists};
ghost use Rattle.sbp_initiator.specs.Receiving.{HasExpired, expire_step, receive_step};
ghost use Rattle.sbp_initiator.specs.Seeing.{see_step};

use crate::fault::ActFault;
use crate::purpose::{ListMarks, Purpose};
use crate::state::{Counts, InitiatorState};
use async_packet::Label;
use config_rom::{RomPlan, make};
use initiator_base::{RomQuads, StateReads};
use label_table::Transactions;
use orb_layout::LoginResponse;
use orb_list::{Lists, Ticket};
use sbp_base::{Generation, NoMemory, NodeId, Offset};
use sbp_journal::{Action, Judged, Outbox, TargetFault};
use sbp_session::{Live, Out, Seat};
use std::alloc::Global;
use std::marker::Model;

/// The EUI-64 of initiator 0.
const EUI: u64 = 0x0200_0000_0000_0001;

/// An initiator. After want of memory it must not be used again.
#[derive(Drop)]
pub struct Initiator {
    alloc: Global,
    state: InitiatorState,
}

impl Model for Initiator {
    ghost use Rattle.sbp_initiator.specs.declared.state.InitiatorState.{InitiatorState};
    ghost use Rattle.sbp_initiator.specs.Counted.{IsSound};

    ghost Value = { InitiatorState };

    ghost view = { λ a. a.state };

    ghost invariant = { λ a. IsSound a.state };
}

/// The login that a ready initiator has.
fn ready_response(number: u8) -> LoginResponse
    requires { number < 4 }
    ensures { result ≡ ready_response number }
{
    let Some(agent) = Offset::new(0xffff_f004_0000 + 0x20 * u64::from(number)) else {
        unreachable!()
    };
    LoginResponse {
        login: u16::from(number) + 1,
        agent,
        hold: 3,
    }
}

/// The session at the start.
fn first_seat(ready: bool, number: u8) -> Seat
    requires { number < 4 }
    ensures { result ≡ first_seat ready number }
{
    if ready {
        Seat::Live(Live::ready(ready_response(number)))
    } else {
        Seat::Out(Out::new())
    }
}

/// Where MANAGEMENT_AGENT stands by the ROM that was read, at the start.
fn first_management(ready: bool) -> Option<Offset>
    ensures { result ≡ first_management ready }
{
    if ready {
        Offset::new(0xffff_f001_0000)
    } else {
        None
    }
}

/// The counts at the start.
fn first_counts(ready: bool) -> Counts
    ensures { result ≡ first_counts ready }
{
    Counts {
        managed: 0,
        logins: u32::from(ready),
        running: 1,
        calls: 0,
        acts: 0,
    }
}

/// The lists at the start, in a memory with the initiator's ROM.
fn first_lists(alloc: Global, number: u8) -> Result<Lists, NoMemory>
    requires { number < 4 }
    ensures { IfOk result (λ lists. lists ≡ new_lists (own_rom number)) }
{
    let plan = RomPlan {
        eui: EUI + u64::from(number),
        units: 0,
    };
    let rom = make(alloc, &plan)?;
    Lists::new(alloc, rom.as_slice())
}

/// An initiator as a run begins, with its transaction layer and its lists.
#[tactic(auto, unfolding(crate::specs::Initiators::new_state))]
fn first_state(
    alloc: Global,
    number: u8,
    ready: bool,
    layer: Transactions<Purpose>,
    lists: Lists,
) -> InitiatorState
    requires number { number < 4 }
    requires layer { layer ≡ new_layer (0xffc1 + number) }
    requires lists { lists ≡ new_lists (own_rom number) }
    ensures { result ≡ new_state number ready }
{
    InitiatorState {
        number,
        target: NodeId::from_raw(0xffc0),
        layer,
        seat: first_seat(ready, number),
        lists,
        marks: ListMarks::none(),
        operation: None,
        states: StateReads::new(alloc),
        quads: RomQuads::new(alloc),
        management: first_management(ready),
        counts: first_counts(ready),
    }
}

impl Initiator {
    /// The initiator of a number below 4, as a run begins: logged in on unit 0 where it is ready, with the
    /// target's ROM read, and else Out.
    pub fn new(alloc: Global, number: u8, ready: bool) -> Result<Initiator, NoMemory>
        requires { number < 4 }
        ensures { IfOk result (λ initiator. initiator ≡ new_state number ready) }
    {
        let node = NodeId::from_raw(0xffc1 + u16::from(number));
        let layer = Transactions::new(alloc, node)?;
        let lists = first_lists(alloc, number)?;
        let state = first_state(alloc, number, ready, layer, lists);
        Ok(Initiator { alloc, state })
    }

    /// Acts. The action is refused by the first row that holds, 1 to 10, and then changes nothing; else
    /// it is done, and its one request is sent where it has one.
    pub fn act(&mut self, action: &Action, outbox: &mut Outbox) -> Result<(), ActFault>
        requires action { IsAction action.now }
        requires calls { self.old.counts.calls < 2 ^ 48 }
        requires acts { self.old.counts.acts < 2 ^ 31 }
        ensures { HasActed result (outbox.new, self.new) (act_step action.now outbox.old self.old) }
    {
        self.state.act(self.alloc, action, outbox)
    }

    /// Receives a packet of a generation, and tells how it was judged.
    pub fn receive(
        &mut self,
        generation: Generation,
        bytes: &[u8],
        outbox: &mut Outbox,
    ) -> Result<Judged, NoMemory>
        requires { self.old.counts.calls < 2 ^ 48 }
        ensures { IfOk result (λ judged. (judged, (outbox.new, self.new)) ≡ receive_step generation bytes.now outbox.old self.old) }
    {
        self.state.receive(self.alloc, generation, bytes, outbox)
    }

    /// Lets the request of a label expire. It is stale exactly where it is not under way, and memory is
    /// wanting only where it is.
    pub fn expire(&mut self, label: Label, outbox: &mut Outbox) -> Result<(), TargetFault>
        requires { self.old.counts.calls < 2 ^ 48 }
        ensures { HasExpired result (outbox.new, self.new) (expire_step label outbox.old self.old) }
    {
        self.state.expire(self.alloc, label, outbox)
    }

    /// Sees a generation, with the initiator's ID and the target's in it. One that is not new has no effect.
    pub fn see(
        &mut self,
        generation: Generation,
        id: NodeId,
        target: NodeId,
        outbox: &mut Outbox,
    ) -> Result<(), NoMemory>
        requires { self.old.counts.calls < 2 ^ 48 }
        ensures { OnOk result ((outbox.new, self.new) ≡ see_step generation id target outbox.old self.old) }
    {
        self.state.see(generation, id, target, outbox)
    }

    /// The ticket of the latest ORB that was prepared in the slot at an address, also where the slot is
    /// free by now. There is none exactly where no slot's ORB begins there or none was prepared in it.
    pub fn ticket_at(&self, orb: Offset) -> Option<Ticket>
        ensures { result ≡ last_at self.now.lists orb }
    {
        self.state.lists.last_at(orb)
    }

    /// The number of calls that changed it.
    pub fn calls(&self) -> u64
        ensures { result ≡ self.now.counts.calls }
    {
        self.state.counts.calls
    }

    /// The number of actions that were done.
    pub fn acts(&self) -> u32
        ensures { result ≡ self.now.counts.acts }
    {
        self.state.counts.acts
    }
}
