ghost use Rattle.std.specs.Prelude.{◌≡◌, ◌+◌, ◌*◌, ◌%◌, ◌^◌, ◌<◌, ◌≤◌, length, drop, replicate, take, is_some, not, unwrap_or, Some, None, IfNone, IfOk, IfSome, OnOk};
ghost use Rattle.bus_memory.specs.Access.{read_step};
ghost use Rattle.bus_memory.specs.Memory.{place_at, slot_at, with_bytes};
ghost use Rattle.bus_memory.specs.Laws.{IsWhole};
ghost use Rattle.byteorder.specs.Endian.{big_bytes};
ghost use Rattle.bus_memory.specs.Windows.{start};
ghost use Rattle.orb_layout.specs.ManagementOrbs.{ManagementFits, management_bytes};
ghost use Rattle.orb_list.specs.Holds.{HoldsSlots};
ghost use Rattle.orb_list.specs.Requests.{IsRequest, asked_of};
ghost use Rattle.orb_list.specs.Table.{find_in, lowest};
ghost use Rattle.orb_list.specs.Lists.{answer_at, drop_lists, dummy_lists, free_lists, high_lists, last_at, low_lists, manage_lists, new_lists, no_answer, pin_lists, prepare_lists, take_lists, unpin_lists, write_lists};

use crate::answer::AnswerPlan;
use crate::list::PresentList;
use crate::request::Request;
use crate::slots::Slots;
use crate::ticket::Ticket;
use bus_memory::{Image, Window};
use orb_layout::{ManagementOrb, StatusBlock};
use sbp_base::{Bytes, NoMemory, Offset, quad_at};
use std::alloc::Global;
use std::marker::Model;

/// The slots of an initiator.
const SLOTS: usize = 32;

/// The lists of an initiator: its slots, the memory that holds their ORBs, and what the status of each
/// ORB brings.
#[derive(Drop)]
pub struct Lists {
    slots: Slots,
    image: Image,
    answers: Vec<AnswerPlan>,
}

impl Model for Lists {
    ghost use Rattle.orb_list.specs.Lists.{ListState, IsHeld};

    ghost Value = { ListState };

    ghost view = { λ a. record { slots = a.slots; memory = a.image; answers = a.answers.items } };

    ghost invariant = { λ a. IsHeld a.slots a.image a.answers.items };
}

impl Lists {
    /// No list, in a memory with these quadlets as its ROM.
    pub fn new(alloc: Global, rom: &[u32]) -> Result<Lists, NoMemory>
        ensures { IfOk result (λ lists. lists ≡ new_lists rom.now) }
    {
        Ok(Lists {
            slots: Slots::new(),
            image: Image::new(alloc, rom)?,
            answers: no_answers(alloc)?,
        })
    }

    /// Prepares the ORB of a command; there is none where that is refused.
    #[tactic(auto, unfolding(crate::specs::Lists::prepare_lists), using(crate::proofs::Counted::prepare_calls, crate::proofs::Counted::prepare_acts))]
    pub fn prepare(
        &mut self,
        alloc: Global,
        request: &Request<'_>,
    ) -> Result<Option<Ticket>, NoMemory>
        requires request { IsRequest (asked_of request.now) }
        requires calls { self.old.slots.calls < 2 ^ 56 }
        requires acts { self.old.slots.acts < 2 ^ 31 }
        ensures step { IfOk result (λ ticket. (ticket, self.new) ≡ prepare_lists self.old (asked_of request.now)) }
        ensures calls { self.new.slots.calls ≤ self.old.slots.calls + 1 }
        ensures acts { self.new.slots.acts ≤ self.old.slots.acts + 1 }
    {
        let plan = AnswerPlan::of(alloc, request)?;
        match self.slots.prepare(&mut self.image, request) {
            Ok(ticket) => {
                self.answers[usize::from(ticket.slot())] = plan;
                Ok(Some(ticket))
            }
            Err(_) => Ok(None),
        }
    }

    /// Writes the low quadlet of the ORB that waits for it.
    #[tactic(auto, unfolding(crate::specs::Lists::low_lists), using(crate::proofs::Counted::low_counts))]
    pub fn low(&mut self) -> Option<Ticket>
        requires calls { self.old.slots.calls < 2 ^ 56 }
        ensures step { (result, self.new) ≡ low_lists self.old }
        ensures calls { self.new.slots.calls ≤ self.old.slots.calls + 1 }
        ensures acts { self.new.slots.acts ≡ self.old.slots.acts }
    {
        self.slots.link_low(&mut self.image).ok()
    }

    /// Writes the high quadlet of the ORB that waits for it.
    #[tactic(auto, unfolding(crate::specs::Lists::high_lists), using(crate::proofs::Counted::high_counts))]
    pub fn high(&mut self) -> Option<Ticket>
        requires calls { self.old.slots.calls < 2 ^ 56 }
        ensures step { (result, self.new) ≡ high_lists self.old }
        ensures calls { self.new.slots.calls ≤ self.old.slots.calls + 1 }
        ensures acts { self.new.slots.acts ≡ self.old.slots.acts }
    {
        self.slots.link_high(&mut self.image).ok()
    }

    /// Makes an ORB a dummy, where it waits.
    #[tactic(auto, unfolding(crate::specs::Lists::dummy_lists), using(crate::proofs::Counted::dummy_counts))]
    pub fn make_dummy(&mut self, ticket: &Ticket)
        requires calls { self.old.slots.calls < 2 ^ 56 }
        ensures step { self.new ≡ dummy_lists self.old ticket.now }
        ensures calls { self.new.slots.calls ≤ self.old.slots.calls + 1 }
        ensures acts { self.new.slots.acts ≡ self.old.slots.acts }
    {
        let _done = self.slots.make_dummy(&mut self.image, ticket);
    }

    /// Takes the status of the waiting ORB that it names; there is none where it names none.
    #[tactic(auto, unfolding(crate::specs::Lists::take_lists), using(crate::proofs::Counted::status_counts, crate::proofs::Counted::status_slots))]
    pub fn take_status(&mut self, status: &StatusBlock) -> Option<Ticket>
        requires calls { self.old.slots.calls < 2 ^ 56 }
        ensures step { (result, self.new) ≡ take_lists self.old status.now }
        ensures none { IfNone result (self.new.slots ≡ self.old.slots) }
        ensures calls { self.new.slots.calls ≤ self.old.slots.calls + 1 }
        ensures acts { self.new.slots.acts ≡ self.old.slots.acts }
    {
        match self.slots.take_status(&mut self.image, status) {
            Ok(ticket) => return Some(ticket),
            Err(_) => return None,
        }
    }

    /// Drops the present list, and gives its number.
    #[tactic(auto, unfolding(crate::specs::Lists::drop_lists), using(crate::proofs::Counted::drop_counts))]
    pub fn drop_list(&mut self) -> Option<u32>
        requires calls { self.old.slots.calls < 2 ^ 56 }
        ensures step { (result, self.new) ≡ drop_lists self.old }
        ensures calls { self.new.slots.calls ≤ self.old.slots.calls + 1 }
        ensures acts { self.new.slots.acts ≡ self.old.slots.acts }
    {
        self.slots.drop_list()
    }

    /// Makes every slot free.
    #[tactic(auto, unfolding(crate::specs::Lists::free_lists), using(crate::proofs::Counted::free_counts))]
    pub fn free_all(&mut self)
        requires calls { self.old.slots.calls < 2 ^ 56 }
        ensures step { self.new ≡ free_lists self.old }
        ensures calls { self.new.slots.calls ≤ self.old.slots.calls + 1 }
        ensures acts { self.new.slots.acts ≡ self.old.slots.acts }
    {
        self.slots.free_all(&mut self.image);
    }

    /// Keeps the slot of an ORB that waits from becoming free, where no slot is kept so.
    #[tactic(auto, unfolding(crate::specs::Lists::pin_lists), using(crate::proofs::Counted::pin_counts))]
    pub fn pin(&mut self, ticket: &Ticket)
        requires calls { self.old.slots.calls < 2 ^ 56 }
        ensures step { self.new ≡ pin_lists self.old ticket.now }
        ensures calls { self.new.slots.calls ≤ self.old.slots.calls + 1 }
        ensures acts { self.new.slots.acts ≡ self.old.slots.acts }
    {
        if !self.slots.is_pinned() {
            let _done = self.slots.pin(ticket);
        }
    }

    /// Ends that, and frees the slot where its ORB is over.
    #[tactic(auto, unfolding(crate::specs::Lists::unpin_lists), using(crate::proofs::Counted::unpin_counts))]
    pub fn unpin(&mut self)
        requires calls { self.old.slots.calls < 2 ^ 56 }
        ensures step { self.new ≡ unpin_lists self.old }
        ensures calls { self.new.slots.calls ≤ self.old.slots.calls + 1 }
        ensures acts { self.new.slots.acts ≡ self.old.slots.acts }
    {
        self.slots.unpin(&mut self.image);
    }

    /// Serves a read of the memory, or answers the rcode of why not.
    pub fn serve_read(&self, offset: Offset, out: &mut [u8]) -> u8
        ensures { (result, out.new) ≡ read_step self.now.memory offset out.old }
    {
        self.image.serve_read(offset, out)
    }

    /// Serves a write of the memory, or answers the rcode of why not.
    #[tactic(auto, unfolding(crate::specs::Lists::write_lists))]
    pub fn serve_write(&mut self, offset: Offset, bytes: &[u8]) -> u8
        ensures step { (result, self.new) ≡ write_lists self.old offset bytes.now }
        ensures rcode { result < 2 ^ 4 }
        ensures slots { self.new.slots ≡ self.old.slots }
    {
        self.image.serve_write(offset, bytes)
    }

    /// Writes a management ORB into a place, 0 or 1.
    #[tactic(auto, unfolding(crate::specs::Lists::manage_lists))]
    pub fn manage(&mut self, place: u8, orb: &ManagementOrb)
        requires place { place < 2 }
        requires fits { ManagementFits orb.now }
        ensures step { self.new ≡ manage_lists self.old place orb.now }
        ensures slots { self.new.slots ≡ self.old.slots }
    {
        put_management(&mut self.image, place, orb);
    }

    /// The response buffer of a place, 0 or 1: 256 bytes.
    pub fn response(&self, place: u8) -> &[u8]
        requires { place < 2 }
        ensures bytes { result.now ≡ (place_at self.now.memory place).response }
        ensures size { length result.now ≡ 256 }
    {
        self.image.response(place)
    }

    /// The answer in the buffer of a slot below 32.
    #[tactic(auto, unfolding(crate::specs::Lists::answer_at))]
    pub fn answer(&self, alloc: Global, slot: u8) -> Result<Bytes, NoMemory>
        requires { slot < 32 }
        ensures { IfOk result (λ bytes. bytes ≡ answer_at self.now slot) }
    {
        self.answers[usize::from(slot)].answer(alloc, self.image.buffer(slot))
    }

    /// The present list, if there is one.
    pub fn present(&self) -> Option<PresentList>
        ensures { result ≡ self.now.slots.present }
    {
        self.slots.present()
    }

    /// The slot that the first ORB of a list would take; 0 where none is free. No list is present.
    pub fn next_slot(&self) -> u8
        requires { self.now.slots.present ≡ None }
        ensures { result ≡ unwrap_or (lowest self.now.slots.slots) 0 }
    {
        match self.slots.can_prepare() {
            Ok(slot) => slot,
            Err(_) => 0,
        }
    }

    /// The number of the next list.
    pub fn next_list(&self) -> u32
        ensures { result ≡ self.now.slots.lists }
    {
        self.slots.lists()
    }

    /// Whether every slot is in use or rests.
    pub fn is_full(&self) -> bool
        ensures { result ≡ not (is_some (lowest self.now.slots.slots)) }
    {
        self.slots.is_full()
    }

    /// The waiting ORB of a number.
    pub fn find(&self, number: u32) -> Option<Ticket>
        ensures { result ≡ find_in self.now.slots.slots number }
    {
        self.slots.find(number)
    }

    /// The latest ORB that was prepared in the slot of an address.
    pub fn last_at(&self, orb: Offset) -> Option<Ticket>
        ensures { result ≡ last_at self.now orb }
    {
        self.slots.last(Window::slot_of(orb)?)
    }
}

/// What 32 slots bring before any ORB.
fn no_answers(alloc: Global) -> Result<Vec<AnswerPlan>, NoMemory>
    ensures { IfOk result (λ answers. answers.items ≡ replicate 32 no_answer) }
{
    let mut answers = Vec::with_capacity(alloc, SLOTS)?;
    for _ in 0..SLOTS {
        answers.push(AnswerPlan::none(alloc))?;
    }
    Ok(answers)
}

/// Writes a management ORB into a place of the memory, 0 or 1.
fn put_management(image: &mut Image, place: u8, orb: &ManagementOrb)
    requires whole { IsWhole image.old }
    requires place { place < 2 }
    requires fits { ManagementFits orb.now }
    ensures { image.new ≡ with_bytes image.old (Window.Management place) 0 (management_bytes orb.now) }
{
    let mut bytes = [0u8; 32];
    orb.write(&mut bytes);
    put_quads(image, place, 0, &bytes);
}

/// Writes the 32 bytes of a management ORB into a place of the memory, from quadlet place `at` on.
fn put_quads(image: &mut Image, place: u8, at: u32, bytes: &[u8])
    requires whole { IsWhole image.old }
    requires place { place < 2 }
    requires size { length bytes.now ≡ 32 }
    requires quadlet { at % 4 ≡ 0 }
    requires inside { at ≤ 32 }
    ensures { image.new ≡ with_bytes image.old (Window.Management place) at (drop at bytes.now) }
{
    if at == 32 {
        return;
    }
    put_quad(image, place, at, quad_at(bytes, at as usize));
    put_quads(image, place, at + 4, bytes);
}

/// The place that is so many bytes into the ORB of a place of management, 0 or 1.
fn orb_place(place: u8, at: u32) -> Offset
    requires place { place < 2 }
    requires inside { at + 4 ≤ 32 }
    ensures { result ≡ start (Window.Management place) + at }
{
    let Some(offset) = Window::Management(place).start().plus(at) else {
        unreachable!()
    };
    offset
}

/// Sets a quadlet of a place of management, `at` bytes into its ORB.
fn put_quad(image: &mut Image, place: u8, at: u32, value: u32)
    requires whole { IsWhole image.old }
    requires place { place < 2 }
    requires inside { at + 4 ≤ 32 }
    ensures set { image.new ≡ with_bytes image.old (Window.Management place) at (big_bytes 4 value) }
    ensures whole { IsWhole image.new }
{
    image.set_quad(orb_place(place, at), value);
}
