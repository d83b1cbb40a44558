ghost use Rattle.std.specs.Prelude.{◌≡◌, ◌+◌, ◌<◌, ◌^◌, length, map, false, true, not, Some, None, IfOk, IfSome, OnSome, is_some};
ghost use Rattle.orb_list.specs.Requests.{IsRequest, asked_of};
ghost use Rattle.orb_list.specs.Table.{added, closed, drop_step, dummy_step, find_in, free_all_step, freed, high_step, is_free, checked, low_step, list_number, lowest, may_prepare, new_table, next_ticket, orb_number, passed_for, pin_step, prepare_step, released, rested, slot_in, status_step, sweep, unpin_step, waiting, waits_high, waits_low, with_link, with_status};
ghost use Rattle.orb_list.specs.Holds.{HoldsSlots, IsBefore, KeepsHeld, KeepsLink};
ghost use Rattle.bus_memory.specs.Windows.{start};

use crate::fault::ListFault;
use crate::layout::{make_dummy, put_orb_quad, write_slot};
use crate::list::{Link, Linking, PresentList};
use crate::request::Request;
use crate::slot::{Slot, SlotState};
use crate::ticket::Ticket;
use bus_memory::{Image, Window};
use orb_layout::{OrbPointer, StatusBlock};
use std::marker::Model;

/// The slots of an initiator.
const SLOTS: usize = 32;

/// The slots of an initiator, and its present list.
#[derive(Drop)]
pub struct Slots {
    slots: [Slot; 32],
    present: Option<PresentList>,
    lists: u32,
    pinned: Option<Ticket>,
    calls: u64,
    acts: u32,
}

impl Model for Slots {
    ghost use Rattle.orb_list.specs.Table.{SlotTable};
    ghost use Rattle.orb_list.specs.Holds.{IsSound};

    ghost Value = { SlotTable };

    ghost view = { λ a. record { slots = a.slots; present = a.present; lists = a.lists; pinned = a.pinned; calls = a.calls; acts = a.acts } };

    ghost invariant = { λ a. IsSound (record { slots = a.slots; present = a.present; lists = a.lists; pinned = a.pinned; calls = a.calls; acts = a.acts }) };
}

impl Slots {
    /// 32 free slots in which no ORB was prepared, and no list.
    pub fn new() -> Slots
        ensures { result ≡ new_table }
    {
        Slots {
            slots: [Slot::unused(); 32],
            present: None,
            lists: 0,
            pinned: None,
            calls: 0,
            acts: 0,
        }
    }

    /// Prepares an ORB in the lowest free slot, which is armed: the ORB, with a null next pointer, its
    /// page table and its data are written into the image. It is refused with `MidLink` where a
    /// prepared ORB is not linked, and else with `NoSlot` where no slot is free.
    #[tactic(auto, unfolding(crate::specs::Table::prepare_step))]
    pub fn prepare(&mut self, image: &mut Image, request: &Request<'_>) -> Result<Ticket, ListFault>
        requires holds { HoldsSlots self.old.slots image.old }
        requires request { IsRequest (asked_of request.now) }
        requires calls { self.old.calls < 2 ^ 56 }
        requires acts { self.old.acts < 2 ^ 31 }
        ensures step { (result, (self.new, image.new)) ≡ prepare_step self.old image.old (asked_of request.now) }
        ensures kept { HoldsSlots self.new.slots image.new }
    {
        let slot = self.can_prepare()?;
        let ticket = self.next_ticket(slot, request.login);
        write_slot(image, request, slot);
        self.add(ticket);
        Ok(ticket)
    }

    /// The slot that `prepare` would take, or its refusal.
    pub fn can_prepare(&self) -> Result<u8, ListFault>
        ensures slot { result ≡ may_prepare self.now }
        ensures below { IfOk result (λ slot. slot < 32) }
        ensures free { IfOk result (λ slot. is_free (slot_in self.now.slots slot) ≡ true) }
        ensures size { length self.now.slots ≡ 32 }
    {
        if let Some(list) = &self.present
            && list.link != Link::Done
        {
            return Err(ListFault::MidLink);
        }
        match lowest(&self.slots) {
            Some(slot) => Ok(slot as u8),
            None => Err(ListFault::NoSlot),
        }
    }

    /// Writes the low quadlet of the next pointer of the ORB before the one that was prepared last, whose
    /// ticket it answers. The pointer is still null then. It is refused with `NotLinking` where no ORB
    /// waits for its low quadlet.
    #[tactic(auto, unfolding(crate::specs::Table::low_step), using(crate::proofs::Held::before_small, crate::proofs::Held::before_armed, crate::proofs::Held::keeps_high, crate::proofs::Held::held_quad))]
    pub fn link_low(&mut self, image: &mut Image) -> Result<Ticket, ListFault>
        requires holds { HoldsSlots self.old.slots image.old }
        requires calls { self.old.calls < 2 ^ 56 }
        ensures step { (result, (self.new, image.new)) ≡ low_step self.old image.old }
        ensures kept { HoldsSlots self.new.slots image.new }
    {
        let Some(Linking { before, tail }) = self.waits_low() else {
            return Err(ListFault::NotLinking);
        };
        put_orb_quad(image, before, 4, pointer_to(tail).low());
        self.set_link(Link::High { before });
        Ok(tail)
    }

    /// Writes the high quadlet of the next pointer of the ORB before the one that was prepared last, whose
    /// ticket it answers; the pointer is then that ORB's address. Slots whose ORBs are over by that
    /// become free. It is refused with `NotLinking` where no ORB waits for its high quadlet.
    #[tactic(auto, unfolding(crate::specs::Table::high_step), using(crate::proofs::Held::before_small, crate::proofs::Held::before_armed, crate::proofs::Held::held_quad))]
    pub fn link_high(&mut self, image: &mut Image) -> Result<Ticket, ListFault>
        requires holds { HoldsSlots self.old.slots image.old }
        requires calls { self.old.calls < 2 ^ 56 }
        ensures step { (result, (self.new, image.new)) ≡ high_step self.old image.old }
        ensures kept { HoldsSlots self.new.slots image.new }
    {
        let Some(Linking { before, tail }) = self.waits_high() else {
            return Err(ListFault::NotLinking);
        };
        put_orb_quad(image, before, 0, pointer_to(tail).high());
        self.set_link(Link::Done);
        self.sweep(image);
        Ok(tail)
    }

    /// Sets the request format of an ORB to 3. It is refused with `Stale` where the ticket is not of the
    /// present list, and else with `Taken` where the status of its ORB was taken.
    #[tactic(auto, unfolding(crate::specs::Table::dummy_step), using(crate::proofs::Held::armed_held, crate::proofs::Held::held_quad))]
    pub fn make_dummy(&mut self, image: &mut Image, ticket: &Ticket) -> Result<(), ListFault>
        requires holds { HoldsSlots self.old.slots image.old }
        requires calls { self.old.calls < 2 ^ 56 }
        ensures step { (result, (self.new, image.new)) ≡ dummy_step self.old image.old ticket.now }
        ensures kept { HoldsSlots self.new.slots image.new }
    {
        self.check(ticket)?;
        make_dummy(image, ticket.slot());
        self.calls += 1;
        Ok(())
    }

    /// Takes the status of the waiting ORB that it names. The slot of the ORB rests where resp is not 0;
    /// and each slot whose ORB is over becomes free. It is refused with `Slot` where the status names
    /// no ORB that waits.
    #[tactic(auto, unfolding(crate::specs::Table::status_step))]
    pub fn take_status(
        &mut self,
        image: &mut Image,
        status: &StatusBlock,
    ) -> Result<Ticket, ListFault>
        requires holds { HoldsSlots self.old.slots image.old }
        requires calls { self.old.calls < 2 ^ 56 }
        ensures step { (result, (self.new, image.new)) ≡ status_step self.old image.old status.now }
        ensures kept { HoldsSlots self.new.slots image.new }
    {
        let Some(slot) = Window::slot_of(status.orb) else {
            return Err(ListFault::Slot);
        };
        let Some(ticket) = self.waiting(slot) else {
            return Err(ListFault::Slot);
        };
        self.note_status(slot, ticket, status);
        self.sweep(image);
        Ok(ticket)
    }

    /// Drops the present list and gives its number. Each slot that is not free rests from then on. There
    /// is none exactly where no list is present.
    #[tactic(auto, unfolding(crate::specs::Table::drop_step))]
    pub fn drop_list(&mut self) -> Option<u32>
        requires { self.old.calls < 2 ^ 56 }
        ensures step { (result, self.new) ≡ drop_step self.old }
        ensures kept { KeepsHeld self.old.slots self.new.slots }
    {
        let number = match &self.present {
            Some(list) => list.tail.list(),
            None => return None,
        };
        rest_all(&mut self.slots);
        self.present = None;
        self.calls += 1;
        Some(number)
    }

    /// Makes all slots free, also those that rest, and ends a pin, as at a reset that is seen. No list is
    /// present then.
    #[tactic(auto, unfolding(crate::specs::Table::free_all_step))]
    pub fn free_all(&mut self, image: &mut Image)
        requires holds { HoldsSlots self.old.slots image.old }
        requires calls { self.old.calls < 2 ^ 56 }
        ensures step { (self.new, image.new) ≡ free_all_step self.old image.old }
        ensures kept { HoldsSlots self.new.slots image.new }
    {
        free_each(&mut self.slots);
        self.present = None;
        self.pinned = None;
        self.calls += 1;
        close(&self.slots, image);
    }

    /// The ticket of the waiting ORB of a number. There is none exactly where the present list has no such
    /// ORB without a status.
    pub fn find(&self, number: u32) -> Option<Ticket>
        ensures { result ≡ find_in self.now.slots number }
    {
        find_in(&self.slots, number)
    }

    /// Keeps the slot of an ORB from becoming free. It is refused as `make_dummy` is.
    #[tactic(auto, unfolding(crate::specs::Table::pin_step))]
    pub fn pin(&mut self, ticket: &Ticket) -> Result<(), ListFault>
        requires pinned { self.old.pinned ≡ None }
        requires calls { self.old.calls < 2 ^ 56 }
        ensures step { (result, self.new) ≡ pin_step self.old ticket.now }
        ensures kept { KeepsHeld self.old.slots self.new.slots }
    {
        self.check(ticket)?;
        self.pinned = Some(*ticket);
        self.calls += 1;
        Ok(())
    }

    /// Ends the pin, and frees the slot where its ORB is over. Without a pin nothing changes.
    #[tactic(auto, unfolding(crate::specs::Table::unpin_step))]
    pub fn unpin(&mut self, image: &mut Image)
        requires holds { HoldsSlots self.old.slots image.old }
        requires calls { self.old.calls < 2 ^ 56 }
        ensures step { (self.new, image.new) ≡ unpin_step self.old image.old }
        ensures kept { HoldsSlots self.new.slots image.new }
    {
        if self.pinned.is_none() {
            return;
        }
        self.pinned = None;
        self.calls += 1;
        self.sweep(image);
    }

    /// The present list: the ORB that was prepared last, and how far it is linked.
    pub fn present(&self) -> Option<PresentList>
        ensures { result ≡ self.now.present }
    {
        self.present
    }

    /// The ticket of the latest ORB that was prepared in a slot below 32.
    pub fn last(&self, slot: u8) -> Option<Ticket>
        requires { slot < 32 }
        ensures { result ≡ (slot_in self.now.slots slot).last }
    {
        self.slots[usize::from(slot)].last
    }

    /// Whether the slot of an ORB is pinned.
    pub fn is_pinned(&self) -> bool
        ensures { result ≡ is_some self.now.pinned }
    {
        self.pinned.is_some()
    }

    /// The number of lists that were begun, which is that of the next one.
    pub fn lists(&self) -> u32
        ensures { result ≡ self.now.lists }
    {
        self.lists
    }

    /// Whether every slot is in use or rests.
    pub fn is_full(&self) -> bool
        ensures { result ≡ not (is_some (lowest self.now.slots)) }
    {
        lowest(&self.slots).is_none()
    }

    /// The number of calls that changed this.
    pub fn calls(&self) -> u64
        ensures { result ≡ self.now.calls }
    {
        self.calls
    }

    /// The number of calls that prepared an ORB.
    pub fn acts(&self) -> u32
        ensures { result ≡ self.now.acts }
    {
        self.acts
    }

    /// The ticket of an ORB that is prepared next, in this slot below 32.
    fn next_ticket(&self, slot: u8, login: u16) -> Ticket
        requires small { slot < 32 }
        requires acts { self.now.acts < 2 ^ 31 }
        ensures { result ≡ next_ticket self.now slot login }
    {
        match &self.present {
            Some(list) => Ticket::new(
                login,
                list.tail.list(),
                list.tail.number() + 1,
                slot,
                self.calls,
            ),
            None => Ticket::new(login, self.lists, 0, slot, self.calls),
        }
    }

    /// Adds an ORB that was prepared in a free slot: it is the last of its list from now on.
    fn add(&mut self, ticket: Ticket)
        requires acts { self.old.acts < 2 ^ 31 }
        requires calls { self.old.calls < 2 ^ 56 }
        requires list { ticket.list ≡ list_number self.old.present self.old.lists }
        requires number { ticket.number ≡ orb_number self.old.present }
        requires small { ticket.slot < 32 }
        requires free { is_free (slot_in self.old.slots ticket.slot) ≡ true }
        ensures { self.new ≡ added self.old ticket }
    {
        let (link, passed) = match &self.present {
            Some(list) => (
                Link::Low {
                    before: list.tail.slot(),
                },
                list.passed,
            ),
            None => {
                self.lists += 1;
                (Link::Done, 0)
            }
        };
        self.slots[usize::from(ticket.slot())] = Slot {
            state: SlotState::Waiting,
            last: Some(ticket),
        };
        self.present = Some(PresentList {
            tail: ticket,
            link,
            passed,
        });
        self.calls += 1;
        self.acts += 1;
    }

    /// The ORB that waits for its low quadlet.
    #[tactic(auto, using(crate::proofs::Held::low_before))]
    fn waits_low(&self) -> Option<Linking>
        ensures linking { result ≡ waits_low self.now.present }
        ensures before { IfSome result (λ linking. IsBefore self.now.slots linking.tail linking.before) }
    {
        match &self.present {
            Some(list) => list.waits_low(),
            None => None,
        }
    }

    /// The ORB that waits for its high quadlet.
    #[tactic(auto, using(crate::proofs::Held::high_before))]
    fn waits_high(&self) -> Option<Linking>
        ensures linking { result ≡ waits_high self.now.present }
        ensures before { IfSome result (λ linking. IsBefore self.now.slots linking.tail linking.before) }
    {
        match &self.present {
            Some(list) => list.waits_high(),
            None => None,
        }
    }

    /// Notes how far the last ORB of the present list is linked.
    fn set_link(&mut self, link: Link)
        requires link { KeepsLink self.old.slots self.old.present link }
        requires calls { self.old.calls < 2 ^ 56 }
        ensures { self.new ≡ with_link self.old link }
    {
        if let Some(list) = &mut self.present {
            list.link = link;
        }
        self.calls += 1;
    }

    /// Whether a ticket is of the present list and its ORB waits; else the first refusal.
    #[tactic(auto, unfolding(crate::specs::Table::checked))]
    fn check(&self, ticket: &Ticket) -> Result<(), ListFault>
        ensures checked { result ≡ checked self.now ticket.now }
        ensures held { IfOk result (λ _done. is_free (slot_in self.now.slots ticket.now.slot) ≡ false) }
    {
        match &self.present {
            Some(list) if list.tail.list() == ticket.list() => {}
            _ => return Err(ListFault::Stale),
        }
        match self.slots[usize::from(ticket.slot())].waiting() {
            Some(waiting) if waiting.is(ticket) => Ok(()),
            _ => Err(ListFault::Taken),
        }
    }

    /// The ORB that waits in a slot below 32.
    #[tactic(auto, using(crate::proofs::Held::waiting_held))]
    fn waiting(&self, slot: u8) -> Option<Ticket>
        requires { slot < 32 }
        ensures waiting { result ≡ waiting (slot_in self.now.slots slot) }
        ensures held { OnSome result (is_free (slot_in self.now.slots slot) ≡ false) }
        ensures size { length self.now.slots ≡ 32 }
    {
        self.slots[usize::from(slot)].waiting()
    }

    /// Notes that the status of the ORB that waits in a slot was taken.
    fn note_status(&mut self, slot: u8, ticket: Ticket, status: &StatusBlock)
        requires small { slot < 32 }
        requires held { is_free (slot_in self.old.slots slot) ≡ false }
        requires calls { self.old.calls < 2 ^ 56 }
        ensures { self.new ≡ with_status self.old slot ticket status.now }
    {
        self.slots[usize::from(slot)].state = SlotState::after(status);
        pass(&mut self.present, ticket.number());
        self.calls += 1;
    }

    /// Frees each slot whose ORB is over.
    fn sweep(&mut self, image: &mut Image)
        requires { HoldsSlots self.old.slots image.old }
        ensures swept { (self.new, image.new) ≡ sweep self.old image.old }
        ensures kept { HoldsSlots self.new.slots image.new }
    {
        if let Some(list) = &self.present {
            free_over(&mut self.slots, list, &self.pinned, image);
        }
    }
}

/// Notes in the present list that the status of an ORB of this number was taken.
fn pass(present: &mut Option<PresentList>, number: u32)
    ensures { present.new ≡ passed_for present.old number }
{
    if let Some(list) = present {
        list.passed = list.passed.max(number);
    }
}

/// The pointer to an ORB.
fn pointer_to(ticket: Ticket) -> OrbPointer
    ensures { result ≡ OrbPointer.At (start (Window.Orb ticket.slot)) }
{
    OrbPointer::At(Window::Orb(ticket.slot()).start())
}

/// The waiting ORB of a number.
#[tactic(auto, using(crate::proofs::Searches::finding))]
fn find_in(slots: &[Slot], number: u32) -> Option<Ticket>
    ensures { result ≡ find_in slots.now number }
{
    for slot in slots {
        if let Some(ticket) = slot.waiting()
            && ticket.number() == number
        {
            return Some(ticket);
        }
    }
    None
}

/// Frees each slot whose ORB is over in a list. The image, which holds the slots, frees the same ones.
fn free_over(slots: &mut [Slot], list: &PresentList, pinned: &Option<Ticket>, image: &mut Image)
    requires size { length slots.old ≡ 32 }
    requires holds { HoldsSlots slots.old image.old }
    ensures slots { slots.new ≡ map (released (Some list.now) pinned.now) slots.old }
    ensures image { image.new ≡ closed (map (released (Some list.now) pinned.now) slots.old) image.old }
{
    for number in 0..SLOTS {
        if slots[number].is_over(list, pinned) {
            slots[number].state = SlotState::Free;
            image.free(number as u8);
        }
    }
}

/// Lays each slot that is not free to rest.
fn rest_all(slots: &mut [Slot])
    ensures { slots.new ≡ map rested slots.old }
{
    for slot in slots.iter_mut() {
        *slot = slot.rested();
    }
}

/// Frees each slot.
fn free_each(slots: &mut [Slot])
    ensures { slots.new ≡ map freed slots.old }
{
    for slot in slots.iter_mut() {
        *slot = slot.freed();
    }
}

/// Frees in the image each slot that is free.
#[tactic(auto, using(crate::proofs::Closed::closed_none, crate::proofs::Closed::closed_free, crate::proofs::Closed::closed_held))]
fn close(slots: &[Slot], image: &mut Image)
    requires { length slots.now ≡ 32 }
    ensures { image.new ≡ closed slots.now image.old }
{
    for number in 0..SLOTS {
        if slots[number].is_free() {
            image.free(number as u8);
        }
    }
}

/// The lowest free slot.
#[tactic(auto, using(crate::proofs::Sound::lowest_free))]
fn lowest(slots: &[Slot]) -> Option<usize>
    ensures lowest { result ≡ lowest slots.now }
    ensures below { IfSome result (λ slot. slot < length slots.now) }
    ensures free { IfSome result (λ slot. is_free (slot_in slots.now slot) ≡ true) }
{
    slots.iter().position(|slot| slot.is_free())
}
