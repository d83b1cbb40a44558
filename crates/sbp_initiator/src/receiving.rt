//! What an initiator does with a packet that is delivered, and at a time-out: by the first row that holds.
ghost use Rattle.std.specs.Prelude.{◌≡◌, ℕ, List, replicate, ◌+◌, ◌*◌, ◌^◌, ◌<◌, ◌≤◌, length, is_some, [], None, IfOk, OnOk};
ghost use Rattle.async_packet.specs.Packet.{view};
ghost use Rattle.bus_memory.specs.Access.{read_step};
ghost use Rattle.orb_list.specs.Lists.{take_lists, write_lists};
ghost use Rattle.label_table.specs.Bodies.{Gives};
ghost use Rattle.label_table.specs.Layer.{IsLent, finding_of, judging_step};
ghost use Rattle.sbp_initiator.specs.Judged.{AgainGives, IsSame};
ghost use Rattle.label_table.specs.Requests.{IsRequestOf};
ghost use Rattle.media_bay.specs.Unsolicited.{is_block};
ghost use Rattle.orb_layout.specs.StatusBlocks.{kind_of};
ghost use Rattle.sbp_initiator.specs.Counted.{Counts};
ghost use Rattle.sbp_initiator.specs.Effects.{ended_for, managed_step, told};
ghost use Rattle.sbp_initiator.specs.Receiving.{HasExpired, addressed, answer_of, block_at, block_by, block_step, called, expire_step, fifo_of, got_step, ignored_step, is_foreign, managed_for, present_for, read_as, receive_step, request_step, respond_step, serve_step, status_step, taken_as, taken_by, written_as};
ghost use Rattle.sbp_initiator.specs.States.{ending_by, ending_of, status_in};

use crate::effects::tell;
use crate::purpose::{Ending, Purpose, Running};
use crate::state::{InitiatorState, is_present_orb};
use async_packet::{Label, PacketRef};
use initiator_base::places::{names_place, reads_rom};
use initiator_base::{Fifo, fifo_at, is_dead_kind};
use label_table::Judgement;
use media_bay::read_unsolicited;
use orb_layout::{StatusBlock, StatusKind, read_status};
use orb_list::Ticket;
use sbp_base::{Bytes, Generation, NoMemory, Offset, bytes_of_quad};
use sbp_journal::{Cause, Judged, Note, Outbox, Outgoing, TargetFault};
use std::alloc::Global;

/// Response codes (IEEE 1394-1995).
const COMPLETE: u8 = 0;

const DATA_ERROR: u8 = 5;

const TYPE_ERROR: u8 = 6;

const ADDRESS_ERROR: u8 = 7;

/// The most bytes of a read that no memory is asked for: an ORB has 32.
const FEW: usize = 32;

/// How a transaction ended, by the rcode of its response and the value in it.
fn ending_by(rcode: u8, value: u32) -> Ending
    ensures { result ≡ ending_by rcode value }
{
    if rcode == COMPLETE {
        return Ending::Complete { value };
    }
    Ending::Refused { rcode }
}

/// How a response ends its transaction.
fn ending_of(packet: &PacketRef<'_>) -> Ending
    ensures { result ≡ ending_of (view packet.now) }
{
    match packet {
        PacketRef::ReadQuadletResponse { rcode, value, .. } => ending_by(*rcode, *value),
        PacketRef::ReadBlockResponse { rcode, .. }
        | PacketRef::LockResponse { rcode, .. }
        | PacketRef::WriteResponse { rcode, .. } => ending_by(*rcode, 0),
        _ => Ending::Expired,
    }
}

/// The operation under way, where this is the address of its management ORB.
fn present_for(orb: Offset, operation: Option<Running>) -> Option<Running>
    ensures { result ≡ present_for orb operation }
{
    if is_present_orb(orb, &operation) {
        return operation;
    }
    None
}

impl InitiatorState {
    /// Answers a request, and remembers it.
    pub(crate) fn respond(
        &mut self,
        alloc: Global,
        packet: &PacketRef<'_>,
        bytes: &[u8],
        rcode: u8,
        given: &[u8],
        outbox: &mut Outbox,
    ) -> Result<(), NoMemory>
        requires request { IsRequestOf bytes.now (view packet.now) }
        requires rcode { rcode < 2 ^ 4 }
        requires given { Gives (view packet.now) rcode given.now }
        ensures step { OnOk result ((outbox.new, self.new) ≡ respond_step (view packet.now) bytes.now rcode given.now (outbox.old, self.old)) }
        ensures counts { self.new.counts ≡ self.old.counts }
        ensures lists { self.new.lists ≡ self.old.lists }
        ensures labels { self.new.layer.calls ≤ self.old.layer.calls }
    {
        let response = self.layer.answer(alloc, packet, bytes, rcode, given)?;
        outbox.send(Outgoing {
            to: packet.header().source,
            label: None,
            bytes: response,
        })
    }

    /// Ignores a request, and answers it with an rcode and no bytes.
    fn ignore(
        &mut self,
        alloc: Global,
        packet: &PacketRef<'_>,
        bytes: &[u8],
        cause: Cause,
        rcode: u8,
        outbox: &mut Outbox,
    ) -> Result<Judged, NoMemory>
        requires request { IsRequestOf bytes.now (view packet.now) }
        requires rcode { rcode < 2 ^ 4 }
        requires given { Gives (view packet.now) rcode [] }
        ensures step { IfOk result (λ judged. (judged, (outbox.new, self.new)) ≡ ignored_step cause rcode (view packet.now) bytes.now (outbox.old, self.old)) }
        ensures counts { Counts self.old self.new }
    {
        self.respond(alloc, packet, bytes, rcode, &[], outbox)?;
        Ok(Judged::Ignored(cause))
    }

    /// Ignores a request, and answers it with an rcode other than complete.
    fn refuse(
        &mut self,
        alloc: Global,
        packet: &PacketRef<'_>,
        bytes: &[u8],
        cause: Cause,
        rcode: u8,
        outbox: &mut Outbox,
    ) -> Result<Judged, NoMemory>
        requires request { IsRequestOf bytes.now (view packet.now) }
        requires rcode { rcode < 2 ^ 4 }
        requires other { 0 < rcode }
        ensures step { IfOk result (λ judged. (judged, (outbox.new, self.new)) ≡ ignored_step cause rcode (view packet.now) bytes.now (outbox.old, self.old)) }
        ensures counts { Counts self.old self.new }
    {
        self.ignore(alloc, packet, bytes, cause, rcode, outbox)
    }

    /// A write was got, and is answered complete.
    fn complete(
        &mut self,
        alloc: Global,
        packet: &PacketRef<'_>,
        bytes: &[u8],
        outbox: &mut Outbox,
    ) -> Result<Judged, NoMemory>
        requires request { IsRequestOf bytes.now (view packet.now) }
        requires given { Gives (view packet.now) 0 [] }
        ensures step { IfOk result (λ judged. (judged, (outbox.new, self.new)) ≡ got_step (view packet.now) bytes.now (outbox.old, self.old)) }
        ensures counts { self.new.counts ≡ self.old.counts }
        ensures lists { self.new.lists ≡ self.old.lists }
        ensures labels { self.new.layer.calls ≤ self.old.layer.calls }
    {
        self.respond(alloc, packet, bytes, COMPLETE, &[], outbox)?;
        Ok(Judged::Got)
    }

    /// Counts a call.
    fn call(&mut self)
        requires { self.old.counts.calls < 2 ^ 48 }
        ensures { self.new ≡ called self.old }
    {
        self.counts.calls += 1;
    }

    /// What a status of an ORB brings.
    fn answer_of(&self, alloc: Global, kind: StatusKind, slot: u8) -> Result<Bytes, NoMemory>
        requires { slot < 32 }
        ensures { IfOk result (λ bytes. bytes ≡ answer_of kind self.now.lists slot) }
    {
        match kind {
            StatusKind::Good => self.lists.answer(alloc, slot),
            _ => Ok(Bytes::new(alloc)),
        }
    }

    /// Tells a status that was taken, and marks the list where it has the dead bit.
    fn note_taken(
        &mut self,
        alloc: Global,
        ticket: &Ticket,
        kind: StatusKind,
        outbox: &mut Outbox,
    ) -> Result<(), NoMemory>
        ensures step { OnOk result ((outbox.new, self.new) ≡ taken_by ticket.now self.old.lists kind outbox.old self.old) }
        ensures counts { self.new.counts ≡ self.old.counts }
        ensures lists { self.new.lists ≡ self.old.lists }
        ensures labels { self.new.layer ≡ self.old.layer }
    {
        let answer = self.answer_of(alloc, kind, ticket.slot())?;
        if is_dead_kind(kind) {
            self.marks.is_dead = true;
        }
        tell(
            outbox,
            Note::Taken {
                initiator: self.number,
                list: ticket.list(),
                orb: ticket.number(),
                status: kind,
                answer,
            },
        )
    }

    /// The status of an ORB that is none of management.
    fn take(
        &mut self,
        alloc: Global,
        block: &StatusBlock,
        packet: &PacketRef<'_>,
        bytes: &[u8],
        outbox: &mut Outbox,
    ) -> Result<Judged, NoMemory>
        requires request { IsRequestOf bytes.now (view packet.now) }
        requires given { Gives (view packet.now) 0 [] }
        requires calls { self.old.counts.calls < 2 ^ 48 }
        requires called { self.old.lists.slots.calls < 2 ^ 55 }
        ensures step { IfOk result (λ judged. (judged, (outbox.new, self.new)) ≡ taken_as (take_lists self.old.lists block.now) block.now.kind (view packet.now) bytes.now outbox.old self.old) }
        ensures counts { Counts self.old self.new }
    {
        let Some(ticket) = self.lists.take_status(block) else {
            return self.ignore(alloc, packet, bytes, Cause::Slot, COMPLETE, outbox);
        };
        self.call();
        self.note_taken(alloc, &ticket, block.kind, outbox)?;
        self.complete(alloc, packet, bytes, outbox)
    }

    /// The status of a management ORB.
    fn take_managed(
        &mut self,
        alloc: Global,
        orb: Offset,
        status: u8,
        packet: &PacketRef<'_>,
        bytes: &[u8],
        outbox: &mut Outbox,
    ) -> Result<Judged, NoMemory>
        requires request { IsRequestOf bytes.now (view packet.now) }
        requires given { Gives (view packet.now) 0 [] }
        requires calls { self.old.counts.calls < 2 ^ 48 }
        requires called { self.old.lists.slots.calls < 2 ^ 55 }
        ensures step { IfOk result (λ judged. (judged, (outbox.new, self.new)) ≡ managed_for (present_for orb self.old.operation) status (view packet.now) bytes.now outbox.old self.old) }
        ensures counts { Counts self.old self.new }
    {
        let Some(running) = present_for(orb, self.operation) else {
            return self.ignore(alloc, packet, bytes, Cause::Slot, COMPLETE, outbox);
        };
        self.call();
        self.managed(running, status, outbox)?;
        self.complete(alloc, packet, bytes, outbox)
    }

    /// A status block, by its row.
    fn block(
        &mut self,
        alloc: Global,
        payload: &[u8],
        packet: &PacketRef<'_>,
        bytes: &[u8],
        outbox: &mut Outbox,
    ) -> Result<Judged, NoMemory>
        requires request { IsRequestOf bytes.now (view packet.now) }
        requires given { Gives (view packet.now) 0 [] }
        requires refused { Gives (view packet.now) 5 [] }
        requires calls { self.old.counts.calls < 2 ^ 48 }
        requires called { self.old.lists.slots.calls < 2 ^ 55 }
        ensures step { IfOk result (λ judged. (judged, (outbox.new, self.new)) ≡ block_step (status_in payload.now) (view packet.now) bytes.now outbox.old self.old) }
        ensures counts { Counts self.old self.new }
    {
        let Ok(block) = read_status(payload, names_place(payload)) else {
            return self.ignore(alloc, packet, bytes, Cause::Grammar, DATA_ERROR, outbox);
        };
        match block.kind {
            StatusKind::Management(status) => {
                self.take_managed(alloc, block.orb, status, packet, bytes, outbox)
            }
            _ => self.take(alloc, &block, packet, bytes, outbox),
        }
    }

    /// A block that is written to an open FIFO: to that of a login it may be the unsolicited status
    /// block.
    fn status(
        &mut self,
        alloc: Global,
        is_login: bool,
        payload: &[u8],
        packet: &PacketRef<'_>,
        bytes: &[u8],
        outbox: &mut Outbox,
    ) -> Result<Judged, NoMemory>
        requires request { IsRequestOf bytes.now (view packet.now) }
        requires given { Gives (view packet.now) 0 [] }
        requires refused { Gives (view packet.now) 5 [] }
        requires calls { self.old.counts.calls < 2 ^ 48 }
        requires called { self.old.lists.slots.calls < 2 ^ 55 }
        ensures step { IfOk result (λ judged. (judged, (outbox.new, self.new)) ≡ status_step is_login payload.now (view packet.now) bytes.now outbox.old self.old) }
        ensures counts { Counts self.old self.new }
    {
        if !is_login || read_unsolicited(payload).is_none() {
            return self.block(alloc, payload, packet, bytes, outbox);
        }
        tell(
            outbox,
            Note::Told {
                initiator: self.number,
            },
        )?;
        self.call();
        self.complete(alloc, packet, bytes, outbox)
    }

    /// A request for the memory was got, and is answered with an rcode and what it is given.
    fn got(
        &mut self,
        alloc: Global,
        packet: &PacketRef<'_>,
        bytes: &[u8],
        rcode: u8,
        given: &[u8],
        outbox: &mut Outbox,
    ) -> Result<Judged, NoMemory>
        requires request { IsRequestOf bytes.now (view packet.now) }
        requires rcode { rcode < 2 ^ 4 }
        requires given { Gives (view packet.now) rcode given.now }
        requires calls { self.old.counts.calls < 2 ^ 48 }
        ensures step { IfOk result (λ judged. (judged, (outbox.new, self.new)) ≡ read_as (rcode, given.now) (view packet.now) bytes.now outbox.old self.old) }
        ensures counts { Counts self.old self.new }
    {
        self.call();
        self.respond(alloc, packet, bytes, rcode, given, outbox)?;
        Ok(Judged::Got)
    }

    /// A read of the memory.
    #[tactic(auto, using(crate::proofs::Zeros::few_zeros))]
    fn read(
        &mut self,
        alloc: Global,
        offset: Offset,
        count: usize,
        packet: &PacketRef<'_>,
        bytes: &[u8],
        outbox: &mut Outbox,
    ) -> Result<Judged, NoMemory>
        requires request { IsRequestOf bytes.now (view packet.now) }
        requires calls { self.old.counts.calls < 2 ^ 48 }
        requires given { (out : List ℕ) (rcode : ℕ) → length out ≡ count → Gives (view packet.now) rcode out }
        ensures step { IfOk result (λ judged. (judged, (outbox.new, self.new)) ≡ read_as (read_step self.old.lists.memory offset (replicate count 0)) (view packet.now) bytes.now outbox.old self.old) }
        ensures counts { Counts self.old self.new }
    {
        if count <= FEW {
            let mut few = [0; FEW];
            return self.read_into(alloc, offset, &mut few[..count], packet, bytes, outbox);
        }
        let mut out = vec![in alloc; 0; count]?;
        self.read_into(alloc, offset, &mut out, packet, bytes, outbox)
    }

    /// The same, into room for as many bytes.
    fn read_into(
        &mut self,
        alloc: Global,
        offset: Offset,
        out: &mut [u8],
        packet: &PacketRef<'_>,
        bytes: &[u8],
        outbox: &mut Outbox,
    ) -> Result<Judged, NoMemory>
        requires request { IsRequestOf bytes.now (view packet.now) }
        requires calls { self.old.counts.calls < 2 ^ 48 }
        requires given { (given : List ℕ) (rcode : ℕ) → length given ≡ length out.old → Gives (view packet.now) rcode given }
        ensures step { IfOk result (λ judged. (judged, (outbox.new, self.new)) ≡ read_as (read_step self.old.lists.memory offset out.old) (view packet.now) bytes.now outbox.old self.old) }
        ensures counts { Counts self.old self.new }
    {
        let rcode = self.lists.serve_read(offset, out);
        self.got(alloc, packet, bytes, rcode, out, outbox)
    }

    /// A write of the memory.
    fn write(
        &mut self,
        alloc: Global,
        offset: Offset,
        payload: &[u8],
        packet: &PacketRef<'_>,
        bytes: &[u8],
        outbox: &mut Outbox,
    ) -> Result<Judged, NoMemory>
        requires request { IsRequestOf bytes.now (view packet.now) }
        requires calls { self.old.counts.calls < 2 ^ 48 }
        requires given { (rcode : ℕ) → Gives (view packet.now) rcode [] }
        ensures step { IfOk result (λ judged. (judged, (outbox.new, self.new)) ≡ written_as (write_lists self.old.lists offset payload.now) (view packet.now) bytes.now outbox.old self.old) }
        ensures counts { Counts self.old self.new }
    {
        let rcode = self.lists.serve_write(offset, payload);
        self.got(alloc, packet, bytes, rcode, &[], outbox)
    }

    /// A request for the memory; no lock is served.
    fn serve(
        &mut self,
        alloc: Global,
        packet: &PacketRef<'_>,
        bytes: &[u8],
        outbox: &mut Outbox,
    ) -> Result<Judged, NoMemory>
        requires request { IsRequestOf bytes.now (view packet.now) }
        requires calls { self.old.counts.calls < 2 ^ 48 }
        ensures step { IfOk result (λ judged. (judged, (outbox.new, self.new)) ≡ serve_step (view packet.now) bytes.now outbox.old self.old) }
        ensures counts { Counts self.old self.new }
    {
        match packet {
            PacketRef::ReadQuadlet { offset, .. } => {
                self.read(alloc, *offset, 4, packet, bytes, outbox)
            }
            PacketRef::ReadBlock { offset, length, .. } => {
                self.read(alloc, *offset, usize::from(*length), packet, bytes, outbox)
            }
            PacketRef::WriteQuadlet { offset, value, .. } => {
                self.write(
                    alloc,
                    *offset,
                    &bytes_of_quad(*value),
                    packet,
                    bytes,
                    outbox,
                )
            }
            PacketRef::WriteBlock {
                offset,
                payload,
                ..
            } => self.write(alloc, *offset, payload, packet, bytes, outbox),
            _ => self.got(alloc, packet, bytes, TYPE_ERROR, &[], outbox),
        }
    }

    /// Whether a request is none that the initiator serves its source: one of another node than the
    /// target, and no read inside the ROM.
    fn is_foreign(&self, packet: &PacketRef<'_>) -> bool
        ensures { result ≡ is_foreign (view packet.now) self.now }
    {
        !reads_rom(packet) && packet.header().source != self.target
    }

    /// The FIFO at an address.
    fn fifo_of(&self, offset: Offset) -> Option<Fifo>
        ensures { result ≡ fifo_of self.now offset }
    {
        fifo_at(self.counts.logins, self.seat.is_out(), offset)
    }

    /// The write of a block.
    fn write_block(
        &mut self,
        alloc: Global,
        offset: Offset,
        payload: &[u8],
        packet: &PacketRef<'_>,
        bytes: &[u8],
        outbox: &mut Outbox,
    ) -> Result<Judged, NoMemory>
        requires request { IsRequestOf bytes.now (view packet.now) }
        requires given { (rcode : ℕ) → Gives (view packet.now) rcode [] }
        requires calls { self.old.counts.calls < 2 ^ 48 }
        requires called { self.old.lists.slots.calls < 2 ^ 55 }
        ensures step { IfOk result (λ judged. (judged, (outbox.new, self.new)) ≡ block_at (fifo_of self.old offset) payload.now (view packet.now) bytes.now outbox.old self.old) }
        ensures counts { Counts self.old self.new }
    {
        match self.fifo_of(offset) {
            None => self.serve(alloc, packet, bytes, outbox),
            Some(Fifo::Closed) => {
                self.refuse(alloc, packet, bytes, Cause::Login, ADDRESS_ERROR, outbox)
            }
            Some(Fifo::Login) => self.status(alloc, true, payload, packet, bytes, outbox),
            Some(Fifo::Place) => self.status(alloc, false, payload, packet, bytes, outbox),
        }
    }

    /// A request, by its address.
    fn addressed(
        &mut self,
        alloc: Global,
        packet: &PacketRef<'_>,
        bytes: &[u8],
        outbox: &mut Outbox,
    ) -> Result<Judged, NoMemory>
        requires request { IsRequestOf bytes.now (view packet.now) }
        requires calls { self.old.counts.calls < 2 ^ 48 }
        requires called { self.old.lists.slots.calls < 2 ^ 55 }
        ensures step { IfOk result (λ judged. (judged, (outbox.new, self.new)) ≡ addressed (view packet.now) bytes.now outbox.old self.old) }
        ensures counts { Counts self.old self.new }
    {
        match packet {
            PacketRef::WriteBlock {
                offset,
                payload,
                ..
            } => self.write_block(alloc, *offset, payload, packet, bytes, outbox),
            PacketRef::WriteQuadlet { offset, .. } => match self.fifo_of(*offset) {
                Some(Fifo::Closed) => {
                    self.refuse(alloc, packet, bytes, Cause::Login, ADDRESS_ERROR, outbox)
                }
                _ => self.serve(alloc, packet, bytes, outbox),
            },
            _ => self.serve(alloc, packet, bytes, outbox),
        }
    }

    /// A request.
    fn request(
        &mut self,
        alloc: Global,
        packet: &PacketRef<'_>,
        bytes: &[u8],
        outbox: &mut Outbox,
    ) -> Result<Judged, NoMemory>
        requires request { IsRequestOf bytes.now (view packet.now) }
        requires calls { self.old.counts.calls < 2 ^ 48 }
        requires called { self.old.lists.slots.calls < 2 ^ 55 }
        ensures step { IfOk result (λ judged. (judged, (outbox.new, self.new)) ≡ request_step (view packet.now) bytes.now outbox.old self.old) }
        ensures counts { Counts self.old self.new }
    {
        if self.is_foreign(packet) {
            return self.refuse(alloc, packet, bytes, Cause::Source, ADDRESS_ERROR, outbox);
        }
        self.addressed(alloc, packet, bytes, outbox)
    }

    /// A transaction ended, which was for this, or for nobody.
    fn ended_for(
        &mut self,
        alloc: Global,
        purpose: Option<Purpose>,
        ending: Ending,
        outbox: &mut Outbox,
    ) -> Result<(), NoMemory>
        requires calls { self.old.counts.calls < 2 ^ 48 }
        requires called { self.old.lists.slots.calls < 2 ^ 55 }
        requires labelled { self.old.layer.calls < 2 ^ 55 }
        ensures step { OnOk result ((outbox.new, self.new) ≡ ended_for purpose ending outbox.old (called self.old)) }
        ensures counts { Counts self.old self.new }
        ensures labels { self.new.layer.calls + 4 * self.old.counts.calls + 1 ≤ self.old.layer.calls + 4 * self.new.counts.calls }
    {
        self.call();
        match purpose {
            Some(purpose) => self.ended(alloc, purpose, ending, outbox),
            None => Ok(()),
        }
    }

    /// Judges a packet by the rows of the transaction layer.
    fn judge<'a>(&mut self, generation: Generation, bytes: &'a [u8]) -> Judgement<'a, Purpose>
        requires { self.old.layer.calls < 2 ^ 54 }
        ensures step { (finding_of result, self.new.layer) ≡ judging_step self.old.layer generation bytes.now }
        ensures keeps { self.new ≡ record self.old { layer = self.new.layer } }
        ensures lent { IsLent bytes.now (finding_of result) }
        ensures same { IsSame (finding_of result) self.old.layer self.new.layer }
        ensures again { AgainGives (finding_of result) }
        ensures count { self.new.layer.calls ≤ self.old.layer.calls + 1 }
    {
        self.layer.judge(generation, bytes)
    }

    /// Receives a packet of a generation.
    #[tactic(auto, unfolding(crate::specs::Receiving::receive_step))]
    pub(crate) fn receive(
        &mut self,
        alloc: Global,
        generation: Generation,
        bytes: &[u8],
        outbox: &mut Outbox,
    ) -> Result<Judged, NoMemory>
        requires calls { self.old.counts.calls < 2 ^ 48 }
        requires called { self.old.lists.slots.calls < 2 ^ 55 }
        requires labelled { self.old.layer.calls < 2 ^ 54 }
        ensures step { IfOk result (λ judged. (judged, (outbox.new, self.new)) ≡ receive_step generation bytes.now outbox.old self.old) }
        ensures counts { Counts self.old self.new }
    {
        match self.judge(generation, bytes) {
            Judgement::Generation => Ok(Judged::Ignored(Cause::Generation)),
            Judgement::Grammar => Ok(Judged::Ignored(Cause::Grammar)),
            Judgement::Label => Ok(Judged::Ignored(Cause::Label)),
            Judgement::Response {
                packet,
                purpose,
                ..
            } => {
                self.ended_for(alloc, purpose, ending_of(&packet), outbox)?;
                Ok(Judged::Got)
            }
            Judgement::Again { packet, rcode } => {
                self.ignore(alloc, &packet, bytes, Cause::Again, rcode, outbox)
            }
            Judgement::Request { packet } => self.request(alloc, &packet, bytes, outbox),
        }
    }

    /// Lets a request expire.
    #[tactic(auto, unfolding(crate::specs::Receiving::expire_step))]
    pub(crate) fn expire(
        &mut self,
        alloc: Global,
        label: Label,
        outbox: &mut Outbox,
    ) -> Result<(), TargetFault>
        requires calls { self.old.counts.calls < 2 ^ 48 }
        requires called { self.old.lists.slots.calls < 2 ^ 55 }
        requires labelled { self.old.layer.calls < 2 ^ 54 }
        ensures step { HasExpired result (outbox.new, self.new) (expire_step label outbox.old self.old) }
        ensures counts { Counts self.old self.new }
    {
        let Ok(purpose) = self.layer.expire(self.target, label) else {
            return Err(TargetFault::Stale);
        };
        match self.ended_for(alloc, purpose, Ending::Expired, outbox) {
            Ok(()) => Ok(()),
            Err(NoMemory) => Err(TargetFault::NoMemory),
        }
    }
}
