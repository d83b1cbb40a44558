ghost use Rattle.std.specs.Prelude.{◌≡◌, OnOk};
ghost use Rattle.std.specs.Option.{option_copied};
ghost use Rattle.packet_store.specs.Kept.{found_sent, is_flying};
ghost use Rattle.sbp_bus.specs.Buses.{with_note};
ghost use Rattle.sbp_bus.specs.Packets.{judged_as, judged_note, lose_line, marked, may_repeat, no_packet, refused};
ghost use Rattle.sbp_bus.specs.Requests.{find};
ghost use Rattle.sbp_journal.specs.declared.note.Note.TheVariants as notes;

use super::{Bus, STORE_CALLS};
use crate::requests::Request;
use packet_store::Sent;
use sbp_base::NoMemory;
use sbp_journal::{Judged, Note};

/// The number of the refusal of a packet that can't be delivered, repeated, lost or timed out.
const NO_PACKET: u8 = 11;

/// For how many serials a packet may be repeated.
const KEPT_SERIALS: u64 = 1024;

/// The note of how a packet was judged.
fn judged_note(serial: u64, judged: Judged) -> Note
    ensures { result ≡ judged_note serial judged }
{
    match judged {
        Judged::Got => Note::Got { serial },
        Judged::Ignored(cause) => Note::Ignored { serial, cause },
    }
}

impl Bus {
    /// Whether a packet is in flight.
    pub fn is_in_flight(&self, serial: u64) -> bool
        ensures { result ≡ is_flying serial self.now.store.kept }
    {
        self.store.is_in_flight(serial)
    }

    /// Whether a packet may come once more: it is in flight or was delivered, and is among the last 1,024
    /// serials.
    pub fn may_repeat(&self, serial: u64) -> bool
        ensures { result ≡ may_repeat serial self.now.store }
    {
        self.last.saturating_sub(KEPT_SERIALS) < serial && self.store.get(serial).is_some()
    }

    /// The packet of a serial, where it is kept.
    pub fn packet(&self, serial: u64) -> Option<&Sent>
        ensures { option_copied result ≡ found_sent serial self.now.store.kept }
    {
        self.store.get(serial)
    }

    /// The request with a serial, where it is the latest one of its node to its peer under its label.
    pub fn request(&self, serial: u64) -> Option<Request>
        ensures { result ≡ find self.now.requests serial }
    {
        self.requests.find(serial)
    }

    /// A refused action: nothing changes but the journal.
    pub fn refuse(&mut self, line: u32, number: u8) -> Result<(), NoMemory>
        ensures step { OnOk result (self.new ≡ refused line number self.old) }
        ensures known { self.new.generations ≡ self.old.generations }
    {
        self.fresh.push(Note::Refused { line, number })
    }

    /// A packet can't be delivered, repeated, lost or timed out: nothing changes but the journal.
    pub fn refuse_packet(&mut self, line: u32) -> Result<(), NoMemory>
        ensures step { OnOk result (self.new ≡ refused line no_packet self.old) }
        ensures known { self.new.generations ≡ self.old.generations }
    {
        self.refuse(line, NO_PACKET)
    }

    /// A packet that was in flight is delivered now. One that comes once more stays as it is.
    #[inline(always)]
    fn mark(&mut self, serial: u64, again: bool) -> Result<(), NoMemory>
        ensures step { OnOk result (self.new ≡ marked serial again self.old) }
        ensures known { self.new.generations ≡ self.old.generations }
    {
        if again || !self.store.is_in_flight(serial) {
            return Ok(());
        }
        if self.store.calls() >= STORE_CALLS {
            return Err(NoMemory);
        }
        self.store.delivered(serial);
        Ok(())
    }

    /// A packet came to its node, which judged it so; it is delivered from then on, but stays as it is
    /// where it came once more. Want of memory is answered too where the store counts no further call.
    #[tactic(auto, unfolding(crate::specs::Packets::judged_as))]
    #[inline(always)]
    pub fn judge(&mut self, serial: u64, again: bool, judged: Judged) -> Result<(), NoMemory>
        ensures step { OnOk result (self.new ≡ judged_as serial again judged self.old) }
        ensures known { self.new.generations ≡ self.old.generations }
    {
        self.mark(serial, again)?;
        self.fresh.push(judged_note(serial, judged))
    }

    /// A packet in flight is lost, or this is refused. Want of memory is answered too where the store
    /// counts no further call.
    #[tactic(auto, unfolding(crate::specs::Packets::lose_line))]
    pub fn lose(&mut self, line: u32, serial: u64) -> Result<(), NoMemory>
        ensures step { OnOk result (self.new ≡ lose_line line serial self.old) }
        ensures known { self.new.generations ≡ self.old.generations }
    {
        if !self.store.is_in_flight(serial) {
            return self.refuse_packet(line);
        }
        if self.store.calls() >= STORE_CALLS {
            return Err(NoMemory);
        }
        self.store.lost(serial);
        self.fresh.push(Note::Lost { serial })
    }

    /// The transaction of a request timed out; its packet stays as it is.
    pub fn time_out(&mut self, serial: u64) -> Result<(), NoMemory>
        ensures step { OnOk result (self.new ≡ with_note (notes.TimedOut serial) self.old) }
        ensures known { self.new.generations ≡ self.old.generations }
    {
        self.fresh.push(Note::TimedOut { serial })
    }
}
