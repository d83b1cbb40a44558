//! What the end of a transaction does (NCITS 325-1998, sessions, operations and lists).
ghost use Rattle.std.specs.Prelude.{◌≡◌, ◌^◌, ◌<◌, OnOk};
ghost use Rattle.config_rom.specs.Unit.{sbp_unit_of};
ghost use Rattle.sbp_initiator.specs.Effects.{Keeps, ask_quad, conflict_step, doorbell_ended, drop_list_step, enable_ended, end_own_step, end_step, ended_step, fail_step, fault_number, finish_rom, good_end, good_event, good_word, known_step, managed_step, management_ended, moved, moves_session, pointed_step, pointer_ended, quad_got, reset_ended, response_of, rom_ended, state_ended, state_told, stick_step, told, with_request, with_unit};
ghost use Rattle.sbp_initiator.specs.States.{counts_for};
ghost use Rattle.sbp_journal.specs.declared.note.Note.TheVariants as notes;

use crate::purpose::{Ending, ListMarks, Pointing, Purpose, Running};
use crate::refusals::ends_list;
use crate::state::{InitiatorState, is_list};
use config_rom::{Rom, RomFault, parse, sbp_unit};
use initiator_base::places::{login_response, management_at, quad_place};
use label_table::{Asked, RequestBody};
use orb_layout::QueryResponse;
use orb_list::PresentList;
use sbp_base::{NoMemory, NodeId};
use sbp_journal::{Note, OpWord, Operation, Outbox, Outgoing, Side};
use sbp_session::in_place;
use std::alloc::Global;

/// conflict_error and address_error (IEEE 1394-1995, response codes).
const CONFLICT: u8 = 4;

const ADDRESS: u8 = 7;

/// The most quadlets of a configuration ROM.
const LARGEST: u32 = 256;

/// Tells a note of the initiator.
#[inline(always)]
pub(crate) fn tell(outbox: &mut Outbox, note: Note) -> Result<(), NoMemory>
    ensures { OnOk result (outbox.new ≡ told outbox.old note) }
{
    outbox.tell(Side::Own(note))
}

/// Sends a request to the target.
pub(crate) fn send_request(
    outbox: &mut Outbox,
    target: NodeId,
    asked: Asked,
) -> Result<(), NoMemory>
    ensures { OnOk result (outbox.new ≡ with_request outbox.old target asked) }
{
    outbox.send(Outgoing {
        to: target,
        label: Some(asked.label),
        bytes: asked.bytes,
    })
}

/// Whether an operation moves the session.
fn moves_session(operation: Operation) -> bool
    ensures { result ≡ moves_session operation }
{
    matches!(
        operation,
        Operation::Login | Operation::Reconnect | Operation::Logout
    )
}

/// The number of a fault of a configuration ROM.
fn fault_number(fault: RomFault) -> u8
    ensures { result ≡ fault_number fault }
{
    match fault {
        RomFault::Short { .. } => 1,
        RomFault::Name => 2,
        RomFault::Entry { .. } => 3,
        RomFault::Outside { .. } => 4,
        RomFault::NoMemory => 0,
    }
}

impl InitiatorState {
    /// A write of its own failed: the session is stuck.
    fn stick(&mut self, outbox: &mut Outbox) -> Result<(), NoMemory>
        ensures step { OnOk result ((outbox.new, self.new) ≡ stick_step outbox.old self.old) }
        ensures keeps { Keeps 0 0 self.old self.new }
    {
        let was_stuck = self.seat.is_stuck();
        in_place::stick(&mut self.seat);
        if was_stuck {
            return Ok(());
        }
        tell(
            outbox,
            Note::Stuck {
                initiator: self.number,
            },
        )
    }

    /// Drops the present list, where there is one.
    pub(crate) fn drop_list(&mut self, outbox: &mut Outbox) -> Result<(), NoMemory>
        requires calls { self.old.lists.slots.calls < 2 ^ 56 }
        ensures step { OnOk result ((outbox.new, self.new) ≡ drop_list_step outbox.old self.old) }
        ensures keeps { Keeps 1 0 self.old self.new }
    {
        let Some(list) = self.lists.drop_list() else {
            return Ok(());
        };
        self.marks = ListMarks::none();
        tell(
            outbox,
            Note::Drop {
                initiator: self.number,
                list,
            },
        )
    }

    /// The operation under way ends, and with it the pin of an abort.
    fn end(
        &mut self,
        operation: Operation,
        word: OpWord,
        outbox: &mut Outbox,
    ) -> Result<(), NoMemory>
        requires calls { self.old.lists.slots.calls < 2 ^ 56 }
        ensures step { OnOk result ((outbox.new, self.new) ≡ end_step operation word outbox.old self.old) }
        ensures keeps { Keeps 1 0 self.old self.new }
    {
        self.operation = None;
        self.lists.unpin();
        tell(
            outbox,
            Note::Op {
                initiator: self.number,
                operation,
                word,
            },
        )
    }

    /// The operation under way ends, where an action began it.
    fn end_own(&mut self, act: u32, word: OpWord, outbox: &mut Outbox) -> Result<(), NoMemory>
        requires calls { self.old.lists.slots.calls < 2 ^ 56 }
        ensures step { OnOk result ((outbox.new, self.new) ≡ end_own_step act word outbox.old self.old) }
        ensures keeps { Keeps 1 0 self.old self.new }
    {
        match self.operation {
            Some(running) if running.act == act => self.end(running.operation, word, outbox),
            _ => Ok(()),
        }
    }

    /// An operation whose write failed ends, and the session is stuck.
    fn fail(&mut self, act: u32, outbox: &mut Outbox) -> Result<(), NoMemory>
        requires calls { self.old.lists.slots.calls < 2 ^ 56 }
        ensures step { OnOk result ((outbox.new, self.new) ≡ fail_step act outbox.old self.old) }
        ensures keeps { Keeps 1 0 self.old self.new }
    {
        self.end_own(act, OpWord::Error, outbox)?;
        self.stick(outbox)
    }

    /// The write to ORB_POINTER of a list ended.
    fn pointer_ended(
        &mut self,
        list: u32,
        ending: Ending,
        outbox: &mut Outbox,
    ) -> Result<(), NoMemory>
        ensures step { OnOk result ((outbox.new, self.new) ≡ pointer_ended list ending outbox.old self.old) }
        ensures keeps { Keeps 0 0 self.old self.new }
    {
        match ending {
            Ending::Complete { .. } => {
                in_place::answer(&mut self.seat);
                if is_list(&self.lists.present(), list) {
                    self.marks.pointing = Pointing::Answered;
                }
                Ok(())
            }
            Ending::Refused { .. } | Ending::Expired => self.stick(outbox),
        }
    }

    /// A write to DOORBELL ended.
    fn doorbell_ended(&mut self, ending: Ending, outbox: &mut Outbox) -> Result<(), NoMemory>
        ensures step { OnOk result ((outbox.new, self.new) ≡ doorbell_ended ending outbox.old self.old) }
        ensures keeps { Keeps 0 0 self.old self.new }
    {
        match ending {
            Ending::Complete { .. } => Ok(()),
            Ending::Refused { .. } | Ending::Expired => self.stick(outbox),
        }
    }

    /// A write to AGENT_RESET ended.
    fn reset_ended(&mut self, act: u32, ending: Ending, outbox: &mut Outbox) -> Result<(), NoMemory>
        requires calls { self.old.lists.slots.calls < 2 ^ 55 }
        ensures step { OnOk result ((outbox.new, self.new) ≡ reset_ended act ending outbox.old self.old) }
        ensures keeps { Keeps 2 0 self.old self.new }
    {
        match ending {
            Ending::Complete { .. } => {
                self.drop_list(outbox)?;
                self.end_own(act, OpWord::Done, outbox)
            }
            Ending::Refused { .. } | Ending::Expired => self.fail(act, outbox),
        }
    }

    /// A write to UNSOLICITED_STATUS_ENABLE ended.
    fn enable_ended(
        &mut self,
        act: u32,
        ending: Ending,
        outbox: &mut Outbox,
    ) -> Result<(), NoMemory>
        requires calls { self.old.lists.slots.calls < 2 ^ 56 }
        ensures step { OnOk result ((outbox.new, self.new) ≡ enable_ended act ending outbox.old self.old) }
        ensures keeps { Keeps 1 0 self.old self.new }
    {
        match ending {
            Ending::Complete { .. } => self.end_own(act, OpWord::Done, outbox),
            Ending::Refused { .. } | Ending::Expired => self.fail(act, outbox),
        }
    }

    /// The write to MANAGEMENT_AGENT of an operation was answered conflict_error.
    fn conflict(&mut self, act: u32, outbox: &mut Outbox) -> Result<(), NoMemory>
        requires calls { self.old.lists.slots.calls < 2 ^ 56 }
        ensures step { OnOk result ((outbox.new, self.new) ≡ conflict_step act outbox.old self.old) }
        ensures keeps { Keeps 1 0 self.old self.new }
    {
        match self.operation {
            Some(running) if running.act == act => {
                if moves_session(running.operation) {
                    in_place::conflict(&mut self.seat);
                }
                self.end(running.operation, OpWord::Conflict, outbox)
            }
            _ => Ok(()),
        }
    }

    /// A write to MANAGEMENT_AGENT ended.
    fn management_ended(
        &mut self,
        act: u32,
        ending: Ending,
        outbox: &mut Outbox,
    ) -> Result<(), NoMemory>
        requires calls { self.old.lists.slots.calls < 2 ^ 56 }
        ensures step { OnOk result ((outbox.new, self.new) ≡ management_ended act ending outbox.old self.old) }
        ensures keeps { Keeps 1 0 self.old self.new }
    {
        match ending {
            Ending::Complete { value: _ } => Ok(()),
            Ending::Refused { rcode } if rcode == CONFLICT => self.conflict(act, outbox),
            Ending::Refused { .. } | Ending::Expired => self.fail(act, outbox),
        }
    }

    /// A management operation ends by its status.
    pub(crate) fn managed(
        &mut self,
        running: Running,
        status: u8,
        outbox: &mut Outbox,
    ) -> Result<(), NoMemory>
        requires calls { self.old.lists.slots.calls < 2 ^ 55 }
        ensures step { OnOk result ((outbox.new, self.new) ≡ managed_step running status outbox.old self.old) }
        ensures keeps { Keeps 2 0 self.old self.new }
    {
        if status != 0 {
            if moves_session(running.operation) {
                in_place::end(&mut self.seat, status);
            }
            return self.end(running.operation, OpWord::Refused(status), outbox);
        }
        if ends_list(Some(running.operation)) {
            self.drop_list(outbox)?;
        }
        self.done(running, outbox)
    }

    /// A management operation ends with status 00.
    fn done(&mut self, running: Running, outbox: &mut Outbox) -> Result<(), NoMemory>
        requires calls { self.old.lists.slots.calls < 2 ^ 56 }
        ensures step { OnOk result ((outbox.new, self.new) ≡ good_end running outbox.old self.old) }
        ensures keeps { Keeps 1 0 self.old self.new }
    {
        let word = self.good_word(&running);
        self.move_by(&running);
        self.end(running.operation, word, outbox)
    }

    /// How an operation with status 00 ends.
    fn good_word(&self, running: &Running) -> OpWord
        ensures { result ≡ good_word running.now.operation (response_of running.now self.now) }
    {
        match running.operation {
            Operation::Query => {
                OpWord::Count(QueryResponse::count(self.lists.response(running.place())))
            }
            _ => OpWord::Done,
        }
    }

    /// What status 00 does to the session.
    fn move_by(&mut self, running: &Running)
        ensures step { self.new ≡ moved running.now.operation (good_event running.now.operation (response_of running.now self.old)) self.old }
        ensures keeps { Keeps 0 0 self.old self.new }
    {
        match running.operation {
            Operation::Login => {
                let response = login_response(self.lists.response(running.place()));
                in_place::enter(&mut self.seat, response);
            }
            Operation::Reconnect | Operation::Logout => in_place::end(&mut self.seat, 0),
            _ => {}
        }
    }

    /// A read of a quadlet of the target's ROM ended.
    fn rom_ended(
        &mut self,
        alloc: Global,
        act: u32,
        ending: Ending,
        outbox: &mut Outbox,
    ) -> Result<(), NoMemory>
        requires calls { self.old.lists.slots.calls < 2 ^ 56 }
        requires labels { self.old.layer.calls < 2 ^ 56 }
        ensures step { OnOk result ((outbox.new, self.new) ≡ rom_ended act ending outbox.old self.old) }
        ensures keeps { Keeps 1 1 self.old self.new }
    {
        match ending {
            Ending::Complete { value } => {
                self.quads.push(value)?;
                self.quad_got(alloc, act, outbox)
            }
            Ending::Refused { rcode } if rcode == ADDRESS => self.finish_rom(alloc, act, outbox),
            Ending::Refused { .. } | Ending::Expired => self.end_own(act, OpWord::Error, outbox),
        }
    }

    /// The next quadlet is asked for, or the ROM is read.
    fn quad_got(&mut self, alloc: Global, act: u32, outbox: &mut Outbox) -> Result<(), NoMemory>
        requires calls { self.old.lists.slots.calls < 2 ^ 56 }
        requires labels { self.old.layer.calls < 2 ^ 56 }
        ensures step { OnOk result ((outbox.new, self.new) ≡ quad_got act outbox.old self.old) }
        ensures keeps { Keeps 1 1 self.old self.new }
    {
        if self.quads.count() == LARGEST {
            return self.finish_rom(alloc, act, outbox);
        }
        self.ask_quad(alloc, act, outbox)
    }

    /// Asks for the next quadlet of the ROM.
    pub(crate) fn ask_quad(
        &mut self,
        alloc: Global,
        act: u32,
        outbox: &mut Outbox,
    ) -> Result<(), NoMemory>
        requires calls { self.old.lists.slots.calls < 2 ^ 56 }
        requires labels { self.old.layer.calls < 2 ^ 56 }
        ensures step { OnOk result ((outbox.new, self.new) ≡ ask_quad act outbox.old self.old) }
        ensures keeps { Keeps 1 1 self.old self.new }
    {
        let body = RequestBody::ReadQuadlet {
            offset: quad_place(self.quads.count()),
        };
        let purpose = Purpose::Rom { act };
        let Some(asked) = self.layer.ask(alloc, self.target, &body, purpose)? else {
            return self.end_own(act, OpWord::Error, outbox);
        };
        send_request(outbox, self.target, asked)
    }

    /// Reads the quadlets as a configuration ROM, which ends the operation.
    #[tactic(auto, using(crate::proofs::Roms::read_as, crate::proofs::Roms::failed_as))]
    fn finish_rom(&mut self, alloc: Global, act: u32, outbox: &mut Outbox) -> Result<(), NoMemory>
        requires calls { self.old.lists.slots.calls < 2 ^ 56 }
        ensures step { OnOk result ((outbox.new, self.new) ≡ finish_rom act outbox.old self.old) }
        ensures keeps { Keeps 1 0 self.old self.new }
    {
        match parse(alloc, self.quads.as_slice()) {
            Ok(rom) => self.rom_read(&rom, act, outbox),
            Err(RomFault::NoMemory) => Err(NoMemory),
            Err(fault) => self.end_own(act, OpWord::Bad(fault_number(fault)), outbox),
        }
    }

    /// The ROM was read: its SBP-2 unit, where it has one, tells where MANAGEMENT_AGENT stands.
    fn rom_read(&mut self, rom: &Rom, act: u32, outbox: &mut Outbox) -> Result<(), NoMemory>
        requires calls { self.old.lists.slots.calls < 2 ^ 56 }
        ensures step { OnOk result ((outbox.new, self.new) ≡ with_unit (sbp_unit_of rom.now.blocks rom.now.entries) act outbox.old self.old) }
        ensures keeps { Keeps 1 0 self.old self.new }
    {
        match sbp_unit(rom) {
            Some(unit) => {
                self.management = Some(management_at(unit.management));
                self.end_own(act, OpWord::Done, outbox)
            }
            None => self.end_own(act, OpWord::NoUnit, outbox),
        }
    }

    /// What AGENT_STATE tells of the list that it was read for.
    fn know(&mut self, value: u32, outbox: &mut Outbox) -> Result<(), NoMemory>
        requires calls { self.old.lists.slots.calls < 2 ^ 56 }
        ensures step { OnOk result ((outbox.new, self.new) ≡ known_step value outbox.old self.old) }
        ensures keeps { Keeps 1 0 self.old self.new }
    {
        if value == 0 {
            return self.drop_list(outbox);
        }
        if value == 3 {
            self.marks.is_dead = true;
        }
        Ok(())
    }

    /// A read of AGENT_STATE ends with a word.
    fn tell_state(&mut self, act: u32, word: OpWord, outbox: &mut Outbox) -> Result<(), NoMemory>
        ensures step { OnOk result ((outbox.new, self.new) ≡ state_told act word outbox.old self.old) }
        ensures keeps { Keeps 0 0 self.old self.new }
    {
        self.states.remove(act);
        tell(
            outbox,
            Note::Op {
                initiator: self.number,
                operation: Operation::State,
                word,
            },
        )
    }

    /// A read of AGENT_STATE ended.
    fn state_ended(
        &mut self,
        act: u32,
        list: Option<u32>,
        ending: Ending,
        outbox: &mut Outbox,
    ) -> Result<(), NoMemory>
        requires calls { self.old.lists.slots.calls < 2 ^ 56 }
        ensures step { OnOk result ((outbox.new, self.new) ≡ state_ended act list ending outbox.old self.old) }
        ensures keeps { Keeps 1 0 self.old self.new }
    {
        match ending {
            Ending::Complete { value } => {
                if counts_for(&self.lists.present(), list) {
                    self.know(value, outbox)?;
                }
                self.tell_state(act, OpWord::State(value), outbox)
            }
            Ending::Refused { .. } | Ending::Expired => {
                self.tell_state(act, OpWord::Error, outbox)
            }
        }
    }

    /// A transaction ended, which was for something.
    #[tactic(auto, unfolding(crate::specs::Effects::ended_step))]
    pub(crate) fn ended(
        &mut self,
        alloc: Global,
        purpose: Purpose,
        ending: Ending,
        outbox: &mut Outbox,
    ) -> Result<(), NoMemory>
        requires calls { self.old.lists.slots.calls < 2 ^ 55 }
        requires labels { self.old.layer.calls < 2 ^ 56 }
        ensures step { OnOk result ((outbox.new, self.new) ≡ ended_step purpose ending outbox.old self.old) }
        ensures keeps { Keeps 2 1 self.old self.new }
    {
        match purpose {
            Purpose::Pointer { list } => self.pointer_ended(list, ending, outbox),
            Purpose::Doorbell => self.doorbell_ended(ending, outbox),
            Purpose::AgentReset { act } => self.reset_ended(act, ending, outbox),
            Purpose::Enable { act } => self.enable_ended(act, ending, outbox),
            Purpose::Management { act } => self.management_ended(act, ending, outbox),
            Purpose::Rom { act } => self.rom_ended(alloc, act, ending, outbox),
            Purpose::State { act, list } => self.state_ended(act, list, ending, outbox),
        }
    }
}

/// Whether a read of AGENT_STATE counts for the present list.
fn counts_for(present: &Option<PresentList>, list: Option<u32>) -> bool
    ensures { result ≡ counts_for present.now list }
{
    match list {
        Some(number) => is_list(present, number),
        None => false,
    }
}
