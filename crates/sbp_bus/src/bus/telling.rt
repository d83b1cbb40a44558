ghost use Rattle.std.specs.Prelude.{◌≡◌, ◌<◌, length, OnOk};
ghost use Rattle.sbp_bus.specs.Buses.{with_note};
ghost use Rattle.sbp_bus.specs.Telling.{counted, cut_loads, dead_note, ended_note, holder, initiator_of, list_in, managed_places, opened, orb_in, ran_note, told, told_cut, told_left, told_managed, told_own};

use super::Bus;
use crate::generations::Generations;
use crate::loads::Loads;
use crate::places::{Holder, Places};
use crate::words::{check_of, function_word, login_if};
use orb_layout::{FailCause, StatusKind};
use orb_list::Ticket;
use rbc_disk::Outcome;
use sbp_base::{Bytes, NoMemory, NodeId};
use sbp_journal::{CutCause, FunctionWord, Note, Side};

/// The number of the list of an ORB.
fn list_in(ticket: &Option<Ticket>) -> Option<u32>
    ensures { result ≡ list_in ticket.now }
{
    match ticket {
        Some(ticket) => Some(ticket.list()),
        None => None,
    }
}

/// The number of an ORB in its list.
fn orb_in(ticket: &Option<Ticket>) -> Option<u32>
    ensures { result ≡ orb_in ticket.now }
{
    match ticket {
        Some(ticket) => Some(ticket.number()),
        None => None,
    }
}

/// What a decision at status 00 makes of the places: a login is entered, or taken back.
fn decide_places(places: &mut Places, word: FunctionWord, subject: u16, login: u16, initiator: u8)
    ensures { places.new ≡ managed_places word subject login initiator places.old }
{
    match word {
        FunctionWord::Login => places.enter(Holder {
            initiator,
            unit: (subject % 256) as u8,
            login,
            list: None,
        }),
        FunctionWord::Reconnect => places.back(subject, initiator),
        _ => {}
    }
}

/// Counts for the budget what a note of an initiator says.
fn count(loads: &mut Loads, weight: u64, note: &Note) -> Result<(), NoMemory>
    ensures { OnOk result (loads.new ≡ counted weight note.now loads.old) }
{
    match note {
        Note::Append {
            initiator,
            list,
            orb,
            ..
        } => loads.append(*initiator, *list, *orb, weight),
        Note::Taken { initiator, orb, .. } => {
            loads.take(*initiator, *orb);
            Ok(())
        }
        Note::Drop { initiator, list } => loads.drop_list(*initiator, *list),
        _ => Ok(()),
    }
}

/// A list of an initiator was cut, where it has a name.
fn cut_loads(loads: &mut Loads, list: Option<u32>, initiator: u8)
    ensures { loads.new ≡ cut_loads list initiator loads.old }
{
    if let Some(list) = list {
        loads.cut(initiator, list);
    }
}

/// The initiator of a node ID, as the target knows it.
fn initiator_of(generations: &Generations, node: NodeId) -> u8
    requires { 0 < length generations.now.seen }
    ensures { result ≡ initiator_of generations.now node }
{
    match generations.node_of(0, node) {
        Some(number) => number.saturating_sub(1),
        None => 0,
    }
}

impl Bus {
    /// Who has a place of the target's logins.
    pub fn holder(&self, place: u8) -> Holder
        ensures { result ≡ holder self.now place }
    {
        self.places.holder(place)
    }

    /// A note of an initiator; where it says that an ORB was appended, this counts so much.
    #[inline(always)]
    fn tell_own(&mut self, weight: u64, note: Note) -> Result<(), NoMemory>
        ensures step { OnOk result (self.new ≡ told_own weight note self.old) }
        ensures known { self.new.generations ≡ self.old.generations }
    {
        count(&mut self.loads, weight, &note)?;
        self.fresh.push(note)
    }

    /// The agent of a place was pointed to an ORB.
    fn open(&mut self, place: u8, ticket: &Option<Ticket>)
        ensures step { self.new ≡ opened place ticket.now self.old }
        ensures known { self.new.generations ≡ self.old.generations }
    {
        self.places.open(place, list_in(ticket));
    }

    /// A command ran.
    fn tell_ran(
        &mut self,
        place: u8,
        ticket: &Option<Ticket>,
        cdb: [u8; 12],
        payload: Bytes,
        outcome: Outcome,
    ) -> Result<(), NoMemory>
        ensures step { OnOk result (self.new ≡ with_note (ran_note (holder self.old place) ticket.now cdb payload outcome) self.old) }
        ensures known { self.new.generations ≡ self.old.generations }
    {
        let holder = self.places.holder(place);
        self.fresh.push(Note::Ran {
            initiator: holder.initiator,
            list: list_in(ticket),
            orb: orb_in(ticket),
            unit: holder.unit,
            cdb,
            bytes: payload,
            check: check_of(outcome),
        })
    }

    /// An ORB ended.
    fn tell_ended(
        &mut self,
        place: u8,
        ticket: &Option<Ticket>,
        status: StatusKind,
    ) -> Result<(), NoMemory>
        ensures step { OnOk result (self.new ≡ with_note (ended_note (holder self.old place) ticket.now status) self.old) }
        ensures known { self.new.generations ≡ self.old.generations }
    {
        let initiator = self.places.holder(place).initiator;
        self.fresh.push(Note::Ended {
            initiator,
            list: list_in(ticket),
            orb: orb_in(ticket),
            status,
        })
    }

    /// The agent of a place became dead.
    fn tell_dead(&mut self, place: u8, cause: FailCause) -> Result<(), NoMemory>
        ensures step { OnOk result (self.new ≡ with_note (dead_note (holder self.old place) cause) self.old) }
        ensures known { self.new.generations ≡ self.old.generations }
    {
        let holder = self.places.holder(place);
        self.fresh.push(Note::Dead {
            initiator: holder.initiator,
            list: holder.list,
            cause,
        })
    }

    /// The list that is open at a place was cut.
    fn tell_cut(&mut self, place: u8, cause: CutCause) -> Result<(), NoMemory>
        ensures step { OnOk result (self.new ≡ told_cut place cause self.old) }
        ensures known { self.new.generations ≡ self.old.generations }
    {
        let holder = self.places.holder(place);
        cut_loads(&mut self.loads, holder.list, holder.initiator);
        self.fresh.push(Note::Cut {
            initiator: holder.initiator,
            list: holder.list,
            cause,
        })
    }

    /// A management ORB of a node was decided.
    fn tell_managed(
        &mut self,
        node: NodeId,
        function: u8,
        subject: u16,
        status: u8,
        login: u16,
    ) -> Result<(), NoMemory>
        ensures step { OnOk result (self.new ≡ told_managed node function subject status login self.old) }
        ensures known { self.new.generations ≡ self.old.generations }
    {
        let initiator = initiator_of(&self.generations, node);
        let word = function_word(function);
        if status == 0 {
            decide_places(&mut self.places, word, subject, login, initiator);
        }
        self.fresh.push(Note::Managed {
            initiator,
            function: word,
            subject,
            status,
            login: login_if(word, status, login),
        })
    }

    /// A login left its place, and this is told.
    fn tell_left(&mut self, login: u16, note: Note) -> Result<(), NoMemory>
        ensures step { OnOk result (self.new ≡ told_left login note self.old) }
        ensures known { self.new.generations ≡ self.old.generations }
    {
        self.places.leave(login);
        self.fresh.push(note)
    }

    /// Makes the note of what a node tells; an ORB that it prepares counts so much in the budget, and one
    /// that it names has this ticket.
    #[inline(always)]
    pub fn tell_side(
        &mut self,
        weight: u64,
        ticket: &Option<Ticket>,
        side: Side,
    ) -> Result<(), NoMemory>
        ensures step { OnOk result (self.new ≡ told weight ticket.now side self.old) }
        ensures known { self.new.generations ≡ self.old.generations }
    {
        match side {
            Side::Own(note) => self.tell_own(weight, note),
            Side::Opened { place, .. } => {
                self.open(place, ticket);
                Ok(())
            }
            Side::Ran {
                place,
                cdb,
                payload,
                outcome,
                ..
            } => self.tell_ran(place, ticket, cdb, payload, outcome),
            Side::Ended { place, status, .. } => self.tell_ended(place, ticket, status),
            Side::Dead { place, cause } => self.tell_dead(place, cause),
            Side::Cut { place, cause } => self.tell_cut(place, cause),
            Side::Managed {
                node,
                function,
                subject,
                status,
                login,
            } => self.tell_managed(node, function, subject, status, login),
            Side::ManageFailed { node, cause } => {
                let initiator = initiator_of(&self.generations, node);
                self.fresh.push(Note::ManageFailed { initiator, cause })
            }
            Side::Held(login) => self.fresh.push(Note::Held { login }),
            Side::Expired(login) => self.tell_left(login, Note::Expired { login }),
            Side::Back(login) => self.fresh.push(Note::Back { login }),
            Side::Left(login) => self.tell_left(login, Note::Left { login }),
            Side::Cleared(unit) => self.fresh.push(Note::Cleared { unit }),
            Side::Unsolicited { place } => {
                let initiator = self.places.holder(place).initiator;
                self.fresh.push(Note::Unsolicited { initiator })
            }
            Side::Unsent { place } => {
                let initiator = self.places.holder(place).initiator;
                self.fresh.push(Note::Unsent { initiator })
            }
        }
    }
}
