ghost use Rattle.std.specs.Prelude.{◌≡◌, ◌<◌};

use std::marker::Model;

/// A prepared ORB by its names: the login and the list that it is of, its number in the list, its
/// slot, below 32, and a serial number that tells it from every other ORB.
#[derive(Clone, Copy, Debug, PartialEq, Eq)]
pub struct Ticket {
    login: u16,
    list: u32,
    number: u32,
    slot: u8,
    serial: u64,
}

impl Model for Ticket {
    ghost use Rattle.std.specs.Prelude.{◌<◌};
    ghost use Rattle.orb_list.specs.Tickets.{TicketParts};

    ghost Value = { TicketParts };

    ghost view = { λ ticket. record { login = ticket.login; list = ticket.list; number = ticket.number; slot = ticket.slot; serial = ticket.serial } };

    ghost invariant = { λ ticket. ticket.slot < 32 };

    ghost inverse = { λ parts. record { login = parts.login; list = parts.list; number = parts.number; slot = parts.slot; serial = parts.serial } };
}

impl Ticket {
    ghost use Rattle.orb_list.specs.Tickets.{is_ticket, ticket};

    /// The ticket with these names.
    pub(crate) fn new(login: u16, list: u32, number: u32, slot: u8, serial: u64) -> Ticket
        requires { slot < 32 }
        ensures { result ≡ ticket login list number slot serial }
    {
        Ticket {
            login,
            list,
            number,
            slot,
            serial,
        }
    }

    /// The ID of the login that its ORB is of.
    pub fn login(&self) -> u16
        ensures { result ≡ self.now.login }
    {
        self.login
    }

    /// The number of the list, counted from 0 over all lists.
    pub fn list(&self) -> u32
        ensures { result ≡ self.now.list }
    {
        self.list
    }

    /// The number of the ORB in its list, counted from 0.
    pub fn number(&self) -> u32
        ensures { result ≡ self.now.number }
    {
        self.number
    }

    /// The slot, below 32.
    pub fn slot(&self) -> u8
        ensures value { result ≡ self.now.slot }
        ensures small { self.now.slot < 32 }
    {
        self.slot
    }

    /// The number that tells its ORB from every other one.
    pub fn serial(&self) -> u64
        ensures { result ≡ self.now.serial }
    {
        self.serial
    }

    /// Whether this is the ticket of the same ORB.
    pub(crate) fn is(&self, other: &Ticket) -> bool
        ensures { result ≡ is_ticket self.now other.now }
    {
        self.login == other.login
            && self.list == other.list
            && self.number == other.number
            && self.slot == other.slot
            && self.serial == other.serial
    }
}
