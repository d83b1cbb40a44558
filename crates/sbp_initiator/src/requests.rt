//! What an action asks of the target: the address, the value, and what for.
ghost use Rattle.std.specs.Prelude.{◌≡◌, ◌*◌, ◌^◌, ◌+◌, ◌<◌, ◌≤◌, unwrap_or, Some, None, IfOk, IfNone, OnErr, length};
ghost use Rattle.byteorder.specs.Endian.{big_bytes};
ghost use Rattle.label_table.specs.Bodies.{FitsBody, body_of};
ghost use Rattle.bus_memory.specs.Windows.{start};
ghost use Rattle.orb_layout.specs.ManagementOrbs.{ManagementFits};
ghost use Rattle.orb_list.specs.Table.{list_number};
ghost use Rattle.sbp_initiator.specs.Acting.{IsAction, address_of, asked_for, counted_list, demand_of, first_in, login_id, login_orb, manage_demand, orb_by, orb_for, register_of, response_place, ring_demand};
ghost use Rattle.sbp_initiator.specs.States.{address_in, place_of, wanted_body};

use crate::purpose::{Demand, Purpose, Wanted};
use crate::state::InitiatorState;
use bus_memory::Window;
use byteorder::{BigEndian, ByteOrder};
use initiator_base::places::{behind_by, login_fifo, password_of, place_fifo, rom_start};
use label_table::{Asked, RequestBody};
use orb_layout::ManagementOrb;
use orb_list::Ticket;
use sbp_base::{NoMemory, Offset};
use sbp_journal::Action;
use std::alloc::Global;

/// The management agent's functions (NCITS 325-1998, management ORB).
const LOGIN: u8 = 0x0;

const QUERY: u8 = 0x1;

const RECONNECT: u8 = 0x3;

const LOGOUT: u8 = 0x7;

const ABORT: u8 = 0xb;

const ABORT_SET: u8 = 0xc;

const UNIT_RESET: u8 = 0xe;

const TARGET_RESET: u8 = 0xf;

/// Distances of the agent's registers from their base.
const STATE: u32 = 0x00;

const RESET: u32 = 0x04;

const POINTER: u32 = 0x08;

const DOORBELL: u32 = 0x10;

const ENABLE: u32 = 0x14;

/// The 8 bytes of the address that a request writes; zeros where it writes none.
fn address_in(wanted: &Wanted) -> [u8; 8]
    ensures { result ≡ big_bytes 8 (address_in wanted.now) }
{
    let orb = match wanted {
        Wanted::Point { orb, .. } => *orb,
        Wanted::Read { .. } | Wanted::Write { .. } => Offset::zero(),
    };
    let mut bytes = [0; 8];
    BigEndian::write_u64(&mut bytes, orb.value());
    bytes
}

/// What a request asks for, with the bytes of the address that it writes.
fn body_for<'a>(wanted: &Wanted, address: &'a [u8]) -> RequestBody<'a>
    requires { address.now ≡ big_bytes 8 (address_in wanted.now) }
    ensures body { body_of result ≡ wanted_body wanted.now }
    ensures fits { FitsBody (body_of result) }
{
    match wanted {
        Wanted::Read { offset } => RequestBody::ReadQuadlet { offset: *offset },
        Wanted::Write { offset, value } => RequestBody::WriteQuadlet {
            offset: *offset,
            value: *value,
        },
        Wanted::Point { offset, .. } => RequestBody::WriteBlock {
            offset: *offset,
            payload: address,
        },
    }
}

/// The address of an ORB by its ticket; 0 without one.
fn address_of(ticket: Option<Ticket>) -> Offset
    ensures { result ≡ address_of ticket }
{
    match ticket {
        Some(ticket) => Window::Orb(ticket.slot()).start(),
        None => Offset::zero(),
    }
}

impl InitiatorState {
    /// A register of the login's agent.
    fn register(&self, distance: u32) -> Offset
        ensures { result ≡ register_of self.now distance }
    {
        behind_by(self.seat.response().agent, distance)
    }

    /// The next place of management, 0 or 1.
    pub(crate) fn place(&self) -> u8
        ensures value { result ≡ place_of self.now.counts.managed }
        ensures small { result < 2 }
    {
        (self.counts.managed % 2) as u8
    }

    /// The login ID.
    pub(crate) fn login(&self) -> u16
        ensures { result ≡ login_id self.now }
    {
        self.seat.response().login
    }

    /// The slot of the first ORB of the list.
    fn first_slot(&self) -> u8
        ensures { result ≡ first_in self.now.lists.slots.present self.now }
    {
        match self.lists.present() {
            Some(_) => self.marks.first,
            None => self.lists.next_slot(),
        }
    }

    /// The number of the list that is present, or of the one that begins with the next ORB.
    fn list_number(&self) -> u32
        ensures { result ≡ list_number self.now.lists.slots.present self.now.lists.slots.lists }
    {
        match self.lists.present() {
            Some(list) => list.tail.list(),
            None => self.lists.next_list(),
        }
    }

    /// What a ring asks for.
    fn ring_demand(&self) -> Demand
        ensures { result ≡ ring_demand self.now }
    {
        if self.marks.pointing.is_unwritten() {
            return Demand {
                wanted: Wanted::Point {
                    offset: self.register(POINTER),
                    orb: Window::Orb(self.first_slot()).start(),
                },
                purpose: Purpose::Pointer {
                    list: self.list_number(),
                },
            };
        }
        Demand {
            wanted: Wanted::Write {
                offset: self.register(DOORBELL),
                value: self.counts.running,
            },
            purpose: Purpose::Doorbell,
        }
    }

    /// What a management operation asks for.
    fn manage_demand(&self) -> Demand
        ensures { result ≡ manage_demand self.now }
    {
        Demand {
            wanted: Wanted::Point {
                offset: self.management.unwrap_or(Offset::zero()),
                orb: Window::Management(self.place()).start(),
            },
            purpose: Purpose::Management {
                act: self.counts.acts,
            },
        }
    }

    /// The list that a read of AGENT_STATE counts for.
    fn counted_list(&self) -> Option<u32>
        ensures { result ≡ counted_list self.now.lists.slots.present self.now }
    {
        match self.lists.present() {
            Some(list) if self.marks.pointing.is_answered() => Some(list.tail.list()),
            _ => None,
        }
    }

    /// What an action asks for.
    pub(crate) fn demand(&self, action: &Action) -> Option<Demand>
        ensures { result ≡ demand_of action.now self.now }
    {
        let act = self.counts.acts;
        match action {
            Action::Put(_) | Action::Low | Action::Link | Action::Dummy { .. } => None,
            Action::Append(_) | Action::Ring => Some(self.ring_demand()),
            Action::Rom => Some(Demand {
                wanted: Wanted::Read {
                    offset: rom_start(),
                },
                purpose: Purpose::Rom { act },
            }),
            Action::State => Some(Demand {
                wanted: Wanted::Read {
                    offset: self.register(STATE),
                },
                purpose: Purpose::State {
                    act,
                    list: self.counted_list(),
                },
            }),
            Action::AgentReset => Some(Demand {
                wanted: Wanted::Write {
                    offset: self.register(RESET),
                    value: self.counts.running,
                },
                purpose: Purpose::AgentReset { act },
            }),
            Action::Enable => Some(Demand {
                wanted: Wanted::Write {
                    offset: self.register(ENABLE),
                    value: 1,
                },
                purpose: Purpose::Enable { act },
            }),
            _ => Some(self.manage_demand()),
        }
    }

    /// Asks the target. There is no request where it finds no label; then nothing changes.
    pub(crate) fn ask(&mut self, alloc: Global, demand: &Demand) -> Result<Option<Asked>, NoMemory>
        requires labels { self.old.layer.calls < 2 ^ 56 }
        ensures step { IfOk result (λ asked. (asked, self.new.layer) ≡ asked_for demand.now self.old) }
        ensures keeps { self.new ≡ record self.old { layer = self.new.layer } }
        ensures labels { self.new.layer.calls ≤ self.old.layer.calls + 1 }
        ensures refused { IfOk result (λ asked. IfNone asked (self.new.layer ≡ self.old.layer)) }
        ensures failed { OnErr result (self.new.layer ≡ self.old.layer) }
    {
        let address = address_in(&demand.wanted);
        let body = body_for(&demand.wanted, &address);
        self.layer.ask(alloc, self.target, &body, demand.purpose)
    }

    /// A management ORB of the next place, with a function, below 16, and its unit number or login ID.
    fn orb_for(&self, function: u8, subject: u16) -> ManagementOrb
        requires { function < 2 ^ 4 }
        ensures orb { result ≡ orb_for self.now function subject }
        ensures fits { ManagementFits result }
    {
        ManagementOrb {
            first: 0,
            second: Offset::zero(),
            notify: true,
            format: 0,
            exclusive: false,
            reconnect: 0,
            function,
            subject,
            password_length: 0,
            response_length: 0,
            fifo: place_fifo(self.place()),
        }
    }

    /// Where the response of the next management ORB goes.
    fn response_place(&self) -> Offset
        ensures { result ≡ response_place self.now }
    {
        Window::Response(self.place()).start()
    }

    /// The ORB of a login.
    fn login_orb(&self, unit: u8, reconnect: u8, exclusive: bool, password: &[u8]) -> ManagementOrb
        requires reconnect { reconnect < 2 ^ 4 }
        requires password { length password.now ≡ 8 }
        ensures orb { result ≡ login_orb self.now unit reconnect exclusive password.now }
        ensures fits { ManagementFits result }
    {
        ManagementOrb {
            first: password_of(password),
            second: self.response_place(),
            exclusive,
            reconnect,
            response_length: 16,
            fifo: login_fifo(self.counts.logins),
            ..self.orb_for(LOGIN, u16::from(unit))
        }
    }

    /// The management ORB of an action.
    pub(crate) fn orb_by(&self, action: &Action) -> ManagementOrb
        requires { IsAction action.now }
        ensures orb { result ≡ orb_by action.now self.now }
        ensures fits { ManagementFits result }
    {
        match action {
            Action::Login {
                unit,
                reconnect,
                exclusive,
                password,
            } => self.login_orb(*unit, *reconnect, *exclusive, password),
            Action::Query { unit } => ManagementOrb {
                second: self.response_place(),
                response_length: 100,
                ..self.orb_for(QUERY, u16::from(*unit))
            },
            Action::Abort { orb } => {
                let address = address_of(self.lists.find(*orb));
                ManagementOrb {
                    first: address.value(),
                    ..self.orb_for(ABORT, self.login())
                }
            }
            Action::Reconnect => self.orb_for(RECONNECT, self.login()),
            Action::Logout => self.orb_for(LOGOUT, self.login()),
            Action::AbortSet => self.orb_for(ABORT_SET, self.login()),
            Action::UnitReset => self.orb_for(UNIT_RESET, self.login()),
            Action::TargetReset => self.orb_for(TARGET_RESET, self.login()),
            _ => self.orb_for(LOGIN, 0),
        }
    }
}
