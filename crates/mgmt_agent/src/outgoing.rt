ghost use Rattle.std.specs.Prelude.{◌≡◌, ◌≤◌, ◌<◌, ◌+◌, ◌*◌, ◌++◌, [], ◌∷◌, length, take, drop, min};
ghost use Rattle.orb_layout.specs.QueryResponses.{query_bytes};
ghost use Rattle.mgmt_agent.specs.Decisions.{entries_of, response_bytes};
ghost use Rattle.mgmt_agent.specs.Machine.{status_block};

use crate::decision::Response;
use crate::entries::entries_of;
use crate::status::Status;
use login_table::Logins;
use orb_layout::{QueryResponse, StatusBlock, StatusKind};
use sbp_base::Offset;
use std::marker::Model;

/// The bytes of a write: at most the 100 of the response to a query of 8 logins.
#[derive(Drop)]
pub(crate) struct Outgoing {
    room: [u8; 100],
    length: usize,
}

impl Model for Outgoing {
    ghost use Rattle.std.specs.Prelude.{◌≡◌, ◌≤◌, ℕ, List, length, take};
    ghost use Rattle.mgmt_agent.specs.Room.{IsRoom};

    ghost Value = { List ℕ };

    ghost view = { λ a. take a.length a.room };

    ghost invariant = { λ a. IsRoom 100 a.room a.length };
}

impl Outgoing {
    pub(crate) fn new() -> Outgoing
        ensures { result ≡ [] }
    {
        Outgoing {
            room: [0; 100],
            length: 0,
        }
    }

    pub(crate) fn as_slice(&self) -> &[u8]
        ensures value { result.now ≡ self.now }
        ensures most { length result.now ≤ 100 }
    {
        &self.room[0..self.length]
    }

    /// The status block that names a management ORB.
    pub(crate) fn put_status(&mut self, orb: Offset, status: Status)
        ensures { self.new ≡ status_block orb status }
    {
        let block = StatusBlock {
            src: 0,
            kind: StatusKind::Management(status.number()),
            orb,
        };
        self.length = block.write(&mut self.room);
    }

    /// A response, cut after the length that the ORB allows.
    pub(crate) fn put_response(&mut self, response: Response, logins: &Logins, allowed: u16)
        ensures { self.new ≡ take allowed (response_bytes response logins.now.places) }
    {
        let whole = write_response(response, logins, &mut self.room);
        self.length = whole.min(usize::from(allowed));
    }
}

/// Writes a response over the first bytes, whose number it answers.
#[tactic(auto, unfolding(crate::specs::Decisions::response_bytes))]
fn write_response(response: Response, logins: &Logins, room: &mut [u8]) -> usize
    requires { length room.old ≡ 100 }
    ensures written { take result room.new ≡ response_bytes response logins.now.places }
    ensures most { result ≤ 100 }
{
    match response {
        Response::Nothing => 0,
        Response::Login(response) => response.write(room),
        Response::Query(unit) => put_query(unit, logins, room),
    }
}

/// Writes the logins of a unit over the first bytes, whose number it answers.
fn put_query(unit: u8, logins: &Logins, room: &mut [u8]) -> usize
    requires { length room.old ≡ 100 }
    ensures written { take result room.new ≡ query_bytes (entries_of unit logins.now.places) }
    ensures count { result ≡ length (query_bytes (entries_of unit logins.now.places)) }
    ensures most { result ≤ 100 }
{
    let entries = entries_of(unit, logins);
    QueryResponse::write_into(entries.as_slice(), room)
}
