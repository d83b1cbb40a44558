ghost use Rattle.std.specs.Prelude.{◌≡◌, ◌≤◌, ◌<◌, ◌++◌, ◌+◌, [], ◌∷◌, length, take};
ghost use Rattle.std.specs.List.{filter_map};
ghost use Rattle.mgmt_agent.specs.Decisions.{entries_of, entry_of};

use login_table::{Login, Logins};
use orb_layout::QueryEntry;
use sbp_base::NodeId;
use std::marker::Model;

/// The logins of a unit, at most 8.
#[derive(Drop)]
pub(crate) struct Entries {
    room: [QueryEntry; 8],
    count: usize,
}

impl Model for Entries {
    ghost use Rattle.std.specs.Prelude.{List, take};
    ghost use Rattle.orb_layout.specs.declared.query.QueryEntry.{QueryEntry};
    ghost use Rattle.mgmt_agent.specs.Room.{IsRoom};

    ghost Value = { List QueryEntry };

    ghost view = { λ a. take a.count a.room };

    ghost invariant = { λ a. IsRoom 8 a.room a.count };
}

impl Entries {
    fn new() -> Entries
        ensures { result ≡ [] }
    {
        let blank = QueryEntry {
            node: NodeId::from_raw(0),
            login: 0,
            eui: 0,
        };
        Entries {
            room: [blank; 8],
            count: 0,
        }
    }

    /// Adds the login of a place, where it is one of the unit.
    fn add(&mut self, unit: u8, place: Option<Login>)
        requires { length self.old < 8 }
        ensures added { self.new ≡ self.old ++ filter_map (entry_of unit) (place ∷ []) }
        ensures most { length self.new ≤ length self.old + 1 }
    {
        if let Some(entry) = entry_of(unit, place) {
            self.room[self.count] = entry;
            self.count += 1;
        }
    }

    pub(crate) fn as_slice(&self) -> &[QueryEntry]
        ensures value { result.now ≡ self.now }
        ensures most { length result.now ≤ 8 }
    {
        let room = &self.room[..];
        &room[0..self.count]
    }
}

/// What a query tells of the login in a place, where it is one of the unit.
fn entry_of(unit: u8, place: Option<Login>) -> Option<QueryEntry>
    ensures { result ≡ entry_of unit place }
{
    match place {
        Some(login) if login.unit == unit => Some(QueryEntry {
            node: login.node,
            login: login.login,
            eui: login.eui,
        }),
        _ => None,
    }
}

/// The logins of a unit, live and held, by rising place.
pub(crate) fn entries_of(unit: u8, logins: &Logins) -> Entries
    ensures { result ≡ entries_of unit logins.now.places }
{
    let mut entries = Entries::new();
    for place in 0..8_u8 {
        entries.add(unit, logins.at(place));
    }
    entries
}
