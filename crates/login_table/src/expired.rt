ghost use Rattle.std.specs.Prelude.{◌≡◌, ◌≤◌, ◌<◌, ◌+◌, ◌++◌, [], ◌∷◌, length, map, slice_index_or, None};
ghost use Rattle.std.specs.List.{filter_map};
ghost use Rattle.login_table.specs.Table.{expired_id, expired_ids, is_last, one_less, ticked};

use crate::login::Login;
use crate::places::Place;
use arrayvec::ArrayVec;
use std::marker::Model;

/// The IDs of the logins that a second removed, at most 8, by rising place.
#[derive(Drop)]
pub struct Expired {
    logins: ArrayVec<u16, 8>,
}

impl Model for Expired {
    ghost use Rattle.std.specs.Prelude.{ℕ, List};

    ghost Value = { List ℕ };

    ghost view = { λ a. a.logins.items };
}

impl Expired {
    /// No login yet.
    pub(crate) fn new() -> Expired
        ensures { result ≡ [] }
    {
        Expired {
            logins: ArrayVec::new(),
        }
    }

    /// The IDs, by rising place, lent.
    pub fn as_slice(&self) -> &[u16]
        ensures value { result.now ≡ self.now }
        ensures most { length result.now ≤ 8 }
    {
        self.logins.as_slice()
    }

    /// Adds the ID of the login in a place, where the next second removes it.
    fn add(&mut self, place: Place)
        requires { length self.old < 8 }
        ensures added { self.new ≡ self.old ++ filter_map expired_id (place ∷ []) }
        ensures most { length self.new ≤ length self.old + 1 }
    {
        if let Some(login) = expired_id(place) {
            self.logins.push(login);
        }
    }
}

/// Takes a second from each held login, and removes and tells those at zero.
pub(crate) fn tick_all(places: &mut [Place], expired: &mut Expired)
    requires places { length places.old ≤ 8 }
    requires expired { expired.old ≡ [] }
    ensures places { places.new ≡ map ticked places.old }
    ensures expired { expired.new ≡ expired_ids places.old }
    ensures most { length expired.new ≤ 8 }
{
    for place in places.iter_mut() {
        expired.add(*place);
        *place = ticked(*place);
    }
}

/// The ID of a login that the next second removes.
fn expired_id(place: Place) -> Option<u16>
    ensures { result ≡ expired_id place }
{
    match place {
        Some(login) if login.is_last() => Some(login.login),
        _ => None,
    }
}

/// A place after one more second.
fn ticked(place: Place) -> Place
    ensures { result ≡ ticked place }
{
    match place {
        Some(login) if !login.is_last() => Some(login.one_less()),
        _ => None,
    }
}
