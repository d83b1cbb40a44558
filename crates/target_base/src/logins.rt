ghost use Rattle.std.specs.Prelude.{◌≡◌, ◌<◌, IfSome};
ghost use Rattle.async_packet.specs.Packet.{view};
ghost use Rattle.login_table.specs.Table.{place_at};
ghost use Rattle.target_base.specs.Logins.{if_served, is_barred, is_below_reserve};

use crate::address::{is_lock, offset_in, register_at};
use crate::place::LoginPlace;
use async_packet::PacketRef;
use login_table::{Login, Logins};

/// The labels that must be left for a read ahead.
const RESERVE: u8 = 16;

/// Whether a request reads or writes an agent register that belongs to no live login of its source.
pub fn is_barred(logins: &Logins, request: &PacketRef<'_>) -> bool
    ensures { result ≡ is_barred logins.now (view request.now) }
{
    if is_lock(request) {
        return false;
    }
    let Some(found) = register_at(offset_in(request)) else {
        return false;
    };
    let source = request.header().source;
    logins.by_agent(found.place.number(), source).is_none()
}

/// The login in a place, where its unit is one of so many.
pub fn served_login(logins: &Logins, place: LoginPlace, units: usize) -> Option<Login>
    ensures login { result ≡ if_served units (place_at logins.now.places place) }
    ensures unit { IfSome result (λ login. login.unit < units) }
{
    let login = logins.at(place.number())?;
    if usize::from(login.unit) < units {
        return Some(login);
    }
    None
}

/// Whether fewer labels are free than a read ahead leaves.
pub fn is_below_reserve(free: u8) -> bool
    ensures { result ≡ is_below_reserve free }
{
    free < RESERVE
}
