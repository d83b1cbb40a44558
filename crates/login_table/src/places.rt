ghost use Rattle.std.specs.Prelude.{◌≡◌, ◌<◌, length, position, is_none, map, IfSome};
ghost use Rattle.login_table.specs.Table.{any_login, excludes, find, id_at, if_of_node, is_denied, is_double, is_held, is_live_of, is_of_node, is_old, left_for, held, place_at};

use crate::login::{Asked, Login};
use sbp_base::NodeId;

/// A place of the table, which may have a login.
pub(crate) type Place = Option<Login>;

fn any_double(places: &[Place], asked: &Asked) -> bool
    ensures { result ≡ any_login (is_double asked.now) places.now }
{
    places.iter().any(|place| matches!(place, Some(login) if login.is_double(asked)))
}

fn any_excludes(places: &[Place], asked: &Asked) -> bool
    ensures { result ≡ any_login (excludes asked.now) places.now }
{
    places.iter().any(|place| matches!(place, Some(login) if login.excludes(asked)))
}

/// Whether the unit is not free to the node.
pub(crate) fn is_denied(places: &[Place], asked: &Asked) -> bool
    ensures { result ≡ is_denied asked.now places.now }
{
    any_double(places, asked) || any_excludes(places, asked)
}

/// Whether a live login of the node on the unit exists.
pub(crate) fn any_of_node(places: &[Place], unit: u8, node: NodeId) -> bool
    ensures { result ≡ any_login (is_of_node unit node) places.now }
{
    places.iter().any(|place| matches!(place, Some(login) if login.is_of_node(unit, node)))
}

/// The place of the held login of the EUI-64 on the unit.
fn old_place(places: &[Place], asked: &Asked) -> Option<usize>
    ensures place { result ≡ find (is_old asked.now) places.now }
    ensures below { IfSome result (λ place. place < length places.now) }
{
    places.iter().position(|place| matches!(place, Some(login) if login.is_old(asked)))
}

/// The place of the held login with the ID.
pub(crate) fn held_place(places: &[Place], login: u16) -> Option<usize>
    ensures place { result ≡ find (is_held login) places.now }
    ensures below { IfSome result (λ place. place < length places.now) }
{
    places.iter().position(|place| matches!(place, Some(entered) if entered.is_held(login)))
}

/// The place of the login with the ID that is live for the node.
pub(crate) fn live_place(places: &[Place], login: u16, node: NodeId) -> Option<usize>
    ensures place { result ≡ find (is_live_of login node) places.now }
    ensures below { IfSome result (λ place. place < length places.now) }
{
    places.iter().position(
        |place| matches!(place, Some(entered) if entered.is_live_of(login, node)),
    )
}

/// The lowest place without a login.
pub(crate) fn empty_place(places: &[Place]) -> Option<usize>
    ensures place { result ≡ position is_none places.now }
    ensures below { IfSome result (λ place. place < length places.now) }
{
    places.iter().position(|place| place.is_none())
}

/// Removes the held login of the EUI-64 on the unit, and tells its ID.
#[tactic(auto, unfolding(crate::specs::Table::left_for))]
pub(crate) fn remove_old(places: &mut [Place], asked: &Asked) -> Option<u16>
    ensures login { result ≡ id_at (find (is_old asked.now) places.old) places.old }
    ensures places { places.new ≡ left_for asked.now places.old }
{
    let place = old_place(places, asked)?;
    let old = places[place];
    places[place] = None;
    match old {
        Some(login) => Some(login.login),
        None => None,
    }
}

/// Holds each live login.
pub(crate) fn hold_all(places: &mut [Place])
    ensures { places.new ≡ map held places.old }
{
    for place in places.iter_mut() {
        *place = held(*place);
    }
}

/// A place whose login, if it has one, is held.
fn held(place: Place) -> Place
    ensures { result ≡ held place }
{
    match place {
        Some(login) => Some(login.held()),
        None => None,
    }
}

/// The login in a place; there is none past the end.
pub(crate) fn place_at(places: &[Place], place: u8) -> Place
    ensures { result ≡ place_at places.now place }
{
    if usize::from(place) >= places.len() {
        return None;
    }
    places[usize::from(place)]
}

/// The login of a place where it is live for the node.
pub(crate) fn if_of_node(place: Place, node: NodeId) -> Option<Login>
    ensures { result ≡ if_of_node node place }
{
    match place {
        Some(login) if login.is_live() && login.node == node => Some(login),
        _ => None,
    }
}
