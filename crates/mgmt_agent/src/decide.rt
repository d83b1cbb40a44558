ghost use Rattle.std.specs.Prelude.{◌≡◌, ◌<◌, ◌≤◌, ◌==◌, ◌-◌, ◌+◌, ◌*◌, ◌%◌, ◌^◌, length, Some, None, if◌then◌else◌};
ghost use Rattle.login_table.specs.Table.{has, is_live_of, place_at};
ghost use Rattle.mgmt_agent.specs.Decisions.{agent_base, decide, decide_function, decide_login, decide_logout, decide_query, decide_reconnect, granted_hold, lacks_key, live_login, password_of, reads_eui, unit_exists, effect_of, on_login};

use crate::decision::{Effect, Outcome, Response};
use crate::function::Function;
use crate::status::Status;
use login_table::{Login, Logins};
use orb_layout::{LoginResponse, ManagementOrb};
use sbp_base::{NodeId, Offset, quad_at};

/// The base of the agent registers of a place.
fn agent_base(place: u8) -> Offset
    requires { place < 8 }
    ensures { result ≡ agent_base place }
{
    match Offset::new(0xffff_f004_0000 + 0x20 * u64::from(place)) {
        Some(base) => base,
        None => unreachable!(),
    }
}

/// The granted reconnect hold: 2^R seconds less one, and 15 at most.
fn granted_hold(reconnect: u8) -> u16
    ensures { result ≡ granted_hold reconnect }
{
    match reconnect {
        0 => 0,
        1 => 1,
        2 => 3,
        3 => 7,
        _ => 15,
    }
}

/// The 8 bytes of a key as one number.
fn password_of(key: &[u8]) -> u64
    requires { length key.now ≡ 8 }
    ensures { result ≡ password_of key.now }
{
    (u64::from(quad_at(key, 0)) << 32) + u64::from(quad_at(key, 4))
}

/// Whether the key is not zeros, and the password differs from it or its length is not 0.
fn lacks_key(key: u64, orb: &ManagementOrb) -> bool
    ensures { result ≡ lacks_key key orb.now }
{
    key != 0 && (orb.first != key || orb.password_length != 0)
}

/// Whether the function reads the EUI-64 of the source.
#[tactic(auto, unfolding(crate::specs::Decisions::reads_eui))]
pub(crate) fn reads_eui(orb: &ManagementOrb) -> bool
    ensures { result ≡ reads_eui orb.now }
{
    orb.format == 0
        && matches!(Function::read(orb.function), Some(function) if function.wants_eui())
}

/// The number of a unit that exists; there is none where it has no key, or no 8 bits.
fn existing_unit(subject: u16, keys: &[[u8; 8]]) -> Option<u8>
    ensures { result ≡ (if unit_exists subject keys.now then Some subject else None) }
{
    if usize::from(subject) < keys.len() && subject < 256 {
        return Some(subject as u8);
    }
    None
}

/// Logs the source in, where the unit exists, the ORB has its key, and the table has the login.
fn decide_login(
    orb: &ManagementOrb,
    source: NodeId,
    eui: u64,
    logins: &mut Logins,
    keys: &[[u8; 8]],
) -> Outcome
    ensures { (result, logins.new) ≡ decide_login orb.now source eui logins.old keys.now }
{
    let Some(unit) = existing_unit(orb.subject, keys) else {
        return Outcome::with_status(Status::LogicalUnit);
    };
    if lacks_key(password_of(&keys[usize::from(unit)]), orb) {
        return Outcome::with_status(Status::AccessDenied);
    }
    let hold = granted_hold(orb.reconnect);
    match logins.enter(unit, source, eui, orb.fifo, hold, orb.exclusive) {
        Err(refusal) => Outcome::with_status(Status::of(refusal)),
        Ok(entered) => Outcome {
            status: Status::NoFault,
            login: entered.login,
            effect: Effect::Entered {
                place: entered.place,
                replaced: entered.replaced,
            },
            response: Response::Login(LoginResponse {
                login: entered.login,
                agent: agent_base(entered.place),
                hold,
            }),
        },
    }
}

/// Tells the logins of a unit that exists.
fn decide_query(orb: &ManagementOrb, keys: &[[u8; 8]]) -> Outcome
    ensures { result ≡ decide_query orb.now keys.now }
{
    match existing_unit(orb.subject, keys) {
        Some(unit) => Outcome {
            response: Response::Query(unit),
            ..Outcome::with_status(Status::NoFault)
        },
        None => Outcome::with_status(Status::LogicalUnit),
    }
}

/// Makes a held login live again for the source.
fn decide_reconnect(orb: &ManagementOrb, source: NodeId, eui: u64, logins: &mut Logins) -> Outcome
    ensures { (result, logins.new) ≡ decide_reconnect orb.now source eui logins.old }
{
    match logins.back(orb.subject, source, eui) {
        Ok(place) => Outcome::good(Effect::Back { place }),
        Err(refusal) => Outcome::with_status(Status::of(refusal)),
    }
}

/// Removes a login of the source.
fn decide_logout(orb: &ManagementOrb, source: NodeId, logins: &mut Logins) -> Outcome
    ensures { (result, logins.new) ≡ decide_logout orb.now source logins.old }
{
    match logins.leave(orb.subject, source) {
        Ok(place) => Outcome::good(Effect::Left { place }),
        Err(refusal) => Outcome::with_status(Status::of(refusal)),
    }
}

/// The login in a place, where it has this ID and is live for the node.
fn live_at(logins: &Logins, place: u8, login: u16, node: NodeId) -> Option<Login>
    requires { place < 8 }
    ensures login { result ≡ (if has (is_live_of login node) (place_at logins.now.places place) then place_at logins.now.places place else None) }
    ensures size { length logins.now.places ≡ 8 }
{
    match logins.by_agent(place, node) {
        Some(found) if found.login == login => Some(found),
        _ => None,
    }
}

/// The login with this ID that is live for the node.
#[tactic(auto, using(crate::proofs::Lookup::live_found, crate::proofs::Lookup::live_none))]
fn live_login(logins: &Logins, login: u16, node: NodeId) -> Option<Login>
    ensures { result ≡ live_login logins.now.places login node }
{
    for place in 0..8_u8 {
        if let Some(found) = live_at(logins, place, login, node) {
            return Some(found);
        }
    }
    None
}

/// The low 48 bits of an ORB pointer.
fn pointed_orb(orb: &ManagementOrb) -> Offset
    ensures { result ≡ orb.now.first % 2 ^ 48 }
{
    match Offset::new(orb.first & 0xffff_ffff_ffff) {
        Some(offset) => offset,
        None => unreachable!(),
    }
}

/// Acts on a login that is live for the source.
fn decide_on(function: Function, orb: &ManagementOrb, source: NodeId, logins: &Logins) -> Outcome
    ensures { result ≡ on_login (effect_of function orb.now) (live_login logins.now.places orb.now.subject source) }
{
    let Some(login) = live_login(logins, orb.subject, source) else {
        return Outcome::with_status(Status::LoginId);
    };
    Outcome::good(effect_of(function, orb, &login))
}

/// What a function does to a login.
fn effect_of(function: Function, orb: &ManagementOrb, login: &Login) -> Effect
    ensures { result ≡ effect_of function orb.now login.now }
{
    match function {
        Function::Abort => Effect::Abort {
            place: login.place,
            orb: pointed_orb(orb),
        },
        Function::AbortSet => Effect::AbortSet { place: login.place },
        Function::UnitReset => Effect::UnitReset { unit: login.unit },
        Function::TargetReset => Effect::TargetReset,
        _ => Effect::Nothing,
    }
}

/// The decision on an ORB of the source with this EUI-64, by the first row of its function that
/// holds. The logins change as it says.
#[tactic(auto, unfolding(crate::specs::Decisions::decide))]
pub(crate) fn decide(
    orb: &ManagementOrb,
    source: NodeId,
    eui: u64,
    logins: &mut Logins,
    keys: &[[u8; 8]],
) -> Outcome
    ensures { (result, logins.new) ≡ decide orb.now source eui logins.old keys.now }
{
    if orb.format != 0 {
        return Outcome::with_status(Status::RequestType);
    }
    match Function::read(orb.function) {
        None => Outcome::with_status(Status::FunctionRejected),
        Some(Function::Login) => decide_login(orb, source, eui, logins, keys),
        Some(Function::Query) => decide_query(orb, keys),
        Some(Function::Reconnect) => decide_reconnect(orb, source, eui, logins),
        Some(Function::Logout) => decide_logout(orb, source, logins),
        Some(function) => decide_on(function, orb, source, logins),
    }
}
