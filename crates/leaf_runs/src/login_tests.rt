use login_table::{Entered, LoginRefusal, Logins};
use sbp_base::{NodeId, Offset};

const EUI: u64 = 0x0011_2233_4455_6677;

/// What is done with the logins. A node FFC0h + `physical` has an EUI-64 of its own.
#[derive(Clone, Copy)]
enum Turn {
    /// A login to a unit, with hold 3, which is exclusive or not.
    Enter(u8, u8, bool),
    /// A reconnect of a login of a node.
    Back(u16, u8),
    /// A logout of a login of a node.
    Leave(u16, u8),
    /// The login that the agent at a place serves a node by.
    Agent(u8, u8),
    /// A reset.
    Hold,
    /// A second.
    Tick,
}

/// What comes of it: a place, a login ID and the login that was replaced, 0 where there is none. Of a
/// second: how many logins it ends, and the first of them.
type Told = Result<(u8, u16, u16), LoginRefusal>;

/// Nothing is told.
const NOTHING: Told = Ok((0, 0, 0));

/// Does a turn.
fn told(logins: &mut Logins, turn: Turn) -> Option<Told> {
    let told = match turn {
        Turn::Enter(unit, physical, exclusive) => {
            let fifo = Offset::new(0x1_0000)?;
            let node = NodeId::local(physical)?;
            let eui = EUI ^ u64::from(physical);
            let entered = logins.enter(unit, node, eui, fifo, 3, exclusive);
            entered.map(|entered| (entered.place, entered.login, entered.replaced.unwrap_or(0)))
        }
        Turn::Back(login, physical) => {
            let eui = EUI ^ u64::from(physical);
            let place = logins.back(login, NodeId::local(physical)?, eui);
            place.map(|place| (place, 0, 0))
        }
        Turn::Leave(login, physical) => {
            let place = logins.leave(login, NodeId::local(physical)?);
            place.map(|place| (place, 0, 0))
        }
        Turn::Agent(place, physical) => {
            let login = logins.by_agent(place, NodeId::local(physical)?);
            Ok((place, login.map_or(0, |login| login.login), 0))
        }
        Turn::Hold => {
            logins.hold();
            NOTHING
        }
        Turn::Tick => {
            let ended = logins.tick();
            let ended = ended.as_slice();
            Ok((
                ended.len().min(8) as u8,
                ended.first().copied().unwrap_or(0),
                0,
            ))
        }
    };
    Some(told)
}

/// A reconnect in the last second of a hold of 3 + 1 seconds.
const LAST_SECOND: [(Turn, Told); 7] = [
    (Turn::Enter(0, 1, false), Ok((0, 1, 0))),
    (Turn::Hold, NOTHING),
    (Turn::Tick, NOTHING),
    (Turn::Tick, NOTHING),
    (Turn::Tick, NOTHING),
    (Turn::Back(1, 1), Ok((0, 0, 0))),
    (Turn::Back(1, 1), Err(LoginRefusal::Unknown)),
];

/// A reconnect after the last second, and a live login, which no second takes.
const AFTER_THE_LAST_SECOND: [(Turn, Told); 9] = [
    (Turn::Enter(0, 1, false), Ok((0, 1, 0))),
    (Turn::Hold, NOTHING),
    (Turn::Enter(0, 2, false), Ok((1, 2, 0))),
    (Turn::Tick, NOTHING),
    (Turn::Tick, NOTHING),
    (Turn::Tick, NOTHING),
    (Turn::Tick, Ok((1, 1, 0))),
    (Turn::Back(1, 1), Err(LoginRefusal::Unknown)),
    (Turn::Agent(1, 2), Ok((1, 2, 0))),
];

/// An exclusive login keeps others out, live and held, until it is gone; its own node comes back to
/// its unit by a new login in place of the held one.
const EXCLUSIVE: [(Turn, Told); 7] = [
    (Turn::Enter(0, 1, true), Ok((0, 1, 0))),
    (Turn::Enter(0, 2, false), Err(LoginRefusal::Denied)),
    (Turn::Hold, NOTHING),
    (Turn::Enter(0, 2, false), Err(LoginRefusal::Denied)),
    (Turn::Enter(0, 1, false), Ok((0, 2, 1))),
    (Turn::Enter(0, 2, true), Err(LoginRefusal::Denied)),
    (Turn::Enter(0, 2, false), Ok((1, 3, 0))),
];

/// Whether a course tells so from no logins on.
fn is_told(course: &[(Turn, Told)]) -> bool {
    let mut logins = Logins::new();
    for (turn, expected) in course {
        if told(&mut logins, *turn) != Some(*expected) {
            return false;
        }
    }
    true
}

/// Whether the IDs go up to 65535, of one login behind the other beside the first.
fn ids_go_up(logins: &mut Logins) -> bool {
    if told(logins, Turn::Enter(0, 1, false)) != Some(Ok((0, 1, 0))) {
        return false;
    }
    for login in 2..=u16::MAX {
        let entered = told(logins, Turn::Enter(1, 2, false));
        let left = told(logins, Turn::Leave(login, 2));
        if entered != Some(Ok((1, login, 0))) || left != Some(Ok((1, 0, 0))) {
            return false;
        }
    }
    true
}

/// Whether they then go round, past the one that is in use, and the ninth login finds no room.
fn ids_go_round(logins: &mut Logins) -> bool {
    for physical in 2..9_u8 {
        match told(logins, Turn::Enter(1, physical, false)) {
            Some(Ok((_place, login, _replaced))) if login == u16::from(physical) => {}
            _ => return false,
        }
    }
    told(logins, Turn::Enter(1, 9, false)) == Some(Err(LoginRefusal::NoRoom))
}

#[test]
fn courses(rt: HostRuntime) {
    assert!(rt; is_told(&LAST_SECOND));
    assert!(rt; is_told(&AFTER_THE_LAST_SECOND));
    assert!(rt; is_told(&EXCLUSIVE));
    let mut logins = Logins::new();
    assert!(rt; ids_go_up(&mut logins));
    assert!(rt; ids_go_round(&mut logins));
}
