use login_table::Logins;
use mgmt_agent::{Busy, Decision, Effect, Manager, ManagerStep};
use orb_layout::{Ask, FailCause, Reply};
use sbp_base::{NodeId, Offset, put_quad};

/// A unit has no key.
const NO_KEY: u64 = 0;

/// The key of a unit, and the password that it is.
const PASSWORD: u64 = 0x0102_0304_0506_0708;

/// The first two bytes of a password's length: it is not immediate.
const ELSEWHERE: u32 = 8 << 16;

/// A manager with its logins, and the key of its one unit.
#[derive(Drop)]
struct Desk {
    manager: Manager,
    logins: Logins,
    keys: [[u8; 8]; 1],
}

/// A login to unit 0 that is tried: the node, whether it is exclusive, the password and the lengths of its
/// ORB, and the status and the login ID that are decided.
type Case = (u8, bool, u64, u32, u8, u16);

impl Desk {
    fn new(key: u64) -> Desk {
        Desk {
            manager: Manager::new(),
            logins: Logins::new(),
            keys: [key.to_be_bytes()],
        }
    }

    /// Gives a reply where an operation is under way.
    fn reply(&mut self, reply: Reply<'_>) -> Result<ManagerStep, &'static str> {
        if self.manager.source().is_none() {
            return Err("no operation");
        }
        Ok(self.manager.reply(&mut self.logins, &self.keys, reply))
    }

    /// Starts an operation of a node, whose ORB stands at 30000h, and reads the ORB.
    fn start(&mut self, physical: u8, bytes: &[u8]) -> Result<ManagerStep, &'static str> {
        match self.manager.start(node(physical)?, offset(0x3_0000)?) {
            Ok(Ask::Read { length: 32, .. }) => self.reply(Reply::Payload(bytes)),
            _ => Err("start"),
        }
    }

    /// Gives the EUI-64 0011223300000000h + `last`.
    fn give_eui(&mut self, last: u8) -> Result<ManagerStep, &'static str> {
        self.reply(Reply::Payload(&[0, 0x11, 0x22, 0x33]))?;
        self.reply(Reply::Payload(&[0, 0, 0, last]))
    }

    /// A login of a node, whose EUI-64 ends with its number, from its start to its end.
    fn login(&mut self, physical: u8, bytes: &[u8]) -> Result<Decision, &'static str> {
        self.start(physical, bytes)?;
        let step = self.give_eui(physical)?;
        let decision = step.decided.ok_or("not decided")?;
        if let Ask::Write { .. } = self.reply(Reply::Done)?.ask {
            self.reply(Reply::Done)?;
        }
        Ok(decision)
    }

    /// Whether each login is decided so.
    fn decides(&mut self, cases: &[Case]) -> bool {
        for (physical, exclusive, password, lengths, status, login) in cases {
            let bytes = orb(0, *exclusive, *password, *lengths);
            let decision = Decision {
                function: 0,
                subject: 0,
                status: *status,
                login: *login,
            };
            if self.login(*physical, &bytes) != Ok(decision) {
                return false;
            }
        }
        true
    }
}

/// A management ORB with notify 0, whose status goes to 20000h and whose response to 10000h.
fn orb(function: u8, exclusive: bool, password: u64, lengths: u32) -> [u8; 32] {
    orb_on(function, exclusive, 0, password, lengths)
}

/// An ORB of a function on login ID 1, with the password's bytes as its ORB pointer.
fn on_login(function: u8) -> [u8; 32] {
    orb_on(function, false, 1, PASSWORD, 0)
}

/// The same of a login ID or unit.
fn orb_on(function: u8, exclusive: bool, subject: u8, password: u64, lengths: u32) -> [u8; 32] {
    let mut bytes = [0; 32];
    bytes[0..8].copy_from_slice(&password.to_be_bytes());
    bytes[13] = 1;
    bytes[16] = if exclusive { 0x10 } else { 0 };
    bytes[17] = function;
    bytes[19] = subject;
    put_quad(&mut bytes, 20, lengths);
    bytes[29] = 2;
    bytes
}

/// The node FFC0h + `physical`.
fn node(physical: u8) -> Result<NodeId, &'static str> {
    NodeId::local(physical).ok_or("node")
}

/// The address of a value.
fn offset(value: u64) -> Result<Offset, &'static str> {
    Offset::new(value).ok_or("offset")
}

/// Whether an exclusive login keeps another node out until it leaves.
fn keeps_out(desk: &mut Desk) -> Result<bool, &'static str> {
    let is_out = desk.decides(&[(1, true, 0, 16, 0x00, 1), (2, false, 0, 16, 0x04, 0)]);
    let is_left = desk.logins.leave(1, node(1)?) == Ok(0);
    Ok(is_out && is_left && desk.decides(&[(2, false, 0, 16, 0x00, 2)]))
}

/// Logins to a unit with a key, which wants it as an immediate password.
const KEYED: [Case; 3] = [
    (1, false, 0, 16, 0x04, 0),
    (1, false, PASSWORD, ELSEWHERE + 16, 0x04, 0),
    (1, false, PASSWORD, 16, 0x00, 1),
];

/// The first entries of the response of a query, cut after 20 bytes.
const CUT: [u8; 20] = [
    0, 100, 0, 8, 0xff, 0xc1, 0, 1, 0, 0x11, 0x22, 0x33, 0, 0, 0, 1, 0xff, 0xc2, 0, 2,
];

/// Whether a unit takes eight logins.
fn takes_eight(desk: &mut Desk) -> bool {
    for physical in 1..=8_u8 {
        if !desk.decides(&[(physical, false, 0, 0, 0x00, u16::from(physical))]) {
            return false;
        }
    }
    true
}

/// Whether a query of it is cut after the 20 bytes that its ORB allows; the operation keeps others waiting,
/// and fails where its time runs out.
fn cuts_query(desk: &mut Desk) -> Result<bool, &'static str> {
    let first = node(1)?;
    let place = offset(0x1_0000)?;
    let write = Ask::Write {
        offset: place,
        length: 20,
    };
    desk.logins.hold();
    let is_cut = desk.start(9, &orb(1, false, 0, 20))?.ask == write
        && desk.manager.outgoing() == CUT.as_slice();
    let is_busy = desk.manager.start(first, place) == Err(Busy);
    let is_failed = desk.reply(Reply::Expired)?.failed == Some(FailCause::Timeout);
    Ok(is_cut && is_busy && is_failed && desk.manager.start(first, place).is_ok())
}

/// Whether a function on login ID 1 has this status for a node, and does this, if anything.
fn does(desk: &mut Desk, function: u8, physical: u8, status: u8, effect: Option<Effect>) -> bool {
    let Ok(step) = desk.start(physical, &on_login(function)) else {
        return false;
    };
    match step.decided {
        Some(decision) => {
            decision.status == status && (effect.is_none() || effect == Some(step.effect))
        }
        None => false,
    }
}

/// Whether a function on a live login is refused another node, whose operation a reset ends, and does this for
/// its node.
fn is_done(desk: &mut Desk, function: u8, effect: Effect) -> bool {
    let is_refused = does(desk, function, 2, 0x0a, None);
    desk.manager.clear();
    is_refused && does(desk, function, 1, 0x00, Some(effect)) && desk.reply(Reply::Done).is_ok()
}

/// Whether each function is so.
fn functions_on_a_login(desk: &mut Desk) -> Result<bool, &'static str> {
    let orb = offset(0x0304_0506_0708)?;
    let are_done = desk.decides(&[(1, false, 0, 16, 0x00, 1)])
        && is_done(desk, 0xb, Effect::Abort { place: 0, orb })
        && is_done(desk, 0xc, Effect::AbortSet { place: 0 })
        && is_done(desk, 0xe, Effect::UnitReset { unit: 0 })
        && is_done(desk, 0xf, Effect::TargetReset)
        && is_done(desk, 0x7, Effect::Left { place: 0 });
    Ok(are_done)
}

/// Whether a reconnect of the EUI-64 of a held login, under another node ID, brings it back.
fn reconnects(desk: &mut Desk) -> Result<bool, &'static str> {
    let is_in = desk.decides(&[(1, false, 0, 16, 0x00, 1)]);
    desk.logins.hold();
    desk.start(2, &on_login(3))?;
    let is_back = desk.give_eui(1)?.effect == Effect::Back { place: 0 };
    Ok(is_in && is_back && desk.logins.by_agent(0, node(2)?).is_some())
}

/// Operations of new managers each.
#[test]
fn operations(rt: HostRuntime) {
    assert!(rt; keeps_out(&mut Desk::new(NO_KEY)) == Ok(true));
    assert!(rt; Desk::new(PASSWORD).decides(&KEYED));
    let mut full = Desk::new(NO_KEY);
    assert!(rt; takes_eight(&mut full));
    assert!(rt; cuts_query(&mut full) == Ok(true));
    assert!(rt; functions_on_a_login(&mut Desk::new(NO_KEY)) == Ok(true));
    assert!(rt; reconnects(&mut Desk::new(NO_KEY)) == Ok(true));
}
