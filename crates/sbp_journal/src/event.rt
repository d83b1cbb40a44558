use sbp_base::{Bytes, Lengths};

/// A command that an initiator prepares: its command block, its buffer and how the buffer is moved.
#[derive(Drop)]
pub struct Cmd {
    /// The command block.
    pub cdb: [u8; 12],
    /// Whether the buffer's direction is to the initiator.
    pub to_initiator: bool,
    /// The buffer's length in bytes.
    pub length: u16,
    /// The data of a write, else no bytes.
    pub payload: Bytes,
    /// The lengths of the buffer's segments; none where the buffer is in one piece.
    pub segments: Lengths,
    /// The field max_payload of the ORB: a packet moves at most 2 to the power of this number plus 2
    /// bytes (NCITS 325-1998, command block ORB).
    pub max_payload: u8,
}

/// What an initiator does.
#[derive(Drop)]
pub enum Action {
    /// Reads the target's configuration ROM.
    Rom,
    /// Logs in on a unit; `reconnect` is the field of that name of the login ORB.
    Login {
        unit: u8,
        reconnect: u8,
        exclusive: bool,
        password: [u8; 8],
    },
    /// Asks for the logins of a unit.
    Query {
        unit: u8,
    },
    /// Takes its login back after a reset.
    Reconnect,
    /// Gives its login back.
    Logout,
    /// Aborts an ORB of the present list.
    Abort {
        orb: u32,
    },
    /// Aborts all ORBs of its login.
    AbortSet,
    /// Resets its unit.
    UnitReset,
    /// Resets the target.
    TargetReset,
    /// Writes the agent's reset register.
    AgentReset,
    /// Reads the agent's state register.
    State,
    /// Makes an ORB of the present list a dummy.
    Dummy {
        orb: u32,
    },
    /// Prepares an ORB.
    Put(Cmd),
    /// Prepares an ORB, links it and rings.
    Append(Cmd),
    /// Writes the low quadlet of the next pointer before the prepared ORB.
    Low,
    /// Writes the high quadlet of that pointer, which links the ORB.
    Link,
    /// Tells the target of the last linked ORB.
    Ring,
    /// Opens the agent's register for unsolicited status.
    Enable,
}

/// What a line of a script says. A node is 0 for the target and i + 1 for initiator i.
#[derive(Drop)]
pub enum Event {
    /// The run begins with so many initiators, each logged in on unit 0 where `ready` is set.
    Begin { initiators: u8, ready: bool },
    /// An initiator acts.
    Act { initiator: u8, action: Action },
    /// A bus reset: the new physical IDs of the target and of each initiator, one byte each.
    Reset { ids: Bytes },
    /// A node sees the latest reset.
    See { node: u8 },
    /// A packet in flight arrives.
    Deliver { serial: u64 },
    /// A packet arrives once more, in flight or delivered, and stays as it is.
    Repeat { serial: u64 },
    /// A packet in flight is lost.
    Lose { serial: u64 },
    /// The time for the answer to a request runs out.
    Timeout { serial: u64 },
    /// The lowest packets in flight arrive, so many of them.
    Step { count: u32 },
    /// What is under way comes to its end.
    Settle,
    /// A second passes.
    Tick,
    /// An initiator sends these bytes as a packet.
    Inject { initiator: u8, bytes: Bytes },
    /// A unit gets a key for later logins.
    Key { unit: u8, key: [u8; 8] },
}
