ghost use Rattle.std.specs.Prelude.{◌≡◌, ◌==◌};
ghost use Rattle.login_table.specs.Table.{entered, excludes, held_for, is_double, is_held, is_last, is_live, is_live_of, is_of_node, is_old, one_less, revived};

use sbp_base::{NodeId, Offset};
use std::marker::Model;

/// A login of a node to a unit.
#[derive(Clone, Copy, Debug, PartialEq, Eq)]
pub struct Login {
    /// Its place in the table, 0 to 7, which is its agent's number.
    pub place: u8,
    /// Its ID, 1 to 65535.
    pub login: u16,
    pub unit: u8,
    /// The node of its login or of its latest reconnect.
    pub node: NodeId,
    pub eui: u64,
    /// Where statuses go.
    pub fifo: Offset,
    /// The reconnect hold that was granted: it is held one second more.
    pub hold: u16,
    /// The seconds left of a held login; a live one has none.
    pub remaining: Option<u32>,
    pub exclusive: bool,
}

/// What a login asks for.
#[derive(Drop)]
pub(crate) struct Asked {
    pub(crate) unit: u8,
    pub(crate) node: NodeId,
    pub(crate) eui: u64,
    pub(crate) fifo: Offset,
    pub(crate) hold: u16,
    pub(crate) exclusive: bool,
}

impl Model for Asked {
    ghost use Rattle.login_table.specs.Requests.{LoginRequest};

    ghost Value = { LoginRequest };

    ghost view = { λ a. record { unit = a.unit; node = a.node; eui = a.eui; fifo = a.fifo; hold = a.hold; exclusive = a.exclusive } };
}

/// A login that was entered.
#[derive(Clone, Copy, Debug, PartialEq, Eq)]
pub struct Entered {
    pub place: u8,
    pub login: u16,
    /// The ID of the held login that it replaced.
    pub replaced: Option<u16>,
}

/// Why a login, a reconnect or a logout is refused.
#[derive(Clone, Copy, Debug, PartialEq, Eq)]
pub enum LoginRefusal {
    /// The unit is not free to this node.
    Denied,
    /// The table is full.
    NoRoom,
    /// There is no such login.
    Unknown,
    /// The login is another EUI-64's, or the node has a live login on its unit.
    OtherNode,
}

impl Login {
    /// A live login as it was asked for.
    pub(crate) fn entered(asked: &Asked, place: u8, login: u16) -> Login
        ensures { result ≡ entered asked.now place login }
    {
        Login {
            place,
            login,
            unit: asked.unit,
            node: asked.node,
            eui: asked.eui,
            fifo: asked.fifo,
            hold: asked.hold,
            remaining: None,
            exclusive: asked.exclusive,
        }
    }

    pub(crate) fn is_live(&self) -> bool
        ensures { result ≡ is_live self.now }
    {
        self.remaining.is_none()
    }

    pub(crate) fn has_id(&self, login: u16) -> bool
        ensures { result ≡ (self.now.login == login) }
    {
        self.login == login
    }

    /// Whether it is a live login of the EUI-64, or of the node, on the unit.
    pub(crate) fn is_double(&self, asked: &Asked) -> bool
        ensures { result ≡ is_double asked.now self.now }
    {
        self.is_live()
            && self.unit == asked.unit
            && (self.eui == asked.eui || self.node == asked.node)
    }

    /// Whether it is a login of another EUI-64 on the unit, and it or the new one is exclusive.
    pub(crate) fn excludes(&self, asked: &Asked) -> bool
        ensures { result ≡ excludes asked.now self.now }
    {
        self.unit == asked.unit && self.eui != asked.eui && (self.exclusive || asked.exclusive)
    }

    /// Whether it is a held login of the EUI-64 on the unit.
    pub(crate) fn is_old(&self, asked: &Asked) -> bool
        ensures { result ≡ is_old asked.now self.now }
    {
        !self.is_live() && self.unit == asked.unit && self.eui == asked.eui
    }

    /// Whether it is a live login of the node on the unit.
    pub(crate) fn is_of_node(&self, unit: u8, node: NodeId) -> bool
        ensures { result ≡ is_of_node unit node self.now }
    {
        self.is_live() && self.unit == unit && self.node == node
    }

    /// Whether it is held and has the ID.
    pub(crate) fn is_held(&self, login: u16) -> bool
        ensures { result ≡ is_held login self.now }
    {
        !self.is_live() && self.login == login
    }

    /// Whether it is live for the node and has the ID.
    pub(crate) fn is_live_of(&self, login: u16, node: NodeId) -> bool
        ensures { result ≡ is_live_of login node self.now }
    {
        self.is_live() && self.login == login && self.node == node
    }

    /// The login, live for a node.
    pub(crate) fn revived(self, node: NodeId) -> Login
        ensures { result ≡ revived node self }
    {
        Login {
            node,
            remaining: None,
            ..self
        }
    }

    /// The login, held.
    pub(crate) fn held(self) -> Login
        ensures { result ≡ record self { remaining = Some (held_for self.remaining self.hold) } }
    {
        let seconds = match self.remaining {
            Some(seconds) => seconds,
            None => u32::from(self.hold) + 1,
        };
        Login {
            remaining: Some(seconds),
            ..self
        }
    }

    /// Whether the next second is its last one; a live login has none.
    pub(crate) fn is_last(&self) -> bool
        ensures { result ≡ is_last self.now.remaining }
    {
        match self.remaining {
            Some(seconds) => seconds <= 1,
            None => false,
        }
    }

    /// The login after one more second, which is not its last.
    pub(crate) fn one_less(self) -> Login
        ensures { result ≡ record self { remaining = one_less self.remaining } }
    {
        let remaining = match self.remaining {
            Some(seconds) => Some(seconds.saturating_sub(1)),
            None => None,
        };
        Login { remaining, ..self }
    }
}
