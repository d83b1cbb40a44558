ghost use Rattle.std.specs.Prelude.{◌≡◌, ◌<◌, ◌≤◌, length, OnErr, IfOk, IfSome};
ghost use Rattle.login_table.specs.Sound.{IsNumbered};
ghost use Rattle.login_table.specs.Table.{new_table, enter_step, back_step, leave_step, hold_step, tick_step, by_agent, place_at};

use crate::expired::{Expired, tick_all};
use crate::ids::fresh_id;
use crate::login::{Asked, Entered, Login, LoginRefusal};
use crate::places::{
    Place, any_of_node, empty_place, held_place, hold_all, if_of_node, is_denied, live_place,
    place_at, remove_old,
};
use sbp_base::{NodeId, Offset};
use std::marker::Model;

/// The logins of a target, in 8 places.
#[derive(Drop)]
pub struct Logins {
    last: u16,
    places: [Place; 8],
}

impl Model for Logins {
    ghost use Rattle.login_table.specs.Table.{Table};
    ghost use Rattle.login_table.specs.Sound.{IsTable};

    ghost Value = { Table };

    ghost view = { λ a. record { last = a.last; places = a.places } };

    ghost invariant = { λ a. IsTable (record { last = a.last; places = a.places }) };
}

impl Logins {
    /// A table without logins.
    pub fn new() -> Logins
        ensures { result ≡ new_table }
    {
        Logins {
            last: 0,
            places: [None; 8],
        }
    }

    /// Enters a live login into the lowest free place, with the next login ID. `Denied` exactly where
    /// a live login of the EUI-64, or of the node, on the unit exists, or where another EUI-64 has an
    /// exclusive login on the unit, live or held, or the new one is exclusive and another EUI-64 has
    /// a login on the unit, live or held. Else a held login of the EUI-64 on the unit is removed.
    /// `NoRoom` exactly where no place is then free. A refusal leaves the table as it was.
    #[tactic(auto, unfolding(crate::specs::Table::enter_step), using(crate::proofs::Searching::left_full))]
    pub fn enter(
        &mut self,
        unit: u8,
        node: NodeId,
        eui: u64,
        fifo: Offset,
        hold: u16,
        exclusive: bool,
    ) -> Result<Entered, LoginRefusal>
        ensures step { (result, self.new) ≡ enter_step self.old (record { unit = unit; node = node; eui = eui; fifo = fifo; hold = hold; exclusive = exclusive }) }
        ensures refused { OnErr result (self.new ≡ self.old) }
        ensures below { IfOk result (λ entered. entered.place < 8) }
    {
        let asked = Asked {
            unit,
            node,
            eui,
            fifo,
            hold,
            exclusive,
        };
        if is_denied(&self.places, &asked) {
            return Err(LoginRefusal::Denied);
        }
        let replaced = remove_old(&mut self.places, &asked);
        let Some(free) = empty_place(&self.places) else {
            return Err(LoginRefusal::NoRoom);
        };
        let place = free as u8;
        let login = fresh_id(&self.places, self.last);
        self.places[free] = Some(Login::entered(&asked, place, login));
        self.last = login;
        Ok(Entered {
            place,
            login,
            replaced,
        })
    }

    /// Makes a held login live again for a node, and gives its place. `Unknown` exactly where no held
    /// login has the ID; else `OtherNode` exactly where it is held for another EUI-64, or a live login
    /// of the node on its unit exists. A refusal leaves the table as it was.
    #[tactic(auto, unfolding(crate::specs::Table::back_step))]
    pub fn back(&mut self, login: u16, node: NodeId, eui: u64) -> Result<u8, LoginRefusal>
        ensures step { (result, self.new) ≡ back_step self.old login node eui }
        ensures refused { OnErr result (self.new ≡ self.old) }
        ensures below { IfOk result (λ place. place < 8) }
    {
        let Some(place) = held_place(&self.places, login) else {
            return Err(LoginRefusal::Unknown);
        };
        let Some(held) = self.places[place] else {
            unreachable!();
        };
        if held.eui != eui || any_of_node(&self.places, held.unit, node) {
            return Err(LoginRefusal::OtherNode);
        }
        self.places[place] = Some(held.revived(node));
        Ok(place as u8)
    }

    /// Removes a login, and gives its place. `Unknown` exactly where no login with the ID is live for
    /// the node; the table then stays.
    #[tactic(auto, unfolding(crate::specs::Table::leave_step))]
    pub fn leave(&mut self, login: u16, node: NodeId) -> Result<u8, LoginRefusal>
        ensures step { (result, self.new) ≡ leave_step self.old login node }
        ensures refused { OnErr result (self.new ≡ self.old) }
        ensures below { IfOk result (λ place. place < 8) }
    {
        let Some(place) = live_place(&self.places, login, node) else {
            return Err(LoginRefusal::Unknown);
        };
        self.places[place] = None;
        Ok(place as u8)
    }

    /// Holds each live login for its granted hold and one second more. A login that was held already
    /// keeps its seconds.
    pub fn hold(&mut self)
        ensures { self.new ≡ hold_step self.old }
    {
        hold_all(&mut self.places);
    }

    /// Takes one second from each held login. Those that have none left are removed, and their IDs
    /// told.
    pub fn tick(&mut self) -> Expired
        ensures step { (result, self.new) ≡ tick_step self.old }
        ensures most { length result ≤ 8 }
    {
        let mut expired = Expired::new();
        tick_all(&mut self.places, &mut expired);
        expired
    }

    /// The live login of a node in a place; there is none exactly where no live login of that node
    /// has the place.
    pub fn by_agent(&self, place: u8, node: NodeId) -> Option<Login>
        ensures login { result ≡ by_agent self.now.places place node }
        ensures numbered { IfSome result (IsNumbered place) }
        ensures size { length self.now.places ≡ 8 }
    {
        if_of_node(place_at(&self.places, place), node)
    }

    /// The login in a place; there is none exactly where the place is empty.
    pub fn at(&self, place: u8) -> Option<Login>
        requires { place < 8 }
        ensures login { result ≡ place_at self.now.places place }
        ensures numbered { IfSome result (IsNumbered place) }
        ensures size { length self.now.places ≡ 8 }
    {
        self.places[usize::from(place)]
    }
}
