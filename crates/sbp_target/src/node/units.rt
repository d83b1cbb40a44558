ghost use Rattle.std.specs.Prelude.{◌≡◌, ℕ, ◌+◌, ◌-◌, ◌^◌, ◌<◌, ◌≤◌, List, [], length, OnOk};
ghost use Rattle.async_packet.specs.Packet.{view};
ghost use Rattle.label_table.specs.Bodies.{Gives};
ghost use Rattle.label_table.specs.Requests.{IsRequestOf};
ghost use Rattle.target_base.specs.Addresses.{complete};
ghost use Rattle.sbp_target.specs.Serving.{answered, enabled};
ghost use Rattle.std.specs.List.{list_any};
ghost use Rattle.media_bay.specs.Unsolicited.{block};
ghost use Rattle.sbp_target.specs.Nodes.{desk_at, scene};
ghost use Rattle.sbp_target.specs.Units.{announce_at, announce_from, announce_to, clear_from, clear_unit, cut_all, cut_at, hears, is_cut, is_pending, with_changed};

use super::Node;
use crate::desk::Desk;
use crate::purpose::Purpose;
use crate::sending::send_request;
use async_packet::PacketRef;
use label_table::RequestBody;
use login_table::Login;
use media_bay::write_unsolicited;
use sbp_base::{NoMemory, NodeId};
use sbp_journal::{CutCause, Outbox, Side};
use target_base::{COMPLETE, LoginPlace, mask_of};

/// The places of the table of logins.
const PLACES: usize = 8;

/// Whether a login of a place hears of a disc that a command of another place loaded.
fn hears(unit: u8, from: LoginPlace, place: LoginPlace, desk: &Desk, login: &Login) -> bool
    ensures { result ≡ hears unit from place desk.now login.now }
{
    login.unit == unit
        && login.remaining.is_none()
        && place.number() != from.number()
        && desk.is_enabled
}

/// Whether an unsolicited status to a node is under way, or its label rests.
fn is_pending(pending: &[NodeId], node: NodeId) -> bool
    ensures { result ≡ is_pending node pending.now }
{
    pending.iter().any(|other| node == *other)
}

impl Node {
    /// A disc came into the tray of a unit by a command of the login of a place: the other logins of
    /// the unit are marked.
    pub(super) fn mark_changed(&mut self, unit: u8, from: LoginPlace)
        requires unit { unit < length self.old.units }
        ensures left { self.new ≡ with_changed unit from self.old }
        ensures count { self.new.layer.calls ≡ self.old.layer.calls }
        ensures units { length self.new.units ≡ length self.old.units }
    {
        let others = mask_of(&self.logins, unit, Some(from));
        self.units[usize::from(unit)].changed(others);
    }

    /// Those whose registers are enabled are sent an unsolicited status, by rising place.
    #[tactic(auto, using(crate::proofs::Turns::announcing, crate::proofs::Turns::announced))]
    pub(super) fn announce_all(
        &mut self,
        outbox: &mut Outbox,
        unit: u8,
        from: LoginPlace,
    ) -> Result<(), NoMemory>
        requires count { self.old.layer.calls + 8 ≤ 2 ^ 56 }
        ensures step { OnOk result (scene self.new outbox.new ≡ announce_from 8 0 unit from (scene self.old outbox.old)) }
        ensures count { self.new.layer.calls ≤ self.old.layer.calls + 8 }
        ensures units { length self.new.units ≡ length self.old.units }
    {
        for place in 0..PLACES {
            self.announce_at(outbox, unit, from, LoginPlace::new(place as u8))?;
        }
        Ok(())
    }

    /// Tells the login of a place, if it hears of it.
    #[tactic(auto, unfolding(crate::specs::Units::announce_at))]
    fn announce_at(
        &mut self,
        outbox: &mut Outbox,
        unit: u8,
        from: LoginPlace,
        place: LoginPlace,
    ) -> Result<(), NoMemory>
        requires count { self.old.layer.calls < 2 ^ 56 }
        ensures step { OnOk result (scene self.new outbox.new ≡ announce_at unit from place (scene self.old outbox.old)) }
        ensures count { self.new.layer.calls ≤ self.old.layer.calls + 1 }
        ensures units { length self.new.units ≡ length self.old.units }
    {
        let Some(login) = self.logins.at(place.number()) else {
            return Ok(());
        };
        let desk = &self.desks[place.index()];
        if !hears(unit, from, place, desk, &login) {
            return Ok(());
        }
        self.announce_to(outbox, place, &login)
    }

    /// A write of UNSOLICITED_STATUS_ENABLE.
    pub(super) fn enable(
        &mut self,
        outbox: &mut Outbox,
        request: &PacketRef<'_>,
        bytes: &[u8],
        place: LoginPlace,
    ) -> Result<(), NoMemory>
        requires request { IsRequestOf bytes.now (view request.now) }
        requires suits { (rcode : ℕ) (given : List ℕ) → Gives (view request.now) rcode given }
        ensures step { OnOk result (scene self.new outbox.new ≡ answered (view request.now) bytes.now complete [] (enabled place (scene self.old outbox.old))) }
        ensures count { self.new.layer.calls ≡ self.old.layer.calls }
        ensures units { length self.new.units ≡ length self.old.units }
    {
        self.desks[place.index()].is_enabled = true;
        self.answer(outbox, request, bytes, COMPLETE, &[])
    }

    /// Sends a login its unsolicited status, or tells that it was not sent.
    #[tactic(auto, unfolding(crate::specs::Units::announce_to))]
    fn announce_to(
        &mut self,
        outbox: &mut Outbox,
        place: LoginPlace,
        login: &Login,
    ) -> Result<(), NoMemory>
        requires count { self.old.layer.calls < 2 ^ 56 }
        ensures step { OnOk result (scene self.new outbox.new ≡ announce_to place login.now (scene self.old outbox.old)) }
        ensures count { self.new.layer.calls ≤ self.old.layer.calls + 1 }
        ensures units { length self.new.units ≡ length self.old.units }
    {
        let place_number = place.number();
        if is_pending(&self.pending, login.node) {
            return outbox.tell(Side::Unsent {
                place: place_number,
            });
        }
        let mut block = [0; 24];
        write_unsolicited(&mut block);
        let body = RequestBody::WriteBlock {
            offset: login.fifo,
            payload: &block,
        };
        let purpose = Purpose::Unsolicited;
        let sent = send_request(
            &mut self.layer,
            outbox,
            self.alloc,
            login.node,
            &body,
            purpose,
        )?;
        if sent.is_none() {
            return outbox.tell(Side::Unsent {
                place: place_number,
            });
        }
        self.desks[place.index()].is_enabled = false;
        self.pending.push(login.node)?;
        outbox.tell(Side::Unsolicited {
            place: place_number,
        })
    }

    /// Cuts the lists of the logins of a unit, or all, by rising place.
    #[tactic(auto, using(crate::proofs::Turns::cutting, crate::proofs::Turns::cut_off))]
    pub(super) fn cut_all(
        &mut self,
        outbox: &mut Outbox,
        cause: CutCause,
        unit: Option<u8>,
    ) -> Result<(), NoMemory>
        ensures step { OnOk result (scene self.new outbox.new ≡ cut_all cause unit (scene self.old outbox.old)) }
        ensures count { self.new.layer.calls ≡ self.old.layer.calls }
        ensures units { length self.new.units ≡ length self.old.units }
    {
        for place in 0..PLACES {
            self.cut_at(outbox, cause, unit, LoginPlace::new(place as u8))?;
        }
        Ok(())
    }

    /// Cuts the list of a place, if it is one of the unit.
    #[tactic(auto, unfolding(crate::specs::Units::cut_at))]
    fn cut_at(
        &mut self,
        outbox: &mut Outbox,
        cause: CutCause,
        unit: Option<u8>,
        place: LoginPlace,
    ) -> Result<(), NoMemory>
        ensures step { OnOk result (scene self.new outbox.new ≡ cut_at cause unit place (scene self.old outbox.old)) }
        ensures count { self.new.layer.calls ≡ self.old.layer.calls }
        ensures units { length self.new.units ≡ length self.old.units }
    {
        if is_cut(unit, self.logins.at(place.number())) {
            self.cut(outbox, place, cause)?;
        }
        Ok(())
    }

    /// Resets a unit: its logins are to be told.
    #[tactic(auto, unfolding(crate::specs::Units::clear_unit))]
    pub(super) fn clear_unit(&mut self, outbox: &mut Outbox, unit: u8) -> Result<(), NoMemory>
        requires unit { unit < length self.old.units }
        ensures step { OnOk result (scene self.new outbox.new ≡ clear_unit unit (scene self.old outbox.old)) }
        ensures count { self.new.layer.calls ≡ self.old.layer.calls }
        ensures units { length self.new.units ≡ length self.old.units }
    {
        let logins = mask_of(&self.logins, unit, None);
        self.units[usize::from(unit)].clear(logins);
        outbox.tell(Side::Cleared(unit))
    }

    /// Resets all units, by rising number.
    #[tactic(auto, using(crate::proofs::Turns::clearing, crate::proofs::Turns::cleared_all))]
    pub(super) fn clear_all(&mut self, outbox: &mut Outbox) -> Result<(), NoMemory>
        ensures step { OnOk result (scene self.new outbox.new ≡ clear_from (length self.old.units) 0 (scene self.old outbox.old)) }
        ensures count { self.new.layer.calls ≡ self.old.layer.calls }
        ensures units { length self.new.units ≡ length self.old.units }
    {
        for unit in 0..self.units.len() {
            self.clear_unit(outbox, unit as u8)?;
        }
        Ok(())
    }
}

/// Whether a reset of a unit, or of all, cuts the list of a login.
fn is_cut(unit: Option<u8>, login: Option<Login>) -> bool
    ensures { result ≡ is_cut unit login }
{
    match (unit, login) {
        (None, _) => true,
        (Some(unit), Some(login)) => login.unit == unit,
        (Some(_), None) => false,
    }
}
