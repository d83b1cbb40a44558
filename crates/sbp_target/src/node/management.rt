ghost use Rattle.std.specs.Prelude.{◌≡◌, ◌+◌, ◌^◌, ◌<◌, ◌≤◌, length, IfSome, OnOk};
ghost use Rattle.std.specs.Option.{option_map};
ghost use Rattle.label_table.specs.Bodies.{FitsBody, body_of};
ghost use Rattle.orb_layout.specs.Replies.{answer_of};
ghost use Rattle.sbp_target.specs.Nodes.{scene};
ghost use Rattle.sbp_target.specs.Management.{ask_manager, clear_one, decided_by, effect_by, fresh_desk, left_desk, lose_operation, manage, manager_body, tell_failed, tell_left, tell_managed};

use super::Node;
use super::agents::agent_body;
use crate::purpose::Purpose;
use crate::sending::send_request;
use label_table::RequestBody;
use mgmt_agent::{Decision, Effect, ManagerStep};
use orb_layout::{Ask, FailCause, Reply};
use sbp_base::{NoMemory, NodeId, Offset};
use sbp_journal::{CutCause, Outbox, Side};
use target_base::LoginPlace;

/// What the management agent asks for, as a request: a quadlet of an EUI-64 is read by a quadlet
/// read, all else by blocks.
fn manager_body<'a>(ask: Ask, outgoing: &'a [u8]) -> Option<RequestBody<'a>>
    ensures body { option_map body_of result ≡ manager_body ask outgoing.now }
    ensures fits { IfSome result (λ body. FitsBody (body_of body)) }
{
    match ask {
        Ask::Read { offset, length } if length == 4 => Some(RequestBody::ReadQuadlet { offset }),
        _ => agent_body(ask, false, Offset::zero(), outgoing),
    }
}

/// The place with this number, which is below 8.
fn place_in(number: u8) -> Option<LoginPlace>
    ensures { result ≡ place_in number }
{
    if number < 8 {
        Some(LoginPlace::new(number))
    } else {
        None
    }
}

ghost use Rattle.sbp_target.specs.Management.{place_in};

fn tell_left(outbox: &mut Outbox, login: Option<u16>) -> Result<(), NoMemory>
    ensures { OnOk result (outbox.new ≡ tell_left login outbox.old) }
{
    match login {
        Some(login) => outbox.tell(Side::Left(login)),
        None => Ok(()),
    }
}

fn tell_failed(
    outbox: &mut Outbox,
    source: NodeId,
    failed: Option<FailCause>,
) -> Result<(), NoMemory>
    ensures { OnOk result (outbox.new ≡ tell_failed source failed outbox.old) }
{
    match failed {
        Some(cause) => outbox.tell(Side::ManageFailed {
            node: source,
            cause,
        }),
        None => Ok(()),
    }
}

fn tell_managed(outbox: &mut Outbox, source: NodeId, decision: &Decision) -> Result<(), NoMemory>
    ensures { OnOk result (outbox.new ≡ tell_managed source decision.now outbox.old) }
{
    outbox.tell(Side::Managed {
        node: source,
        function: decision.function,
        subject: decision.subject,
        status: decision.status,
        login: decision.login,
    })
}

impl Node {
    /// What came of a request of the management operation: what was decided is done and told, and what
    /// the operation asks for next leaves.
    #[tactic(auto, unfolding(crate::specs::Management::manage))]
    pub(super) fn manage(&mut self, outbox: &mut Outbox, reply: Reply<'_>) -> Result<(), NoMemory>
        requires count { self.old.layer.calls < 2 ^ 56 }
        ensures step { OnOk result (scene self.new outbox.new ≡ manage (answer_of reply.entry) (scene self.old outbox.old)) }
        ensures count { self.new.layer.calls ≤ self.old.layer.calls + 1 }
        ensures units { length self.new.units ≡ length self.old.units }
    {
        let Some(source) = self.manager.source() else {
            return Ok(());
        };
        let step = self.manager.reply(&mut self.logins, &self.keys, reply);
        self.decide(outbox, source, &step)?;
        tell_failed(outbox, source, step.failed)?;
        self.ask_manager(outbox, source, step.ask)
    }

    /// Does and tells what a step decided.
    #[tactic(auto, unfolding(crate::specs::Management::decided_by))]
    fn decide(
        &mut self,
        outbox: &mut Outbox,
        source: NodeId,
        step: &ManagerStep,
    ) -> Result<(), NoMemory>
        ensures step { OnOk result (scene self.new outbox.new ≡ decided_by step.now.decided step.now.effect source (scene self.old outbox.old)) }
        ensures count { self.new.layer.calls ≡ self.old.layer.calls }
        ensures units { length self.new.units ≡ length self.old.units }
    {
        let Some(decision) = step.decided else {
            return Ok(());
        };
        self.affect(outbox, step.effect, decision.subject)?;
        tell_managed(outbox, source, &decision)
    }

    /// The effect of a decision; `login` is the ID that a reconnect and a logout are of.
    fn affect(&mut self, outbox: &mut Outbox, effect: Effect, login: u16) -> Result<(), NoMemory>
        ensures step { OnOk result (scene self.new outbox.new ≡ effect_by effect login (scene self.old outbox.old)) }
        ensures count { self.new.layer.calls ≡ self.old.layer.calls }
        ensures units { length self.new.units ≡ length self.old.units }
    {
        match effect {
            Effect::Nothing => Ok(()),
            Effect::Entered { place, replaced } => {
                self.enter(place);
                tell_left(outbox, replaced)
            }
            Effect::Back { .. } => outbox.tell(Side::Back(login)),
            Effect::Left { place } => self.log_out(outbox, place, login),
            Effect::Abort { place, orb } => {
                self.abort(place, orb);
                Ok(())
            }
            Effect::AbortSet { place } => self.cut_place(outbox, CutCause::AbortSet, place),
            Effect::UnitReset { unit } => self.reset_unit(outbox, unit),
            Effect::TargetReset => self.reset_units(outbox),
        }
    }

    /// A login was entered into a place.
    fn enter(&mut self, place: u8)
        ensures left { self.new ≡ fresh_desk place self.old }
        ensures count { self.new.layer.calls ≡ self.old.layer.calls }
        ensures units { length self.new.units ≡ length self.old.units }
    {
        if let Some(place) = place_in(place) {
            let desk = &mut self.desks[place.index()];
            desk.pointer = None;
            desk.is_enabled = false;
        }
    }

    /// The list of a login is cut, and the login leaves its place.
    fn log_out(&mut self, outbox: &mut Outbox, place: u8, login: u16) -> Result<(), NoMemory>
        ensures step { OnOk result (scene self.new outbox.new ≡ logged_out place login (cut_place place cuts.Logout (scene self.old outbox.old))) }
        ensures count { self.new.layer.calls ≡ self.old.layer.calls }
        ensures units { length self.new.units ≡ length self.old.units }
    {
        self.cut_place(outbox, CutCause::Logout, place)?;
        self.disable(place);
        outbox.tell(Side::Left(login))
    }

    /// The register of a place for unsolicited status is disabled.
    fn disable(&mut self, place: u8)
        ensures left { self.new ≡ left_desk place self.old }
        ensures count { self.new.layer.calls ≡ self.old.layer.calls }
        ensures units { length self.new.units ≡ length self.old.units }
    {
        if let Some(place) = place_in(place) {
            self.desks[place.index()].is_enabled = false;
        }
    }

    /// The agent of a place is to abort an ORB.
    fn abort(&mut self, place: u8, orb: Offset)
        ensures left { self.new ≡ with_agent self.old place (abort_step (desk_at self.old place).agent orb) }
        ensures count { self.new.layer.calls ≡ self.old.layer.calls }
        ensures units { length self.new.units ≡ length self.old.units }
    {
        if let Some(place) = place_in(place) {
            self.desks[place.index()].agent.abort(orb);
        }
    }

    /// The list of a place is cut.
    fn cut_place(&mut self, outbox: &mut Outbox, cause: CutCause, place: u8) -> Result<(), NoMemory>
        ensures step { OnOk result (scene self.new outbox.new ≡ cut_place place cause (scene self.old outbox.old)) }
        ensures count { self.new.layer.calls ≡ self.old.layer.calls }
        ensures units { length self.new.units ≡ length self.old.units }
    {
        match place_in(place) {
            Some(place) => self.cut(outbox, place, cause),
            None => Ok(()),
        }
    }

    /// The lists of the logins of a unit are cut, and it is reset.
    fn reset_unit(&mut self, outbox: &mut Outbox, unit: u8) -> Result<(), NoMemory>
        ensures step { OnOk result (scene self.new outbox.new ≡ clear_one unit (cut_all cuts.UnitReset (Some unit) (scene self.old outbox.old))) }
        ensures count { self.new.layer.calls ≡ self.old.layer.calls }
        ensures units { length self.new.units ≡ length self.old.units }
    {
        self.cut_all(outbox, CutCause::UnitReset, Some(unit))?;
        if usize::from(unit) < self.units.len() {
            return self.clear_unit(outbox, unit);
        }
        Ok(())
    }

    /// All lists are cut, and all units reset.
    fn reset_units(&mut self, outbox: &mut Outbox) -> Result<(), NoMemory>
        ensures step { OnOk result (scene self.new outbox.new ≡ clear_units (cut_all cuts.TargetReset None (scene self.old outbox.old))) }
        ensures count { self.new.layer.calls ≡ self.old.layer.calls }
        ensures units { length self.new.units ≡ length self.old.units }
    {
        self.cut_all(outbox, CutCause::TargetReset, None)?;
        self.clear_all(outbox)
    }

    /// Sends what the operation of a node asks for. Where that finds no label, the operation fails.
    #[tactic(auto, unfolding(crate::specs::Management::ask_manager))]
    pub(super) fn ask_manager(
        &mut self,
        outbox: &mut Outbox,
        source: NodeId,
        ask: Ask,
    ) -> Result<(), NoMemory>
        requires count { self.old.layer.calls < 2 ^ 56 }
        ensures step { OnOk result (scene self.new outbox.new ≡ ask_manager source ask (scene self.old outbox.old)) }
        ensures count { self.new.layer.calls ≤ self.old.layer.calls + 1 }
        ensures units { length self.new.units ≡ length self.old.units }
    {
        let Some(body) = manager_body(ask, self.manager.outgoing()) else {
            return Ok(());
        };
        let purpose = Purpose::Management;
        let sent = send_request(&mut self.layer, outbox, self.alloc, source, &body, purpose)?;
        if sent.is_some() {
            return Ok(());
        }
        self.lose_operation(outbox)
    }

    /// A request of the operation found no label.
    #[tactic(auto, unfolding(crate::specs::Management::lose_operation))]
    fn lose_operation(&mut self, outbox: &mut Outbox) -> Result<(), NoMemory>
        ensures step { OnOk result (scene self.new outbox.new ≡ lose_operation (scene self.old outbox.old)) }
        ensures count { self.new.layer.calls ≡ self.old.layer.calls }
        ensures units { length self.new.units ≡ length self.old.units }
    {
        let Some(source) = self.manager.source() else {
            return Ok(());
        };
        let step = self
            .manager
            .reply(&mut self.logins, &self.keys, Reply::NoLabel);
        tell_failed(outbox, source, step.failed)
    }
}

ghost use Rattle.std.specs.Prelude.{Some, None};
ghost use Rattle.command_agent.specs.Steps.{abort_step};
ghost use Rattle.sbp_journal.specs.declared.cause.CutCause.TheVariants as cuts;
ghost use Rattle.sbp_target.specs.Nodes.{desk_at, with_agent};
ghost use Rattle.sbp_target.specs.Units.{cut_all};
ghost use Rattle.sbp_target.specs.Management.{clear_units, cut_place, logged_out};
