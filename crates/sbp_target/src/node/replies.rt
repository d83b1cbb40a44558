ghost use Rattle.std.specs.Prelude.{◌≡◌, ◌+◌, ◌^◌, ◌<◌, ◌≤◌, length, map, slice_set, slice_index, true, not, ◌&&◌, IfSome, OnOk};
ghost use Rattle.std.specs.List.{AllByRecursion};
ghost use Rattle.command_agent.specs.Machine.{is_under_way};
ghost use Rattle.command_agent.specs.Runs.{MayTell, count_after};
ghost use Rattle.orb_layout.specs.Replies.{answer_of};
ghost use Rattle.rbc_disk.specs.Runs.{told_in};
ghost use Rattle.sbp_target.specs.Desks.{which_in};
ghost use Rattle.sbp_target.specs.Faults.{NoneFell};
ghost use Rattle.sbp_target.specs.Nodes.{desk_at, scene};
ghost use Rattle.sbp_target.specs.Replies.{Advances, RepliesTo, agent_step, follow_all, plain_in, replied, served_login, stage, whole};

use super::Node;
use crate::media::{is_present_at, reply_at};
use async_packet::Label;
use command_agent::{AgentStep, Which};
use login_table::Login;
use orb_layout::Reply;
use rbc_disk::Medium;
use sbp_base::{NoMemory, NodeId};
use sbp_journal::Outbox;
use target_base::LoginPlace;

/// Whether a medium that is present was not before.
fn came(was_present: bool, is_present: bool) -> bool
    ensures { result ≡ (not was_present && is_present) }
{
    !was_present && is_present
}

impl Node {
    /// What came of a transaction that is for the agent of a place. Nothing happens where the agent
    /// does not wait for it.
    #[tactic(auto, using(crate::proofs::Faults::fell_steps))]
    pub(super) fn reply_to(
        &mut self,
        media: &mut Vec<Box<dyn Medium>>,
        outbox: &mut Outbox,
        place: LoginPlace,
        peer: NodeId,
        label: &Label,
        reply: Reply<'_>,
    ) -> Result<(), NoMemory>
        requires media { length media.old.items ≡ length self.old.units }
        requires count { self.old.layer.calls + 11 ≤ 2 ^ 56 }
        ensures size { length media.new.items ≡ length media.old.items }
        ensures fell { NoneFell (map media_faults media.old.items) (map media_faults media.new.items) }
        ensures step { OnOk result (RepliesTo place peer label.now (answer_of reply.entry) (whole (scene self.old outbox.old) (map disk media.old.items)) (whole (scene self.new outbox.new) (map disk media.new.items)) (map media_faults media.old.items) (map media_faults media.new.items)) }
        ensures count { self.new.layer.calls ≤ self.old.layer.calls + 11 }
        ensures units { length self.new.units ≡ length self.old.units }
    {
        let Some(login) = self.served_login(place) else {
            return Ok(());
        };
        let Some(which) = self.awaited(place, peer, label) else {
            return Ok(());
        };
        self.advance(media, outbox, place, &login, which, reply)
    }

    /// Which transaction of the agent of a place this is, if it is one that the agent waits for.
    pub(super) fn awaited(&self, place: LoginPlace, peer: NodeId, label: &Label) -> Option<Which>
        ensures which { result ≡ which_in (desk_at self.now place) peer label.now }
        ensures waits { IfSome result (λ which. is_under_way which (desk_at self.now place).agent ≡ true) }
    {
        self.desks[place.index()].which(peer, label)
    }

    /// The login that the agent of a place serves, whose unit exists.
    fn served_login(&self, place: LoginPlace) -> Option<Login>
        ensures login { result ≡ served_login self.now place }
        ensures unit { IfSome result (λ login. login.unit < length self.now.units) }
    {
        target_base::served_login(&self.logins, place, self.units.len())
    }

    /// What came of a transaction of the agent of a place, over the unit of its login: its step, and
    /// what follows.
    fn advance(
        &mut self,
        media: &mut Vec<Box<dyn Medium>>,
        outbox: &mut Outbox,
        place: LoginPlace,
        login: &Login,
        which: Which,
        reply: Reply<'_>,
    ) -> Result<(), NoMemory>
        requires under_way { is_under_way which (desk_at self.old place).agent ≡ true }
        requires unit { login.now.unit < length self.old.units }
        requires media { length media.old.items ≡ length self.old.units }
        requires count { self.old.layer.calls + 11 ≤ 2 ^ 56 }
        ensures size { length media.new.items ≡ length media.old.items }
        ensures fell { NoneFell (map media_faults media.old.items) (map media_faults media.new.items) }
        ensures step { OnOk result (Advances place login.now which (answer_of reply.entry) (whole (scene self.old outbox.old) (map disk media.old.items)) (whole (scene self.new outbox.new) (map disk media.new.items)) (map media_faults media.old.items) (map media_faults media.new.items)) }
        ensures count { self.new.layer.calls ≤ self.old.layer.calls + 11 }
        ensures units { length self.new.units ≡ length self.old.units }
    {
        let was_present = is_present_at(media, login.unit);
        let step = self.reply_agent(media, place, login.unit, which, reply);
        let loaded = came(was_present, is_present_at(media, login.unit));
        self.follow_all(outbox, place, login, step, loaded)
    }

    /// What follows a step; `loaded` says whether a disc came into the tray of the unit.
    #[tactic(auto, unfolding(crate::specs::Replies::follow_all))]
    fn follow_all(
        &mut self,
        outbox: &mut Outbox,
        place: LoginPlace,
        login: &Login,
        step: AgentStep,
        loaded: bool,
    ) -> Result<(), NoMemory>
        requires unit { login.now.unit < length self.old.units }
        requires count { self.old.layer.calls + 11 ≤ 2 ^ 56 }
        ensures step { OnOk result (scene self.new outbox.new ≡ follow_all loaded place login.now step (scene self.old outbox.old)) }
        ensures count { self.new.layer.calls ≤ self.old.layer.calls + 11 }
        ensures units { length self.new.units ≡ length self.old.units }
    {
        if loaded {
            self.mark_changed(login.unit, place);
        }
        self.follow(outbox, place, login, step)?;
        if loaded {
            return self.announce_all(outbox, login.unit, place);
        }
        Ok(())
    }

    /// What came of a transaction of the agent of a place, over a unit and its medium: its step.
    #[tactic(auto, unfolding(crate::specs::Replies::replied))]
    fn reply_agent(
        &mut self,
        media: &mut Vec<Box<dyn Medium>>,
        place: LoginPlace,
        unit: u8,
        which: Which,
        reply: Reply<'_>,
    ) -> AgentStep
        requires under_way { is_under_way which (desk_at self.old place).agent ≡ true }
        requires unit { unit < length self.old.units }
        requires media { length media.old.items ≡ length self.old.units }
        ensures size { length media.new.items ≡ length media.old.items }
        ensures step { (result, stage self.new (map disk media.new.items)) ≡ replied (told_in result.ran (desk_at self.new place).agent.answer) place unit which (answer_of reply.entry) (stage self.old (map disk media.old.items)) }
        ensures agent { (result, (desk_at self.new place).agent) ≡ agent_step (told_in result.ran (desk_at self.new place).agent.answer) place unit which (answer_of reply.entry) (stage self.old (map disk media.old.items)) }
        ensures may { MayTell result.ran (desk_at self.new place).agent place (plain_in self.old.units (map disk media.old.items) unit) }
        ensures bytes { AllByRecursion (λ byte. byte < 256) (desk_at self.new place).agent.answer }
        ensures counts { map media_faults media.new.items ≡ slice_set (map media_faults media.old.items) unit (count_after result.ran (slice_index (map media_faults media.old.items) unit)) }
        ensures count { self.new.layer.calls ≡ self.old.layer.calls }
        ensures units { length self.new.units ≡ length self.old.units }
    {
        let desk = &mut self.desks[place.index()];
        let step = reply_at(
            &mut desk.agent,
            &mut self.units,
            media,
            unit,
            place,
            which,
            reply,
        );
        desk.take(which);
        step
    }
}
