ghost use Rattle.std.specs.Prelude.{◌≡◌, ◌+◌, ◌^◌, ◌<◌, ◌≤◌, length, true, IfSome, OnOk};
ghost use Rattle.std.specs.List.{AllByRecursion};
ghost use Rattle.orb_layout.specs.Replies.{answer_of};
ghost use Rattle.rbc_disk.specs.Runs.{told_in};
ghost use Rattle.command_agent.specs.Runs.{MayTell, count_after};
ghost use Rattle.unordered_agent.specs.Machine.{is_busy, task_at};
ghost use Rattle.unordered_agent.specs.Steps.{place_of};
ghost use Rattle.task_target.specs.Following.{about};
ghost use Rattle.task_target.specs.Nodes.{scene};
ghost use Rattle.task_target.specs.Replies.{Advances, RepliesTo, agent_step, awaits, plain_in, replied, served_login, stage, whole};

use super::Node;
use crate::purpose::is_that;
use crate::steps::{about, reply_in};
use crate::telling::LOGIN;
use async_packet::Label;
use login_table::Login;
use orb_layout::Reply;
use rbc_disk::Medium;
use sbp_base::{NoMemory, NodeId};
use sbp_journal::Outbox;
use target_base::LoginPlace;
use unordered_agent::TaskStep;

impl Node {
    /// What came of a transaction that is for a place. Nothing happens where the agent does not wait for
    /// it.
    pub(super) fn reply_to(
        &mut self,
        medium: &mut dyn Medium,
        outbox: &mut Outbox,
        place: u8,
        peer: NodeId,
        label: &Label,
        reply: Reply<'_>,
    ) -> Result<(), NoMemory>
        requires count { self.old.layer.calls + 6 ≤ 2 ^ 56 }
        ensures fell { media_faults medium.old ≤ media_faults medium.new }
        ensures step { OnOk result (RepliesTo place peer label.now (answer_of reply.entry) (whole (scene self.old outbox.old) (disk medium.old)) (whole (scene self.new outbox.new) (disk medium.new)) (media_faults medium.old) (media_faults medium.new)) }
        ensures count { self.new.layer.calls ≤ self.old.layer.calls + 6 }
    {
        let Some(login) = self.served_login() else {
            return Ok(());
        };
        if !self.awaits(place, peer, label) {
            return Ok(());
        }
        self.advance(medium, outbox, place, &login, reply)
    }

    /// The login that the agent serves, whose unit is the one that is there.
    pub(super) fn served_login(&self) -> Option<Login>
        ensures { result ≡ served_login self.now }
    {
        target_base::served_login(&self.logins, LoginPlace::new(LOGIN), 1)
    }

    /// Whether the agent waits for the transaction with a peer under a label, as that of a place.
    pub(super) fn awaits(&self, place: u8, peer: NodeId, label: &Label) -> bool
        ensures awaits { result ≡ awaits self.now place peer label.now }
        ensures under_way { result ≡ true → is_busy place self.now.agent ≡ true }
    {
        let sent = self.sents.get(usize::from(place)).copied().flatten();
        is_that(&sent, peer, label) && self.agent.is_under_way(place)
    }

    /// What came of the transaction of a place: the agent's step, and what follows.
    fn advance(
        &mut self,
        medium: &mut dyn Medium,
        outbox: &mut Outbox,
        place: u8,
        login: &Login,
        reply: Reply<'_>,
    ) -> Result<(), NoMemory>
        requires under_way { is_busy place self.old.agent ≡ true }
        requires count { self.old.layer.calls + 6 ≤ 2 ^ 56 }
        ensures fell { media_faults medium.old ≤ media_faults medium.new }
        ensures step { OnOk result (Advances place login.now (answer_of reply.entry) (whole (scene self.old outbox.old) (disk medium.old)) (whole (scene self.new outbox.new) (disk medium.new)) (media_faults medium.old) (media_faults medium.new)) }
        ensures count { self.new.layer.calls ≤ self.old.layer.calls + 6 }
    {
        let at = about(&self.agent, place);
        let step = self.reply_agent(medium, place, reply);
        self.follow(medium, outbox, login, at, &step)
    }

    /// What came of the transaction of a place, over the unit and its medium: the agent's step.
    #[tactic(auto, unfolding(crate::specs::Replies::replied))]
    fn reply_agent(&mut self, medium: &mut dyn Medium, place: u8, reply: Reply<'_>) -> TaskStep
        requires under_way { is_busy place self.old.agent ≡ true }
        ensures step { (result, stage self.new (disk medium.new)) ≡ replied (told_in result.ran (task_at self.new.agent (place_of self.old.agent place)).answer) place (answer_of reply.entry) (stage self.old (disk medium.old)) }
        ensures agent { (result, self.new.agent) ≡ agent_step (told_in result.ran (task_at self.new.agent (place_of self.old.agent place)).answer) place (answer_of reply.entry) (stage self.old (disk medium.old)) }
        ensures may { MayTell result.ran (task_at self.new.agent (place_of self.old.agent place)) 0 (plain_in (stage self.old (disk medium.old))) }
        ensures cause { media_faults medium.new ≡ count_after result.ran (media_faults medium.old) }
        ensures few { length result.asks ≤ 2 }
        ensures bytes { IfSome (about self.old.agent place) (λ at. AllByRecursion (λ byte. byte < 256) (task_at self.new.agent at).answer) }
        ensures count { self.new.layer.calls ≡ self.old.layer.calls }
    {
        let step = reply_in(&mut self.agent, &mut self.unit, medium, place, reply);
        self.keep(place, None);
        step
    }
}
