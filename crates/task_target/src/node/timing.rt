ghost use Rattle.std.specs.Prelude.{◌≡◌, ◌+◌, ◌^◌, ◌<◌, ◌≤◌, IfOk, OnErr, OnOk, true, Ok};
ghost use Rattle.unordered_agent.specs.Machine.{is_busy};
ghost use Rattle.orb_layout.specs.Replies.{Expired};
ghost use Rattle.task_target.specs.Following.{failed_step};
ghost use Rattle.task_target.specs.Nodes.{scene};
ghost use Rattle.task_target.specs.Receiving.{expire_place, expired, expired_with};

use super::Node;
use crate::steps::{about, fail_in};
use async_packet::Label;
use label_table::Stale;
use login_table::Login;
use orb_layout::Reply;
use rbc_disk::Medium;
use sbp_base::{NoMemory, NodeId};
use sbp_journal::Outbox;

impl Node {
    /// A transaction times out; it is stale exactly where it is not the one under way, and nothing
    /// changes then. Memory is wanting only where it is under way.
    #[tactic(auto, unfolding(crate::specs::Receiving::expired))]
    pub(crate) fn expire(
        &mut self,
        medium: &mut dyn Medium,
        outbox: &mut Outbox,
        peer: NodeId,
        label: Label,
    ) -> Result<Result<(), Stale>, NoMemory>
        requires count { self.old.layer.calls + 7 ≤ 2 ^ 56 }
        ensures step { IfOk result (λ done. (done, scene self.new outbox.new) ≡ expired peer label (scene self.old outbox.old)) }
        ensures stale { IfOk result (λ done. OnErr done ((self.new ≡ self.old) × (outbox.new ≡ outbox.old))) }
        ensures wanting { OnErr result ((expired peer label (scene self.old outbox.old)).0 ≡ Ok tt) }
        ensures disk { disk medium.new ≡ disk medium.old }
        ensures faults { media_faults medium.new ≡ media_faults medium.old }
        ensures count { self.new.layer.calls ≤ self.old.layer.calls + 7 }
    {
        match self.layer.expire(peer, label) {
            Err(stale) => Ok(Err(stale)),
            Ok(None) => Ok(Ok(())),
            Ok(Some(purpose)) => {
                self.time_out(medium, outbox, purpose.place, peer, &label)?;
                Ok(Ok(()))
            }
        }
    }

    /// The transaction of a place timed out, if it is one that the agent waits for.
    #[tactic(auto, unfolding(crate::specs::Receiving::expire_place))]
    fn time_out(
        &mut self,
        medium: &mut dyn Medium,
        outbox: &mut Outbox,
        place: u8,
        peer: NodeId,
        label: &Label,
    ) -> Result<(), NoMemory>
        requires count { self.old.layer.calls + 6 ≤ 2 ^ 56 }
        ensures step { OnOk result (scene self.new outbox.new ≡ expire_place place peer label.now (scene self.old outbox.old)) }
        ensures disk { disk medium.new ≡ disk medium.old }
        ensures faults { media_faults medium.new ≡ media_faults medium.old }
        ensures count { self.new.layer.calls ≤ self.old.layer.calls + 6 }
    {
        let Some(login) = self.served_login() else {
            return Ok(());
        };
        if !self.awaits(place, peer, label) {
            return Ok(());
        }
        self.expire_at(medium, outbox, place, &login)
    }

    /// The transaction of a place timed out, which the agent waits for.
    fn expire_at(
        &mut self,
        medium: &mut dyn Medium,
        outbox: &mut Outbox,
        place: u8,
        login: &Login,
    ) -> Result<(), NoMemory>
        requires under_way { is_busy place self.old.agent ≡ true }
        requires count { self.old.layer.calls + 6 ≤ 2 ^ 56 }
        ensures step { OnOk result (scene self.new outbox.new ≡ expired_with place login.now (failed_step self.old.agent place Expired) (scene self.old outbox.old)) }
        ensures disk { disk medium.new ≡ disk medium.old }
        ensures faults { media_faults medium.new ≡ media_faults medium.old }
        ensures count { self.new.layer.calls ≤ self.old.layer.calls + 6 }
    {
        let at = about(&self.agent, place);
        let step = fail_in(
            &mut self.agent,
            &mut self.unit,
            medium,
            place,
            Reply::Expired,
        );
        self.keep(place, None);
        self.follow(medium, outbox, login, at, &step)
    }
}
