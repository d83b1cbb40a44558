ghost use Rattle.std.specs.Prelude.{◌≡◌, length, ◌+◌, ◌^◌, ◌<◌, ◌≤◌, IfOk, IfSome, OnOk};
ghost use Rattle.std.specs.Option.{option_map};
ghost use Rattle.label_table.specs.Bodies.{FitsBody, body_of};
ghost use Rattle.label_table.specs.Layer.{free_labels};
ghost use Rattle.target_base.specs.Logins.{is_below_reserve};
ghost use Rattle.sbp_target.specs.Agents.{agent_body, ask_ahead, ask_main, cut, follow, lose, lose_main, noted, send_ahead, without_ahead};
ghost use Rattle.sbp_target.specs.Nodes.{scene};

use super::Node;
use crate::purpose::{Purpose, Sent};
use crate::sending::send_request;
use crate::telling::tell_step;
use command_agent::{AgentStep, Which};
use label_table::{RequestBody, Transactions};
use login_table::Login;
use orb_layout::{Ask, FailCause};
use sbp_base::{NoMemory, NodeId, Offset};
use sbp_journal::{CutCause, Outbox, Side};
use target_base::{LoginPlace, is_below_reserve};

/// The most bytes of a payload.
const LARGEST: u16 = 2048;

/// What an agent asks for, as a request: a status block goes to the login's FIFO. No agent asks for
/// more than a packet carries.
pub(super) fn agent_body<'a>(
    ask: Ask,
    is_status: bool,
    fifo: Offset,
    outgoing: &'a [u8],
) -> Option<RequestBody<'a>>
    ensures body { option_map body_of result ≡ agent_body ask is_status fifo outgoing.now }
    ensures fits { IfSome result (λ body. FitsBody (body_of body)) }
{
    match ask {
        Ask::Read { offset, length } if length <= LARGEST => {
            Some(RequestBody::ReadBlock { offset, length })
        }
        Ask::Write { offset, .. } if outgoing.len() <= usize::from(LARGEST) => {
            Some(RequestBody::WriteBlock {
                offset: if is_status { fifo } else { offset },
                payload: outgoing,
            })
        }
        _ => None,
    }
}

/// Whether fewer labels to a node are left than a read ahead leaves.
fn is_short(layer: &Transactions<Purpose>, node: NodeId) -> bool
    ensures { result ≡ is_below_reserve (free_labels layer.now node) }
{
    is_below_reserve(layer.free(node))
}

impl Node {
    /// What follows a step of the agent of a place, which serves this login: it is told, and what it
    /// asks for leaves. What finds no label is lost.
    #[tactic(auto, unfolding(crate::specs::Agents::follow))]
    pub(super) fn follow(
        &mut self,
        outbox: &mut Outbox,
        place: LoginPlace,
        login: &Login,
        step: AgentStep,
    ) -> Result<(), NoMemory>
        requires count { self.old.layer.calls + 3 ≤ 2 ^ 56 }
        ensures step { OnOk result (scene self.new outbox.new ≡ follow place login.now step (scene self.old outbox.old)) }
        ensures count { self.new.layer.calls ≤ self.old.layer.calls + 3 }
        ensures units { length self.new.units ≡ length self.old.units }
    {
        self.note(outbox, place, &step)?;
        if self.ask_main(outbox, place, login, &step)? {
            self.ask_ahead(outbox, place, login, step.ahead)
        } else {
            self.lose_main(outbox, place, login)
        }
    }

    /// Tells a step of the agent of a place. A dead agent has no read ahead; a read ahead may become
    /// the main transaction.
    #[tactic(auto, unfolding(crate::specs::Agents::noted))]
    fn note(
        &mut self,
        outbox: &mut Outbox,
        place: LoginPlace,
        step: &AgentStep,
    ) -> Result<(), NoMemory>
        ensures step { OnOk result (scene self.new outbox.new ≡ noted place step.now (scene self.old outbox.old)) }
        ensures count { self.new.layer.calls ≡ self.old.layer.calls }
        ensures units { length self.new.units ≡ length self.old.units }
    {
        let index = place.index();
        tell_step(self.alloc, outbox, place, &self.desks[index].agent, step)?;
        if step.dead.is_some() {
            self.drop_ahead(place);
        }
        if step.promoted {
            self.desks[index].promote();
        }
        Ok(())
    }

    /// The read ahead of an agent belongs to nobody from now on.
    #[tactic(auto, unfolding(crate::specs::Agents::without_ahead))]
    fn drop_ahead(&mut self, place: LoginPlace)
        ensures left { self.new ≡ without_ahead place self.old }
        ensures count { self.new.layer.calls ≡ self.old.layer.calls }
        ensures units { length self.new.units ≡ length self.old.units }
    {
        let index = place.index();
        disown(&mut self.layer, self.desks[index].ahead);
        self.desks[index].ahead = None;
    }

    /// Sends the main request of a step; false exactly where it finds no label.
    #[tactic(auto, unfolding(crate::specs::Agents::ask_main))]
    fn ask_main(
        &mut self,
        outbox: &mut Outbox,
        place: LoginPlace,
        login: &Login,
        step: &AgentStep,
    ) -> Result<bool, NoMemory>
        requires count { self.old.layer.calls < 2 ^ 56 }
        ensures step { IfOk result (λ sent. (sent, scene self.new outbox.new) ≡ ask_main place login.now step.now (scene self.old outbox.old)) }
        ensures count { self.new.layer.calls ≤ self.old.layer.calls + 1 }
        ensures units { length self.new.units ≡ length self.old.units }
    {
        let index = place.index();
        let outgoing = self.desks[index].agent.outgoing();
        let Some(body) = agent_body(step.ask, step.ended.is_some(), login.fifo, outgoing) else {
            return Ok(true);
        };
        let purpose = Purpose::Agent(place);
        let sent = send_request(
            &mut self.layer,
            outbox,
            self.alloc,
            login.node,
            &body,
            purpose,
        )?;
        let Some(label) = sent else {
            return Ok(false);
        };
        self.desks[index].main = Some(Sent {
            peer: login.node,
            label,
        });
        Ok(true)
    }

    /// A transaction of the agent found no label. What it asks for then leaves; false exactly where
    /// that finds no label either.
    #[tactic(auto, unfolding(crate::specs::Agents::lose))]
    fn lose(
        &mut self,
        outbox: &mut Outbox,
        place: LoginPlace,
        login: &Login,
        which: Which,
    ) -> Result<bool, NoMemory>
        requires count { self.old.layer.calls < 2 ^ 56 }
        ensures step { IfOk result (λ sent. (sent, scene self.new outbox.new) ≡ lose place login.now which (scene self.old outbox.old)) }
        ensures count { self.new.layer.calls ≤ self.old.layer.calls + 1 }
        ensures units { length self.new.units ≡ length self.old.units }
    {
        let index = place.index();
        if !self.desks[index].agent.is_under_way(which) {
            return Ok(true);
        }
        let step = self.desks[index].agent.lose(which, FailCause::Label);
        self.note(outbox, place, &step)?;
        self.ask_main(outbox, place, login, &step)
    }

    /// The main request found no label: the agent is dead, and its status block, if there is one,
    /// leaves or is lost too.
    #[tactic(auto, unfolding(crate::specs::Agents::lose_main))]
    fn lose_main(
        &mut self,
        outbox: &mut Outbox,
        place: LoginPlace,
        login: &Login,
    ) -> Result<(), NoMemory>
        requires count { self.old.layer.calls + 2 ≤ 2 ^ 56 }
        ensures step { OnOk result (scene self.new outbox.new ≡ lose_main place login.now (scene self.old outbox.old)) }
        ensures count { self.new.layer.calls ≤ self.old.layer.calls + 2 }
        ensures units { length self.new.units ≡ length self.old.units }
    {
        if self.lose(outbox, place, login, Which::Main)? {
            return Ok(());
        }
        self.lose(outbox, place, login, Which::Main)?;
        Ok(())
    }

    /// Sends the read ahead of a step, where 16 labels are left; false exactly where it finds none.
    #[tactic(auto, unfolding(crate::specs::Agents::send_ahead))]
    fn send_ahead(
        &mut self,
        outbox: &mut Outbox,
        place: LoginPlace,
        login: &Login,
        ask: Ask,
    ) -> Result<bool, NoMemory>
        requires count { self.old.layer.calls < 2 ^ 56 }
        ensures step { IfOk result (λ sent. (sent, scene self.new outbox.new) ≡ send_ahead place login.now ask (scene self.old outbox.old)) }
        ensures count { self.new.layer.calls ≤ self.old.layer.calls + 1 }
        ensures units { length self.new.units ≡ length self.old.units }
    {
        let index = place.index();
        let outgoing = self.desks[index].agent.outgoing();
        let Some(body) = agent_body(ask, false, login.fifo, outgoing) else {
            return Ok(true);
        };
        if is_short(&self.layer, login.node) {
            return Ok(false);
        }
        let purpose = Purpose::Agent(place);
        let sent = send_request(
            &mut self.layer,
            outbox,
            self.alloc,
            login.node,
            &body,
            purpose,
        )?;
        let Some(label) = sent else {
            return Ok(false);
        };
        self.desks[index].ahead = Some(Sent {
            peer: login.node,
            label,
        });
        Ok(true)
    }

    /// The same; one that finds no label is forgotten.
    fn ask_ahead(
        &mut self,
        outbox: &mut Outbox,
        place: LoginPlace,
        login: &Login,
        ask: Ask,
    ) -> Result<(), NoMemory>
        requires count { self.old.layer.calls + 2 ≤ 2 ^ 56 }
        ensures step { OnOk result (scene self.new outbox.new ≡ ask_ahead place login.now ask (scene self.old outbox.old)) }
        ensures count { self.new.layer.calls ≤ self.old.layer.calls + 2 }
        ensures units { length self.new.units ≡ length self.old.units }
    {
        if self.send_ahead(outbox, place, login, ask)? {
            return Ok(());
        }
        self.lose(outbox, place, login, Which::Ahead)?;
        Ok(())
    }

    /// Puts the agent of a place into RESET: its list, if one is open, is cut, and its transactions
    /// belong to nobody.
    #[tactic(auto, unfolding(crate::specs::Agents::cut))]
    pub(super) fn cut(
        &mut self,
        outbox: &mut Outbox,
        place: LoginPlace,
        cause: CutCause,
    ) -> Result<(), NoMemory>
        ensures step { OnOk result (scene self.new outbox.new ≡ cut cause place (scene self.old outbox.old)) }
        ensures count { self.new.layer.calls ≡ self.old.layer.calls }
        ensures units { length self.new.units ≡ length self.old.units }
    {
        if self.reset_agent(place) {
            outbox.tell(Side::Cut {
                place: place.number(),
                cause,
            })?;
        }
        Ok(())
    }

    /// The agent of a place is in RESET; whether it was in another state.
    fn reset_agent(&mut self, place: LoginPlace) -> bool
        ensures was { result ≡ not (is_reset (state_in (desk_at self.old place).agent.phase)) }
        ensures left { self.new ≡ cut_node place self.old }
        ensures count { self.new.layer.calls ≡ self.old.layer.calls }
        ensures units { length self.new.units ≡ length self.old.units }
    {
        let index = place.index();
        disown(&mut self.layer, self.desks[index].main);
        disown(&mut self.layer, self.desks[index].ahead);
        self.desks[index].reset()
    }
}

ghost use Rattle.std.specs.Prelude.{not};
ghost use Rattle.command_agent.specs.Machine.{state_in};
ghost use Rattle.command_agent.specs.Steps.{is_reset};
ghost use Rattle.sbp_target.specs.Agents.{cut_node, disowned};
ghost use Rattle.sbp_target.specs.Nodes.{desk_at};

/// A transaction, where there is one, belongs to nobody from now on.
#[tactic(auto, unfolding(label_table::specs::Layer::disowning_step))]
fn disown(layer: &mut Transactions<Purpose>, sent: Option<Sent>)
    ensures left { layer.new ≡ disowned sent layer.old }
    ensures count { layer.new.calls ≡ layer.old.calls }
{
    if let Some(sent) = sent {
        layer.disown(sent.peer, sent.label);
    }
}
