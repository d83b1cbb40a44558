ghost use Rattle.std.specs.Prelude.{◌≡◌, None, IfOk, IfSome, not, true};
ghost use Rattle.command_agent.specs.Machine.{is_under_way, state_in};
ghost use Rattle.command_agent.specs.Steps.{is_reset};
ghost use Rattle.sbp_target.specs.Desks.{disabled, expired_desk, new_desk, point_desk, promoted_desk, reset_desk, taken, which_in};

use crate::purpose::Sent;
use async_packet::Label;
use command_agent::{Agent, AgentStep, PointRefusal, Which};
use orb_layout::{Ask, FailCause, OrbPointer};
use sbp_base::{NoMemory, NodeId, Offset};
use std::alloc::Global;

/// What the target keeps for a place of the table of logins: the agent, the pointer that it took last,
/// whether its register for unsolicited status is enabled, and the transactions that it has under way.
#[derive(Drop)]
pub struct Desk {
    pub agent: Agent,
    pub pointer: Option<Offset>,
    pub is_enabled: bool,
    /// The main transaction.
    pub main: Option<Sent>,
    /// The read ahead.
    pub ahead: Option<Sent>,
}

impl Desk {
    /// An agent in RESET.
    pub(crate) fn new(alloc: Global) -> Result<Desk, NoMemory>
        ensures { IfOk result (λ desk. desk ≡ new_desk) }
    {
        Ok(Desk {
            agent: Agent::new(alloc)?,
            pointer: None,
            is_enabled: false,
            main: None,
            ahead: None,
        })
    }

    /// Which transaction of the agent this is, if it is one that the agent waits for.
    pub(crate) fn which(&self, peer: NodeId, label: &Label) -> Option<Which>
        ensures which { result ≡ which_in self.now peer label.now }
        ensures waits { IfSome result (λ which. is_under_way which self.now.agent ≡ true) }
    {
        if is_that(&self.main, peer, label) && self.agent.is_under_way(Which::Main) {
            Some(Which::Main)
        } else if is_that(&self.ahead, peer, label) && self.agent.is_under_way(Which::Ahead) {
            Some(Which::Ahead)
        } else {
            None
        }
    }

    /// A write of ORB_POINTER. A pointer that is taken is kept.
    pub(crate) fn point(&mut self, pointer: OrbPointer) -> Result<Ask, PointRefusal>
        ensures { (result, self.new) ≡ point_desk self.old pointer }
    {
        let ask = self.agent.point(pointer)?;
        self.pointer = self.agent.present();
        Ok(ask)
    }

    /// A transaction of the agent is under way no more.
    pub(crate) fn take(&mut self, which: Which)
        ensures { self.new ≡ taken which self.old }
    {
        match which {
            Which::Main => self.main = None,
            Which::Ahead => self.ahead = None,
        }
    }

    /// The register for unsolicited status is disabled.
    pub(crate) fn disable(&mut self)
        ensures { self.new ≡ disabled self.old }
    {
        self.is_enabled = false;
    }

    /// A transaction of the agent, which waits for it, timed out.
    pub(crate) fn expire(&mut self, which: Which) -> AgentStep
        requires { is_under_way which self.old.agent ≡ true }
        ensures { (result, self.new) ≡ expired_desk which self.old }
    {
        self.take(which);
        self.agent.lose(which, FailCause::Timeout)
    }

    /// The read ahead is the main transaction from now on.
    pub(crate) fn promote(&mut self)
        ensures { self.new ≡ promoted_desk self.old }
    {
        self.main = self.ahead;
        self.ahead = None;
    }

    /// The agent is in RESET, and waits for nothing. Whether it was in another state.
    pub(crate) fn reset(&mut self) -> bool
        ensures was { result ≡ not (is_reset (state_in self.old.agent.phase)) }
        ensures left { self.new ≡ reset_desk self.old }
    {
        self.main = None;
        self.ahead = None;
        self.agent.reset()
    }
}

ghost use Rattle.sbp_target.specs.Desks.{is_that};

/// Whether a transaction, where there is one, is the one with this peer under this label.
fn is_that(sent: &Option<Sent>, peer: NodeId, label: &Label) -> bool
    ensures { result ≡ is_that sent.now peer label.now }
{
    match sent {
        Some(sent) => sent.is(peer, label),
        None => false,
    }
}
