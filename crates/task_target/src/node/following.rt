ghost use Rattle.std.specs.Prelude.{◌≡◌, length, not, is_some, ◌+◌, ◌^◌, ◌<◌, ◌≤◌, IfOk, IfSome, OnOk, true};
ghost use Rattle.std.specs.Option.{option_map};
ghost use Rattle.label_table.specs.Bodies.{FitsBody, body_of};
ghost use Rattle.command_agent.specs.Steps.{is_reset};
ghost use Rattle.unordered_agent.specs.Machine.{is_busy, state_in};
ghost use Rattle.task_target.specs.Following.{all_disowned, ask_place, asks_sent, body_of_ask, cut, cut_node, disowned, fetch, follow, lose, lost_at, noted, settled, stepped, without_sents};
ghost use Rattle.task_target.specs.Nodes.{scene, with_sent};

use super::{Node, PLACES};
use crate::purpose::{Sent, TaskPurpose};
use crate::sending::send_request;
use crate::steps::{FETCHER, about, fail_in, outgoing};
use crate::telling::{LOGIN, tell_step};
use label_table::{RequestBody, Transactions};
use login_table::Login;
use orb_layout::{Ask, Reply};
use rbc_disk::Medium;
use sbp_base::{NoMemory, Offset};
use sbp_journal::{CutCause, Outbox, Side};
use unordered_agent::TaskStep;

/// The most bytes of a payload.
const LARGEST: u16 = 2048;

/// What a place asks for, as a request: a status block goes to the login's FIFO. None asks for more
/// than a packet carries.
fn body_of_ask<'a>(
    ask: Ask,
    is_status: bool,
    fifo: Offset,
    outgoing: &'a [u8],
) -> Option<RequestBody<'a>>
    ensures body { option_map body_of result ≡ body_of_ask ask is_status fifo outgoing.now }
    ensures fits { IfSome result (λ body. FitsBody (body_of body)) }
{
    match ask {
        Ask::Read { offset, length } if length <= LARGEST => {
            Some(RequestBody::ReadBlock { offset, length })
        }
        Ask::Write { offset, .. } if outgoing.len() <= usize::from(LARGEST) => {
            Some(RequestBody::WriteBlock {
                offset: if is_status { fifo } else { offset },
                payload: outgoing,
            })
        }
        _ => None,
    }
}

/// A transaction, where there is one, belongs to nobody from now on.
#[tactic(auto, unfolding(label_table::specs::Layer::disowning_step))]
fn disown(layer: &mut Transactions<TaskPurpose>, sent: &Option<Sent>)
    ensures left { layer.new ≡ disowned sent.now layer.old }
    ensures count { layer.new.calls ≡ layer.old.calls }
{
    if let Some(sent) = sent {
        layer.disown(sent.peer, sent.label);
    }
}

/// The same of each of these.
#[tactic(auto, using(crate::proofs::Turns::disowning, crate::proofs::Turns::disowned_all))]
fn disown_all(layer: &mut Transactions<TaskPurpose>, sents: &[Option<Sent>])
    ensures left { layer.new ≡ all_disowned sents.now layer.old }
    ensures count { layer.new.calls ≡ layer.old.calls }
{
    for sent in sents {
        disown(layer, sent);
    }
}

impl Node {
    /// What follows a step that is about the ORB in this task place, for this login: it is told, and what
    /// it asks for leaves. Where a request finds no label its ORB's status write leaves, or is lost too.
    #[tactic(auto, unfolding(crate::specs::Following::follow))]
    pub(super) fn follow(
        &mut self,
        medium: &mut dyn Medium,
        outbox: &mut Outbox,
        login: &Login,
        place: Option<u8>,
        step: &TaskStep,
    ) -> Result<(), NoMemory>
        requires place { IfSome place (λ at. at < 8) }
        requires few { length step.now.asks ≤ 2 }
        requires count { self.old.layer.calls + 6 ≤ 2 ^ 56 }
        ensures step { OnOk result (scene self.new outbox.new ≡ follow login.now place step.now (scene self.old outbox.old)) }
        ensures disk { disk medium.new ≡ disk medium.old }
        ensures faults { media_faults medium.new ≡ media_faults medium.old }
        ensures count { self.new.layer.calls ≤ self.old.layer.calls + 6 }
    {
        let lost = self.take_step(outbox, login, place, step)?;
        self.settle(medium, outbox, login, lost)
    }

    /// What follows a request that found no label, where one did: its ORB's status write leaves in its
    /// place, or is lost too.
    fn settle(
        &mut self,
        medium: &mut dyn Medium,
        outbox: &mut Outbox,
        login: &Login,
        lost: Option<u8>,
    ) -> Result<(), NoMemory>
        requires count { self.old.layer.calls + 4 ≤ 2 ^ 56 }
        ensures step { OnOk result (scene self.new outbox.new ≡ settled login.now (lost, scene self.old outbox.old)) }
        ensures disk { disk medium.new ≡ disk medium.old }
        ensures faults { media_faults medium.new ≡ media_faults medium.old }
        ensures count { self.new.layer.calls ≤ self.old.layer.calls + 4 }
    {
        let lost = self.lose(medium, outbox, login, lost)?;
        self.lose(medium, outbox, login, lost)?;
        Ok(())
    }

    /// Sends what the fetcher asks for by a write of the agent's registers.
    #[tactic(auto, unfolding(crate::specs::Following::fetch))]
    pub(super) fn fetch_for(
        &mut self,
        medium: &mut dyn Medium,
        outbox: &mut Outbox,
        login: &Login,
        ask: Ask,
    ) -> Result<(), NoMemory>
        requires count { self.old.layer.calls + 6 ≤ 2 ^ 56 }
        ensures step { OnOk result (scene self.new outbox.new ≡ fetch login.now ask (scene self.old outbox.old)) }
        ensures disk { disk medium.new ≡ disk medium.old }
        ensures faults { media_faults medium.new ≡ media_faults medium.old }
        ensures count { self.new.layer.calls ≤ self.old.layer.calls + 6 }
    {
        let is_sent = self.ask(outbox, login, false, FETCHER, ask)?;
        let lost = if is_sent { None } else { Some(FETCHER) };
        self.settle(medium, outbox, login, lost)
    }

    /// A step that is about the ORB in this task place is told, and what it asks for leaves; the place
    /// that finds no label.
    #[tactic(auto, unfolding(crate::specs::Following::stepped))]
    fn take_step(
        &mut self,
        outbox: &mut Outbox,
        login: &Login,
        place: Option<u8>,
        step: &TaskStep,
    ) -> Result<Option<u8>, NoMemory>
        requires place { IfSome place (λ at. at < 8) }
        requires few { length step.now.asks ≤ 2 }
        requires count { self.old.layer.calls + 2 ≤ 2 ^ 56 }
        ensures step { IfOk result (λ lost. (lost, scene self.new outbox.new) ≡ stepped login.now place step.now (scene self.old outbox.old)) }
        ensures count { self.new.layer.calls ≤ self.old.layer.calls + 2 }
    {
        self.note(outbox, place, step)?;
        self.send_asks(outbox, login, step.ended.is_some(), step.asks.as_slice())
    }

    /// Tells a step that is about the ORB in this task place. A dead agent has no transaction but the
    /// status write that it sends then.
    fn note(
        &mut self,
        outbox: &mut Outbox,
        place: Option<u8>,
        step: &TaskStep,
    ) -> Result<(), NoMemory>
        requires place { IfSome place (λ at. at < 8) }
        ensures step { OnOk result (scene self.new outbox.new ≡ noted place step.now (scene self.old outbox.old)) }
        ensures count { self.new.layer.calls ≡ self.old.layer.calls }
    {
        tell_step(self.alloc, outbox, &self.agent, place, step)?;
        if step.dead.is_some() {
            self.drop_sents();
        }
        Ok(())
    }

    /// Each transaction belongs to nobody from now on.
    fn drop_sents(&mut self)
        ensures left { self.new ≡ without_sents self.old }
        ensures count { self.new.layer.calls ≡ self.old.layer.calls }
    {
        disown_all(&mut self.layer, &self.sents);
        let none = [None; PLACES];
        self.sents = none;
    }

    /// Sends what places ask for, in their order, up to one that finds no label; that place. A task's
    /// write is that of a status block where its ORB ended.
    fn send_asks(
        &mut self,
        outbox: &mut Outbox,
        login: &Login,
        is_status: bool,
        asks: &[(u8, Ask)],
    ) -> Result<Option<u8>, NoMemory>
        requires few { length asks.now ≤ 2 }
        requires count { self.old.layer.calls + 2 ≤ 2 ^ 56 }
        ensures step { IfOk result (λ lost. (lost, scene self.new outbox.new) ≡ asks_sent login.now is_status asks.now (scene self.old outbox.old)) }
        ensures count { self.new.layer.calls ≤ self.old.layer.calls + 2 }
    {
        for asked in asks {
            if !self.ask(outbox, login, is_status, asked.0, asked.1)? {
                return Ok(Some(asked.0));
            }
        }
        Ok(None)
    }

    /// Sends the request of a place; false exactly where it finds no label.
    #[tactic(auto, unfolding(crate::specs::Following::ask_place))]
    fn ask(
        &mut self,
        outbox: &mut Outbox,
        login: &Login,
        is_status: bool,
        place: u8,
        ask: Ask,
    ) -> Result<bool, NoMemory>
        requires count { self.old.layer.calls < 2 ^ 56 }
        ensures step { IfOk result (λ sent. (sent, scene self.new outbox.new) ≡ ask_place login.now is_status place ask (scene self.old outbox.old)) }
        ensures count { self.new.layer.calls ≤ self.old.layer.calls + 1 }
    {
        let outgoing = outgoing(&self.agent, place);
        let Some(body) = body_of_ask(ask, is_status, login.fifo, outgoing) else {
            return Ok(true);
        };
        let sent = send_request(
            &mut self.layer,
            outbox,
            self.alloc,
            login.node,
            &body,
            place,
        )?;
        let Some(label) = sent else {
            return Ok(false);
        };
        self.keep(
            place,
            Some(Sent {
                peer: login.node,
                label,
            }),
        );
        Ok(true)
    }

    /// The transaction that is under way for a place.
    #[tactic(auto, using(std::proofs::lemmas::List::set_past))]
    pub(super) fn keep(&mut self, place: u8, sent: Option<Sent>)
        ensures left { self.new ≡ with_sent self.old place sent }
        ensures count { self.new.layer.calls ≡ self.old.layer.calls }
    {
        if usize::from(place) < PLACES {
            self.sents[usize::from(place)] = sent;
        }
    }

    /// A transaction that found no label, where there is one, is a reply to its place. What this asks for
    /// leaves; the place that then finds none.
    #[tactic(auto, unfolding(crate::specs::Following::lose))]
    fn lose(
        &mut self,
        medium: &mut dyn Medium,
        outbox: &mut Outbox,
        login: &Login,
        place: Option<u8>,
    ) -> Result<Option<u8>, NoMemory>
        requires count { self.old.layer.calls + 2 ≤ 2 ^ 56 }
        ensures step { IfOk result (λ lost. (lost, scene self.new outbox.new) ≡ lose login.now place (scene self.old outbox.old)) }
        ensures disk { disk medium.new ≡ disk medium.old }
        ensures faults { media_faults medium.new ≡ media_faults medium.old }
        ensures count { self.new.layer.calls ≤ self.old.layer.calls + 2 }
    {
        match place {
            Some(place) if self.agent.is_under_way(place) => {
                self.lose_at(medium, outbox, login, place)
            }
            _ => Ok(None),
        }
    }

    /// The same of a place whose transaction was to be under way.
    fn lose_at(
        &mut self,
        medium: &mut dyn Medium,
        outbox: &mut Outbox,
        login: &Login,
        place: u8,
    ) -> Result<Option<u8>, NoMemory>
        requires under_way { is_busy place self.old.agent ≡ true }
        requires count { self.old.layer.calls + 2 ≤ 2 ^ 56 }
        ensures step { IfOk result (λ lost. (lost, scene self.new outbox.new) ≡ lost_at login.now place (scene self.old outbox.old)) }
        ensures disk { disk medium.new ≡ disk medium.old }
        ensures faults { media_faults medium.new ≡ media_faults medium.old }
        ensures count { self.new.layer.calls ≤ self.old.layer.calls + 2 }
    {
        let at = about(&self.agent, place);
        let step = fail_in(
            &mut self.agent,
            &mut self.unit,
            medium,
            place,
            Reply::NoLabel,
        );
        self.take_step(outbox, login, at, &step)
    }

    /// AGENT_RESET: the list, if one is open, is cut, and the transactions of its ORBs and of the fetcher
    /// belong to nobody.
    #[tactic(auto, unfolding(crate::specs::Following::cut))]
    pub(super) fn cut(&mut self, outbox: &mut Outbox) -> Result<(), NoMemory>
        ensures step { OnOk result (scene self.new outbox.new ≡ cut (scene self.old outbox.old)) }
        ensures count { self.new.layer.calls ≡ self.old.layer.calls }
    {
        if self.reset_agent() {
            outbox.tell(Side::Cut {
                place: LOGIN,
                cause: CutCause::AgentReset,
            })?;
        }
        Ok(())
    }

    /// The agent is in RESET; whether it was in another state.
    fn reset_agent(&mut self) -> bool
        ensures was { result ≡ not (is_reset (state_in self.old.agent.fetcher.phase)) }
        ensures left { self.new ≡ cut_node self.old }
        ensures count { self.new.layer.calls ≡ self.old.layer.calls }
    {
        self.drop_sents();
        self.agent.reset()
    }
}
