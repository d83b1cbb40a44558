ghost use Rattle.std.specs.Prelude.{◌≡◌, ◌<◌, OnOk};
ghost use Rattle.sbp_target.specs.Telling.{orb_of, tell_dead, tell_ended, tell_ran, tell_step};

use command_agent::{Agent, AgentStep};
use orb_layout::{FailCause, StatusKind};
use rbc_disk::Outcome;
use sbp_base::{Bytes, NoMemory, Offset};
use sbp_journal::{Outbox, Side};
use std::alloc::Global;
use target_base::LoginPlace;

/// The address of the present ORB of an agent.
pub(crate) fn orb_of(agent: &Agent) -> Offset
    ensures { result ≡ orb_of agent.now }
{
    match agent.present() {
        Some(orb) => orb,
        None => Offset::zero(),
    }
}

fn tell_ran(
    alloc: Global,
    outbox: &mut Outbox,
    place: LoginPlace,
    agent: &Agent,
    ran: Option<Outcome>,
) -> Result<(), NoMemory>
    ensures { OnOk result (outbox.new ≡ tell_ran place agent.now ran outbox.old) }
{
    let Some(outcome) = ran else {
        return Ok(());
    };
    outbox.tell(Side::Ran {
        place: place.number(),
        orb: orb_of(agent),
        cdb: *agent.cdb(),
        payload: Bytes::from_slice(alloc, agent.payload())?,
        outcome,
    })
}

fn tell_dead(
    outbox: &mut Outbox,
    place: LoginPlace,
    dead: Option<FailCause>,
) -> Result<(), NoMemory>
    ensures { OnOk result (outbox.new ≡ tell_dead place dead outbox.old) }
{
    let Some(cause) = dead else {
        return Ok(());
    };
    outbox.tell(Side::Dead {
        place: place.number(),
        cause,
    })
}

fn tell_ended(
    outbox: &mut Outbox,
    place: LoginPlace,
    agent: &Agent,
    ended: Option<StatusKind>,
) -> Result<(), NoMemory>
    ensures { OnOk result (outbox.new ≡ tell_ended place agent.now ended outbox.old) }
{
    let Some(status) = ended else {
        return Ok(());
    };
    outbox.tell(Side::Ended {
        place: place.number(),
        orb: orb_of(agent),
        status,
    })
}

/// Tells what a step of the agent of a place brought: that a command ran, that the agent became dead,
/// that an ORB ended.
#[tactic(auto, unfolding(crate::specs::Telling::tell_step))]
pub(crate) fn tell_step(
    alloc: Global,
    outbox: &mut Outbox,
    place: LoginPlace,
    agent: &Agent,
    step: &AgentStep,
) -> Result<(), NoMemory>
    ensures { OnOk result (outbox.new ≡ tell_step place agent.now step.now outbox.old) }
{
    tell_ran(alloc, outbox, place, agent, step.ran)?;
    tell_dead(outbox, place, step.dead)?;
    tell_ended(outbox, place, agent, step.ended)
}
