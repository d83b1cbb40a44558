ghost use Rattle.std.specs.Prelude.{◌≡◌, ◌<◌, IfSome, OnOk};
ghost use Rattle.task_target.specs.Telling.{orb_at, tell_dead, tell_ended, tell_ran, tell_step};

use orb_layout::{FailCause, StatusKind};
use rbc_disk::Outcome;
use sbp_base::{Bytes, NoMemory, Offset};
use sbp_journal::{Outbox, Side};
use std::alloc::Global;
use unordered_agent::{TaskAgent, TaskStep};

/// The place of the login, with which the agent is told.
pub(crate) const LOGIN: u8 = 0;

/// The address of the ORB in a task place.
fn orb_at(agent: &TaskAgent, place: u8) -> Offset
    requires { place < 8 }
    ensures { result ≡ orb_at agent.now place }
{
    match agent.present(place) {
        Some(orb) => orb,
        None => Offset::zero(),
    }
}

fn tell_ran(
    alloc: Global,
    outbox: &mut Outbox,
    agent: &TaskAgent,
    place: Option<u8>,
    ran: Option<Outcome>,
) -> Result<(), NoMemory>
    requires { IfSome place (λ at. at < 8) }
    ensures { OnOk result (outbox.new ≡ tell_ran place agent.now ran outbox.old) }
{
    let Some(place) = place else {
        return Ok(());
    };
    let Some(outcome) = ran else {
        return Ok(());
    };
    outbox.tell(Side::Ran {
        place: LOGIN,
        orb: orb_at(agent, place),
        cdb: *agent.cdb(place),
        payload: Bytes::from_slice(alloc, agent.payload(place))?,
        outcome,
    })
}

fn tell_dead(outbox: &mut Outbox, dead: Option<FailCause>) -> Result<(), NoMemory>
    ensures { OnOk result (outbox.new ≡ tell_dead dead outbox.old) }
{
    let Some(cause) = dead else {
        return Ok(());
    };
    outbox.tell(Side::Dead {
        place: LOGIN,
        cause,
    })
}

fn tell_ended(
    outbox: &mut Outbox,
    agent: &TaskAgent,
    place: Option<u8>,
    ended: Option<StatusKind>,
) -> Result<(), NoMemory>
    requires { IfSome place (λ at. at < 8) }
    ensures { OnOk result (outbox.new ≡ tell_ended place agent.now ended outbox.old) }
{
    let Some(place) = place else {
        return Ok(());
    };
    let Some(status) = ended else {
        return Ok(());
    };
    outbox.tell(Side::Ended {
        place: LOGIN,
        orb: orb_at(agent, place),
        status,
    })
}

/// Tells what a step brought that is about the ORB in this task place: that its command ran, that the
/// agent became dead, that it ended.
#[tactic(auto, unfolding(crate::specs::Telling::tell_step))]
pub(crate) fn tell_step(
    alloc: Global,
    outbox: &mut Outbox,
    agent: &TaskAgent,
    place: Option<u8>,
    step: &TaskStep,
) -> Result<(), NoMemory>
    requires { IfSome place (λ at. at < 8) }
    ensures { OnOk result (outbox.new ≡ tell_step place agent.now step.now outbox.old) }
{
    tell_ran(alloc, outbox, agent, place, step.ran)?;
    tell_dead(outbox, step.dead)?;
    tell_ended(outbox, agent, place, step.ended)
}
