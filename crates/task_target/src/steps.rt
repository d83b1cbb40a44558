ghost use Rattle.std.specs.Prelude.{◌≡◌, ◌<◌, ◌≤◌, length, true, IfSome};
ghost use Rattle.std.specs.List.{AllByRecursion};
ghost use Rattle.orb_layout.specs.Replies.{answer_of};
ghost use Rattle.rbc_disk.specs.Units.{plain_disk};
ghost use Rattle.rbc_disk.specs.Runs.{told_in, left_by};
ghost use Rattle.command_agent.specs.Runs.{MayTell, count_after};
ghost use Rattle.unordered_agent.specs.Machine.{is_busy, task_at};
ghost use Rattle.unordered_agent.specs.Steps.{place_of, reply_step};
ghost use Rattle.task_target.specs.Following.{Fails, about, failed_step, outgoing_of};

use crate::telling::LOGIN;
use orb_layout::Reply;
use rbc_disk::{Medium, Unit};
use unordered_agent::{TaskAgent, TaskStep};

/// The place of the fetcher, behind those of the 8 tasks.
pub(crate) const FETCHER: u8 = 8;

/// The task place of the ORB that a reply to the transaction of a place is about.
pub(crate) fn about(agent: &TaskAgent, place: u8) -> Option<u8>
    ensures place { result ≡ about agent.now place }
    ensures below { IfSome result (λ at. at < 8) }
{
    if place == FETCHER {
        return agent.lowest_free();
    }
    if place < FETCHER { Some(place) } else { None }
}

/// The bytes of the write that a place asks for; the fetcher writes nothing.
pub(crate) fn outgoing(agent: &TaskAgent, place: u8) -> &[u8]
    ensures { result.now ≡ outgoing_of agent.now place }
{
    if place < FETCHER {
        agent.outgoing(place)
    } else {
        &[]
    }
}

/// [`TaskAgent::reply`] for the one login. It asks for no more than a task's and the fetcher's next
/// transaction.
#[tactic(auto, using(crate::proofs::Failing::few_asked))]
pub(crate) fn reply_in(
    agent: &mut TaskAgent,
    unit: &mut Unit,
    medium: &mut dyn Medium,
    place: u8,
    reply: Reply<'_>,
) -> TaskStep
    requires under_way { is_busy place agent.old ≡ true }
    ensures step { (result, agent.new) ≡ reply_step agent.old 0 (plain_disk unit.old (disk medium.old)) (told_in result.ran (task_at agent.new (place_of agent.old place)).answer) place (answer_of reply.entry) }
    ensures plain { plain_disk unit.new (disk medium.new) ≡ left_by result.ran (task_at agent.new (place_of agent.old place)).orb.cdb (task_at agent.new (place_of agent.old place)).payload 0 (plain_disk unit.old (disk medium.old)) }
    ensures may { MayTell result.ran (task_at agent.new (place_of agent.old place)) 0 (plain_disk unit.old (disk medium.old)) }
    ensures cause { media_faults medium.new ≡ count_after result.ran (media_faults medium.old) }
    ensures few { length result.asks ≤ 2 }
    ensures bytes { IfSome (about agent.old place) (λ at. AllByRecursion (λ byte. byte < 256) (task_at agent.new at).answer) }
{
    let at = about(agent, place);
    let step = agent.reply(unit, medium, LOGIN, place, reply);
    see_bytes(agent, at);
    step
}

/// The answer in a task place is bytes.
fn see_bytes(agent: &TaskAgent, at: Option<u8>)
    requires { IfSome at (λ at. at < 8) }
    ensures { IfSome at (λ at. AllByRecursion (λ byte. byte < 256) (task_at agent.now at).answer) }
{
    if let Some(at) = at {
        are_bytes(agent.answer(at));
    }
}

/// These are bytes: a proof knows what the type of a number says where the number is read, and nothing
/// else is done.
fn are_bytes(bytes: &[u8])
    ensures { AllByRecursion (λ byte. byte < 256) bytes.now }
{
    let _count = bytes.len();
}

/// The transaction of a place was not sent, or had no answer: no command runs, so that the unit and its
/// medium stay as they are.
pub(crate) fn fail_in(
    agent: &mut TaskAgent,
    unit: &mut Unit,
    medium: &mut dyn Medium,
    place: u8,
    reply: Reply<'_>,
) -> TaskStep
    requires under_way { is_busy place agent.old ≡ true }
    requires fails { Fails (answer_of reply) }
    ensures step { (result, agent.new) ≡ failed_step agent.old place (answer_of reply.entry) }
    ensures unit { unit.new ≡ unit.old }
    ensures disk { disk medium.new ≡ disk medium.old }
    ensures faults { media_faults medium.new ≡ media_faults medium.old }
    ensures few { length result.asks ≤ 2 }
{
    reply_in(agent, unit, medium, place, reply)
}
