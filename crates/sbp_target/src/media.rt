ghost use Rattle.std.specs.Prelude.{◌≡◌, ◌<◌, length, map, slice_set, slice_index, true};
ghost use Rattle.std.specs.List.{AllByRecursion};
ghost use Rattle.command_agent.specs.Machine.{is_under_way};
ghost use Rattle.command_agent.specs.Runs.{MayTell, count_after};
ghost use Rattle.command_agent.specs.Steps.{reply_step};
ghost use Rattle.orb_layout.specs.Replies.{answer_of};
ghost use Rattle.rbc_disk.specs.Disk.{disk_at};
ghost use Rattle.rbc_disk.specs.Units.{plain_disk};
ghost use Rattle.rbc_disk.specs.Runs.{told_in, left_by};
ghost use Rattle.sbp_target.specs.Replies.{plain_in};

use command_agent::{Agent, AgentStep, Which};
use orb_layout::Reply;
use rbc_disk::{Medium, Unit};
use target_base::LoginPlace;

/// [`Agent::reply`] over a boxed medium.
fn reply_boxed(
    agent: &mut Agent,
    unit: &mut Unit,
    medium: &mut Box<dyn Medium>,
    place: LoginPlace,
    which: Which,
    reply: Reply<'_>,
) -> AgentStep
    requires { is_under_way which agent.old ≡ true }
    ensures step { (result, agent.new) ≡ reply_step agent.old place (plain_disk unit.old (disk medium.old)) (told_in result.ran agent.new.answer) which (answer_of reply.entry) }
    ensures unit { unit.new ≡ (left_by result.ran agent.new.orb.cdb agent.new.payload place (plain_disk unit.old (disk medium.old))).unit }
    ensures medium { disk medium.new ≡ (left_by result.ran agent.new.orb.cdb agent.new.payload place (plain_disk unit.old (disk medium.old))).medium }
    ensures may { MayTell result.ran agent.new place (plain_disk unit.old (disk medium.old)) }
    ensures bytes { AllByRecursion (λ byte. byte < 256) agent.new.answer }
    ensures cause { media_faults medium.new ≡ count_after result.ran (media_faults medium.old) }
{
    agent.reply(unit, &mut **medium, place.number(), which, reply)
}

/// [`Agent::reply`] over the unit and the medium at a place of their lists; the others stay as they
/// are.
#[tactic(auto, using(rbc_disk::proofs::MediaLists::media_steps))]
pub(crate) fn reply_at(
    agent: &mut Agent,
    units: &mut Vec<Unit>,
    media: &mut Vec<Box<dyn Medium>>,
    unit: u8,
    place: LoginPlace,
    which: Which,
    reply: Reply<'_>,
) -> AgentStep
    requires under_way { is_under_way which agent.old ≡ true }
    requires units { unit < length units.old.items }
    requires media { unit < length media.old.items }
    ensures count { length media.new.items ≡ length media.old.items }
    ensures step { (result, agent.new) ≡ reply_step agent.old place (plain_in units.old.items (map disk media.old.items) unit) (told_in result.ran agent.new.answer) which (answer_of reply.entry) }
    ensures units { units.new.items ≡ slice_set units.old.items unit (left_by result.ran agent.new.orb.cdb agent.new.payload place (plain_in units.old.items (map disk media.old.items) unit)).unit }
    ensures media { map disk media.new.items ≡ slice_set (map disk media.old.items) unit (left_by result.ran agent.new.orb.cdb agent.new.payload place (plain_in units.old.items (map disk media.old.items) unit)).medium }
    ensures may { MayTell result.ran agent.new place (plain_in units.old.items (map disk media.old.items) unit) }
    ensures bytes { AllByRecursion (λ byte. byte < 256) agent.new.answer }
    ensures counts { map media_faults media.new.items ≡ slice_set (map media_faults media.old.items) unit (count_after result.ran (slice_index (map media_faults media.old.items) unit)) }
{
    reply_boxed(
        agent,
        &mut units[usize::from(unit)],
        &mut media[usize::from(unit)],
        place,
        which,
        reply,
    )
}

/// Whether a boxed medium is present.
fn is_present(medium: &Box<dyn Medium>) -> bool
    ensures { result ≡ (disk medium.now).is_present }
{
    medium.is_present()
}

/// Whether the medium at a place of a list is present.
#[tactic(auto, using(rbc_disk::proofs::MediaLists::media_steps))]
pub(crate) fn is_present_at(media: &Vec<Box<dyn Medium>>, unit: u8) -> bool
    requires { unit < length media.now.items }
    ensures { result ≡ (disk_at (map disk media.now.items) unit).is_present }
{
    is_present(&media[usize::from(unit)])
}
