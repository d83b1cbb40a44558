ghost use Rattle.std.specs.Prelude.{◌≡◌, ◌+◌, ◌^◌, nat_lt, IfNone};
ghost use Rattle.command_agent.specs.Checks.{verdict, refusal, IsPassed, death_by, reads_table, plain_length};

use orb_layout::{CommandOrb, FailCause, StatusKind};

/// How an ORB ends without running, by the first check that holds: its request format, the mark of
/// an abort, its speed, max_payload, page size and elements, and the end of its buffer.
#[tactic(auto, unfolding(crate::specs::Checks::verdict))]
pub fn verdict(orb: &CommandOrb, aborted: bool) -> Option<StatusKind>
    ensures first { result ≡ verdict orb.now aborted }
    ensures passed { IfNone result (IsPassed orb.now) }
{
    if orb.format == 3 {
        Some(StatusKind::Dummy)
    } else if orb.format != 0 {
        Some(StatusKind::Illegal(0x01))
    } else if aborted {
        Some(StatusKind::Aborted)
    } else {
        refusal(orb)
    }
}

/// The first field with which a standard ORB is illegal.
#[tactic(auto, unfolding(crate::specs::Checks::refusal))]
fn refusal(orb: &CommandOrb) -> Option<StatusKind>
    ensures first { result ≡ refusal orb.now }
    ensures passed { IfNone result (IsPassed orb.now) }
{
    if orb.speed > 2 {
        Some(StatusKind::Illegal(0x02))
    } else if orb.max_payload > 7 + orb.speed {
        Some(StatusKind::Illegal(0xff))
    } else if orb.has_table && orb.page_size != 0 {
        Some(StatusKind::Illegal(0x03))
    } else if orb.has_table && orb.data_size > 64 {
        Some(StatusKind::Illegal(0xff))
    } else if !orb.has_table && ends_outside(orb) {
        Some(StatusKind::Illegal(0xff))
    } else {
        None
    }
}

/// Whether a buffer without a page table ends above 2^48.
fn ends_outside(orb: &CommandOrb) -> bool
    ensures { result ≡ nat_lt (2 ^ 48) (orb.now.descriptor + orb.now.data_size) }
{
    orb.descriptor.value() + u64::from(orb.data_size) > 1 << 48
}

/// Whether a page table is to be read.
pub fn reads_table(orb: &CommandOrb) -> bool
    ensures { result ≡ reads_table orb.now }
{
    orb.has_table && orb.data_size != 0
}

/// The bytes of a buffer whose page table is not read: none where it is a table of no elements.
pub fn plain_length(orb: &CommandOrb) -> u16
    ensures { result ≡ plain_length orb.now }
{
    if orb.has_table { 0 } else { orb.data_size }
}

/// Why an agent becomes dead at an ORB that ends in this way.
pub fn death_by(kind: StatusKind) -> Option<FailCause>
    ensures { result ≡ death_by kind }
{
    match kind {
        StatusKind::Illegal(_) => Some(FailCause::Grammar),
        _ => None,
    }
}
