use orb_layout::FailCause;
use sbp_base::{NodeId, Offset};
use sbp_journal::Side;
use std::alloc::{AllocError, Global};
use std::fmt::Debug;

/// A line of an ORB of a place, and how it ended.
fn orb_line<T: Debug>(
    alloc: Global,
    word: &str,
    place: u8,
    orb: Offset,
    end: &T,
) -> Result<String, AllocError> {
    format!(in alloc; "{word} {place} {:X} {end:?}\n", orb.value())
}

/// A line of a place, and why its list ended.
fn cause_line<T: Debug>(
    alloc: Global,
    word: &str,
    place: u8,
    cause: &T,
) -> Result<String, AllocError> {
    format!(in alloc; "{word} {place} {cause:?}\n")
}

/// The line of a management operation that failed.
fn failed_line(alloc: Global, node: NodeId, cause: FailCause) -> Result<String, AllocError> {
    format!(in alloc; "mgmtfail {:X} {cause:?}\n", node.raw())
}

/// The line of a management operation that was decided.
fn managed_line(
    alloc: Global,
    node: NodeId,
    function: u8,
    subject: u16,
    status: u8,
    login: u16,
) -> Result<String, AllocError> {
    let node = node.raw();
    format!(in alloc; "mgmt {node:X} {function} {subject} {status:02X} {login}\n")
}

/// The word and the number of a line that has no more.
fn word_of(side: &Side) -> (&'static str, u16) {
    match side {
        Side::Held(login) => ("held", *login),
        Side::Expired(login) => ("expired", *login),
        Side::Back(login) => ("back", *login),
        Side::Left(login) => ("left", *login),
        Side::Cleared(unit) => ("cleared", u16::from(*unit)),
        Side::Unsolicited { place } => ("unsolicited", u16::from(*place)),
        Side::Unsent { place } => ("unsent", u16::from(*place)),
        _ => ("own", 0),
    }
}

/// What a target tells, as a line.
pub(crate) fn side_line(alloc: Global, side: &Side) -> Result<String, AllocError> {
    match side {
        Side::Opened { place, orb } => format!(in alloc; "opened {place} {:X}\n", orb.value()),
        Side::Ran {
            place,
            orb,
            outcome,
            ..
        } => orb_line(alloc, "ran", *place, *orb, outcome),
        Side::Ended { place, orb, status } => orb_line(alloc, "ended", *place, *orb, status),
        Side::Dead { place, cause } => cause_line(alloc, "dead", *place, cause),
        Side::Cut { place, cause } => cause_line(alloc, "cut", *place, cause),
        Side::Managed {
            node,
            function,
            subject,
            status,
            login,
        } => managed_line(alloc, *node, *function, *subject, *status, *login),
        Side::ManageFailed { node, cause } => failed_line(alloc, *node, *cause),
        _ => {
            let (word, number) = word_of(side);
            format!(in alloc; "{word} {number}\n")
        }
    }
}
