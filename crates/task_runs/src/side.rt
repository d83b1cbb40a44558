use sbp_journal::Side;
use std::alloc::{AllocError, Global};

/// What a target tells, as a line.
pub(crate) fn side_line(alloc: Global, side: &Side) -> Result<String, AllocError> {
    match side {
        Side::Opened { place, orb } => format!(in alloc; "opened {place} {:X}\n", orb.value()),
        Side::Ran {
            place,
            orb,
            outcome,
            ..
        } => format!(in alloc; "ran {place} {:X} {outcome:?}\n", orb.value()),
        Side::Ended { place, orb, status } => {
            format!(in alloc; "ended {place} {:X} {status:?}\n", orb.value())
        }
        Side::Dead { place, cause } => format!(in alloc; "dead {place} {cause:?}\n"),
        Side::Cut { place, cause } => format!(in alloc; "cut {place} {cause:?}\n"),
        _ => format!(in alloc; "other\n"),
    }
}
