ghost use Rattle.std.specs.Prelude.{◌≡◌, ℕ, ◌+◌, ◌≤◌, List, ◌++◌, length, map, OnOk};
ghost use Rattle.rbc_disk.specs.Held.{Held, held};
ghost use Rattle.line_session.specs.Meaning.{Meaning, Serves, Closes, Refused};

use crate::line::limit_fault;
use rbc_disk::Medium;
use sbp_base::{Bytes, NoMemory};

/// Why a line gave nothing.
#[derive(Clone, Copy, Debug, PartialEq, Eq)]
pub enum LineError {
    /// The line is refused; its fault has this number.
    Fault(u8),
    /// Memory was wanting.
    NoMemory,
}

impl From<NoMemory> for LineError {
    ghost use Rattle.std.specs.Prelude.{◌≡◌};
    ghost use Rattle.line_session.specs.declared.serve.LineError.{LineError};

    ghost from_gives = { λ _ error. error ≡ LineError.NoMemory };

    fn from(_error: NoMemory) -> LineError {
        LineError::NoMemory
    }
}

/// What serves the lines of an input over some media. Lines are counted from 1.
pub trait Serve {
    /// What becomes of the lines that were served.
    ghost meaning: { Meaning Self };

    /// Serves a line, which has no line feed, and adds its text to `out`.
    fn serve_line(
        &mut self,
        number: u32,
        line: &[u8],
        media: &mut Vec<Box<dyn Medium>>,
        out: &mut Bytes,
    ) -> Result<(), LineError>
        requires ready { meaning.ready number self.old (held (map disk media.old.items) (map media_faults media.old.items)) }
        requires few { number ≤ 65536 }
        requires short { length line.now ≤ 8192 }
        ensures ready { OnOk result (meaning.ready (number + 1) self.new (held (map disk media.new.items) (map media_faults media.new.items))) }
        ensures served { (start : Held) (before : List (List ℕ)) (front : List ℕ) → number ≡ 1 + length before → meaning.ran start before (front ++ out.old) self.old (held (map disk media.old.items) (map media_faults media.old.items)) → Serves meaning (meaning.refuses before line.now) result start before line.now (front ++ out.new) self.new (held (map disk media.old.items) (map media_faults media.old.items)) (held (map disk media.new.items) (map media_faults media.new.items)) };

    /// Adds to `out` what is said when all lines were served.
    fn close(&mut self, out: &mut Bytes) -> Result<(), NoMemory>
        ensures { (start media : Held) (before : List (List ℕ)) (front : List ℕ) → meaning.ran start before (front ++ out.old) self.old media → Closes meaning result start before (front ++ out.new) media };
}

/// Serves a line, unless its number or its length is above the limit.
pub(crate) fn serve_within<V: Serve>(
    number: u32,
    line: &[u8],
    server: &mut V,
    media: &mut Vec<Box<dyn Medium>>,
    out: &mut Bytes,
) -> Result<(), LineError>
    requires ready { V.meaning.ready number server.old (held (map disk media.old.items) (map media_faults media.old.items)) }
    requires few { number ≤ 65537 }
    ensures few { OnOk result (number ≤ 65536) }
    ensures short { OnOk result (length line.now ≤ 8192) }
    ensures ready { OnOk result (V.meaning.ready (number + 1) server.new (held (map disk media.new.items) (map media_faults media.new.items))) }
    ensures served { (start : Held) (before : List (List ℕ)) (front : List ℕ) → number ≡ 1 + length before → V.meaning.ran start before (front ++ out.old) server.old (held (map disk media.old.items) (map media_faults media.old.items)) → Serves V.meaning (Refused V.meaning before line.now) result start before line.now (front ++ out.new) server.new (held (map disk media.old.items) (map media_faults media.old.items)) (held (map disk media.new.items) (map media_faults media.new.items)) }
{
    match limit_fault(number, line) {
        Some(fault) => Err(LineError::Fault(fault)),
        None => server.serve_line(number, line, media, out),
    }
}
