ghost use Rattle.std.specs.Prelude.{◌≡◌, ◌<◌, ℕ, List, length, Option, IfOk};
ghost use Rattle.std.specs.Io.{ReadsAtMost, WritesAtMost};
ghost use Rattle.std.specs.Io.KnownBytes.{ReadConsumes, WriteAppends};
ghost use Rattle.sbp_base.specs.Faults.{HasCause, HasSinkCause};

use std::alloc::{AllocError, AllocFailed};

/// A call to the outside failed, and its object counted the fault.
#[derive(Clone, Copy, Debug, PartialEq, Eq)]
pub struct Failed;

/// Memory was wanting.
#[derive(Clone, Copy, Debug, PartialEq, Eq)]
pub struct NoMemory;

impl From<AllocError> for NoMemory {
    fn from(_error: AllocError) -> NoMemory {
        NoMemory
    }
}

impl<T: Drop> From<AllocFailed<T>> for NoMemory {
    fn from(_error: AllocFailed<T>) -> NoMemory {
        NoMemory
    }
}

/// Why a sink took nothing.
#[derive(Clone, Copy, Debug, PartialEq, Eq)]
pub enum SinkFault {
    /// The write failed, and the sink counted the fault.
    Failed,
    /// Memory was wanting.
    NoMemory,
}

/// Bytes that are read from the front.
pub trait Source {
    /// The bytes left, where the source tells them.
    ghost left: { Self → Option (List ℕ) };

    /// How many of its calls answered Failed; it stays at its last value, 2^64 - 1.
    ghost faults: { Self → ℕ };

    /// Takes bytes from the front into `into`, and answers how many. No bytes into a piece that is
    /// not empty is the end of the input.
    fn read(&mut self, into: &mut [u8]) -> Result<usize, Failed>
        ensures count { ReadsAtMost result into.new }
        ensures bytes { ReadConsumes (left self.old) (left self.new) result into.new }
        ensures cause { HasCause (faults self.old) (faults self.new) result };
}

/// Bytes that are written at the end.
pub trait Sink {
    /// The bytes written, where the sink tells them.
    ghost written: { Self → Option (List ℕ) };

    /// How many of its calls answered Failed; it stays at its last value, 2^64 - 1.
    ghost faults: { Self → ℕ };

    /// Adds the front of `bytes`, and answers how many it took: one at least, if there is one.
    fn write(&mut self, bytes: &[u8]) -> Result<usize, SinkFault>
        ensures count { WritesAtMost result bytes.now }
        ensures some { IfOk result (λ taken. 0 < length bytes.now → 0 < taken) }
        ensures bytes { WriteAppends (written self.old) (written self.new) result bytes.now }
        ensures cause { HasSinkCause (faults self.old) (faults self.new) result };
}
