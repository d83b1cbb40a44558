ghost use Rattle.std.specs.Prelude.{◌≡◌, ◌<◌, ◌≤◌, ◌+◌, ℕ, List, [], ◌++◌, length, take, drop, min, Some, Option, Result, IfOk, OnErr, Ok, Err, if◌then◌else◌, IsTrue, ◌↔◌, IsErr, IsErrOf};
ghost use Rattle.std.specs.Io.{ReadsAtMost, WritesAtMost};
ghost use Rattle.std.specs.Io.KnownBytes.{ReadConsumes, WriteAppends};
ghost use Rattle.sbp_base.specs.Faults.{HasCause, HasSinkCause};
ghost use Rattle.sbp_base.specs.Failing.{Plan, fails_next, after_call};

use crate::bytes::Bytes;
use crate::failing::FailingCalls;
use crate::outside::{Failed, Sink, SinkFault, Source};
use std::alloc::Global;
use std::marker::Model;

/// A source in memory, some of whose calls fail.
#[derive(Drop)]
pub struct MemorySource {
    bytes: Vec<u8>,
    at: usize,
    plan: FailingCalls,
}

impl Model for MemorySource {
    ghost use Rattle.std.specs.Prelude.{◌≤◌, drop, vec_len};
    ghost use Rattle.sbp_base.specs.Memory.{SourceState};

    ghost Value = { SourceState };

    ghost view = { λ source. record { left = drop source.at source.bytes.items; plan = source.plan } };

    ghost invariant = { λ source. source.at ≤ vec_len source.bytes };
}

impl MemorySource {
    ghost use Rattle.sbp_base.specs.Memory.{SourceState};

    /// A source of these bytes, of which the calls with the given numbers fail, counted from 1.
    pub fn new(bytes: Vec<u8>, failing: Vec<u32>) -> Self
        ensures { result ≡ record { left = bytes.items; plan = record { failing = failing.items; calls = 0; faults = 0 } } }
    {
        MemorySource {
            bytes,
            at: 0,
            plan: FailingCalls::new(failing),
        }
    }
}

impl Source for MemorySource {
    ghost left = { λ source. Some source.left };

    ghost faults = { λ source. source.plan.faults };

    fn read(&mut self, into: &mut [u8]) -> Result<usize, Failed>
        ensures count { ReadsAtMost result into.new }
        ensures bytes { ReadConsumes (Some self.old.left) (Some self.new.left) result into.new }
        ensures cause { HasCause self.old.plan.faults self.new.plan.faults result }
        ensures plan { self.new.plan ≡ after_call self.old.plan }
        ensures read { result ≡ (if fails_next self.old.plan then Err record {} else Ok (min (length self.old.left) (length into.old))) }
    {
        if self.plan.next_fails() {
            return Err(Failed);
        }
        let count = copy_front(&self.bytes[self.at..], into);
        self.at += count;
        Ok(count)
    }
}

/// Copies as much of the front of `bytes` as `into` has room for, and answers how much.
fn copy_front(bytes: &[u8], into: &mut [u8]) -> usize
    ensures count { result ≡ min (length bytes.now) (length into.old) }
    ensures copied { take result into.new ≡ take result bytes.now }
{
    let count = bytes.len().min(into.len());
    into[..count].copy_from_slice(&bytes[..count]);
    count
}

/// A sink in memory, some of whose calls fail.
#[derive(Drop)]
pub struct MemorySink {
    bytes: Bytes,
    plan: FailingCalls,
}

impl Model for MemorySink {
    ghost use Rattle.sbp_base.specs.Memory.{SinkState};

    ghost Value = { SinkState };

    ghost view = { λ sink. record { written = sink.bytes; plan = sink.plan } };
}

impl MemorySink {
    ghost use Rattle.sbp_base.specs.Memory.{SinkState};

    /// An empty sink, of which the calls with the given numbers fail, counted from 1.
    pub fn new(alloc: Global, failing: Vec<u32>) -> Self
        ensures { result ≡ record { written = []; plan = record { failing = failing.items; calls = 0; faults = 0 } } }
    {
        MemorySink {
            bytes: Bytes::new(alloc),
            plan: FailingCalls::new(failing),
        }
    }

    /// The bytes written so far.
    pub fn bytes(&self) -> &[u8]
        ensures { result.now ≡ self.now.written }
    {
        self.bytes.as_slice()
    }
}

impl Sink for MemorySink {
    ghost written = { λ sink. Some sink.written };

    ghost faults = { λ sink. sink.plan.faults };

    fn write(&mut self, bytes: &[u8]) -> Result<usize, SinkFault>
        ensures count { WritesAtMost result bytes.now }
        ensures some { IfOk result (λ taken. 0 < length bytes.now → 0 < taken) }
        ensures bytes { WriteAppends (Some self.old.written) (Some self.new.written) result bytes.now }
        ensures cause { HasSinkCause self.old.plan.faults self.new.plan.faults result }
        ensures plan { self.new.plan ≡ after_call self.old.plan }
        ensures failed { IsErrOf result SinkFault.Failed ↔ IsTrue (fails_next self.old.plan) }
        ensures whole { IfOk result (λ taken. taken ≡ length bytes.now) }
    {
        if self.plan.next_fails() {
            return Err(SinkFault::Failed);
        }
        if self.bytes.extend_from_slice(bytes).is_err() {
            return Err(SinkFault::NoMemory);
        }
        Ok(bytes.len())
    }
}
