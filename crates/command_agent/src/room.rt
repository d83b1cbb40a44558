ghost use Rattle.std.specs.Prelude.{◌≡◌, ◌+◌, ◌≤◌, ◌<◌, [], ◌++◌, length, IfOk};
ghost use Rattle.rbc_disk.specs.Units.{plain_disk};
ghost use Rattle.rbc_disk.specs.Runs.{need_of, Feeds, HasRun};

use arrayvec::ArrayVec;
use rbc_disk::{BufferPlan, Medium, Outcome, Unit};
use sbp_base::NoMemory;
use std::alloc::Global;
use std::marker::Model;

/// The most bytes of data and of an answer: 32 blocks.
const ROOM: usize = 16384;

/// Room for the data or the answer of a command, taken when it is made.
#[derive(Drop)]
pub struct Room {
    bytes: Vec<u8>,
    count: usize,
}

impl Model for Room {
    ghost use Rattle.std.specs.Prelude.{◌≡◌, ◌≤◌, ℕ, List, length, take};

    ghost Value = { List ℕ };

    ghost view = { λ a. take a.count a.bytes.items };

    ghost invariant = { λ a. (length a.bytes.items ≡ 16384) × (a.count ≤ 16384) };
}

impl Room {
    /// Room with no bytes in it.
    pub fn new(alloc: Global) -> Result<Room, NoMemory>
        ensures { IfOk result (λ room. room ≡ []) }
    {
        Ok(Room {
            bytes: vec![in alloc; 0; ROOM]?,
            count: 0,
        })
    }

    /// The bytes, lent.
    pub fn as_slice(&self) -> &[u8]
        ensures bytes { result.now ≡ self.now }
        ensures few { length self.now ≤ 16384 }
    {
        &self.bytes[0..self.count]
    }

    /// The number of bytes.
    pub fn len(&self) -> u16
        ensures count { result ≡ length self.now }
        ensures few { length self.now ≤ 16384 }
    {
        self.count as u16
    }

    /// Removes all bytes.
    pub fn clear(&mut self)
        ensures { self.new ≡ [] }
    {
        self.count = 0;
    }

    /// Adds bytes behind the others.
    pub fn append(&mut self, bytes: &[u8])
        requires { length self.old + length bytes.now ≤ 16384 }
        ensures { self.new ≡ self.old ++ bytes.now }
    {
        let end = self.count + bytes.len();
        self.bytes[self.count..end].copy_from_slice(bytes);
        self.count = end;
    }

    /// Runs a command of a unit, whose answer takes the place of the bytes.
    pub fn run(
        &mut self,
        unit: &mut Unit,
        medium: &mut dyn Medium,
        login: u8,
        cdb: &[u8; 12],
        buffer: BufferPlan,
        payload: &[u8],
    ) -> Outcome
        requires place { login < 8 }
        requires fed { Feeds (need_of cdb.now buffer (plain_disk unit.old (disk medium.old)) login) payload.now }
        ensures { HasRun cdb.now buffer login payload.now (plain_disk unit.old (disk medium.old)) (plain_disk unit.new (disk medium.new)) (media_faults medium.old) (media_faults medium.new) result self.new }
    {
        let outcome = unit.run(
            medium,
            login,
            cdb,
            buffer,
            payload,
            self.bytes.as_mut_slice(),
        );
        self.count = match outcome {
            Outcome::Good { answer } => answer as usize,
            Outcome::Check(_) => 0,
        };
        outcome
    }
}

/// The bytes of a write, as many as a packet has at most.
#[derive(Drop)]
pub struct Outgoing {
    bytes: ArrayVec<u8, 2048>,
}

impl Model for Outgoing {
    ghost use Rattle.std.specs.Prelude.{ℕ, List};

    ghost Value = { List ℕ };

    ghost view = { λ a. a.bytes.items };
}

impl Outgoing {
    /// No bytes.
    pub fn new() -> Outgoing
        ensures { result ≡ [] }
    {
        Outgoing {
            bytes: ArrayVec::new(),
        }
    }

    /// The bytes, lent.
    pub fn as_slice(&self) -> &[u8]
        ensures { result.now ≡ self.now }
    {
        self.bytes.as_slice()
    }

    /// These bytes take the place of those before.
    pub fn keep(&mut self, bytes: &[u8])
        requires { length bytes.now ≤ 2048 }
        ensures { self.new ≡ bytes.now }
    {
        self.bytes.clear();
        self.bytes.try_extend_from_slice(bytes).unwrap();
    }
}
