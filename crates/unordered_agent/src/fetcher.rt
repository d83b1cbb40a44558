ghost use Rattle.std.specs.Prelude.{◌≡◌};

use command_agent::{AgentState, aligned};
use orb_layout::{Ask, OrbPointer};
use sbp_base::Offset;

/// The bytes of an ORB.
const ORB_SIZE: u16 = 32;

/// The bytes of a next pointer.
const POINTER_SIZE: u16 = 8;

/// What the fetcher does. In `Fetching` and `ReadingNext` its transaction is under way.
#[derive(Clone, Copy, Debug, PartialEq, Eq)]
pub enum FetchPhase {
    /// Nothing: no list is open.
    Reset,
    /// A read of an ORB.
    Fetching,
    /// A read of the last ORB's next pointer.
    ReadingNext,
    /// Nothing, until a task place is free: there is a next ORB.
    Waiting,
    /// Nothing: the next pointer last read is null.
    AtEnd,
    /// Nothing, until the agent is reset.
    Dead,
}

/// The fetcher of an agent: what it does, the doorbell mark, the address of the ORB that it reads or
/// read last, and of the last ORB that it read the next pointer, as it was last read, and the task
/// place that it took.
#[derive(Clone, Copy, Debug)]
pub struct Fetcher {
    pub phase: FetchPhase,
    pub doorbell: bool,
    pub orb: Offset,
    pub next: OrbPointer,
    pub newest: usize,
}

impl Fetcher {
    ghost use Rattle.unordered_agent.specs.Machine.{new_fetcher, state_in, is_reading};
    ghost use Rattle.unordered_agent.specs.Fetching.{fetched_at, opened_at, reread, waited, followed, seated, died};

    /// A fetcher without a list.
    pub(crate) fn new() -> Fetcher
        ensures { result ≡ new_fetcher }
    {
        Fetcher {
            phase: FetchPhase::Reset,
            doorbell: false,
            orb: Offset::zero(),
            next: OrbPointer::Null,
            newest: 0,
        }
    }

    /// The state of its agent.
    pub(crate) fn state(&self) -> AgentState
        ensures { result ≡ state_in self.now.phase }
    {
        match self.phase {
            FetchPhase::Reset => AgentState::Reset,
            FetchPhase::AtEnd => AgentState::Suspended,
            FetchPhase::Dead => AgentState::Dead,
            FetchPhase::Fetching | FetchPhase::ReadingNext | FetchPhase::Waiting => {
                AgentState::Active
            }
        }
    }

    /// Whether its transaction is under way.
    pub(crate) fn is_reading(&self) -> bool
        ensures { result ≡ is_reading self.now.phase }
    {
        matches!(self.phase, FetchPhase::Fetching | FetchPhase::ReadingNext)
    }

    /// Reads the ORB at a pointer.
    fn fetch(&mut self, next: Offset) -> Ask
        ensures { (result, self.new) ≡ fetched_at self.old next }
    {
        self.phase = FetchPhase::Fetching;
        self.doorbell = false;
        self.orb = aligned(next);
        Ask::Read {
            offset: self.orb,
            length: ORB_SIZE,
        }
    }

    /// Opens a list: reads its first ORB.
    pub(crate) fn open(&mut self, first: Offset) -> Ask
        ensures { (result, self.new) ≡ opened_at self.old first }
    {
        self.next = OrbPointer::Null;
        self.fetch(first)
    }

    /// Reads the next pointer of the last ORB again.
    pub(crate) fn reread(&mut self) -> Ask
        ensures { (result, self.new) ≡ reread self.old }
    {
        self.phase = FetchPhase::ReadingNext;
        self.doorbell = false;
        Ask::Read {
            offset: self.orb,
            length: POINTER_SIZE,
        }
    }

    /// Goes on by the next pointer, as it was last read: it reads the next ORB where a task place is
    /// free.
    pub(crate) fn follow(&mut self, has_place: bool) -> Ask
        ensures { (result, self.new) ≡ followed self.old.next self.old has_place }
    {
        let next = self.next;
        match next {
            OrbPointer::At(next) => self.fetch_or_wait(next, has_place),
            OrbPointer::Null => self.wait(),
        }
    }

    /// Reads the next ORB, or waits for a task place.
    fn fetch_or_wait(&mut self, next: Offset, has_place: bool) -> Ask
        ensures { (result, self.new) ≡ followed (OrbPointer.At next) self.old has_place }
    {
        if has_place {
            return self.fetch(next);
        }
        self.phase = FetchPhase::Waiting;
        Ask::Nothing
    }

    /// There is no next ORB: with the doorbell mark the pointer is read again.
    fn wait(&mut self) -> Ask
        ensures { (result, self.new) ≡ waited self.old }
    {
        if self.doorbell {
            return self.reread();
        }
        self.phase = FetchPhase::AtEnd;
        Ask::Nothing
    }

    /// The ORB that it read is in a task place, and has this next pointer.
    pub(crate) fn seat(&mut self, place: usize, next: OrbPointer)
        ensures { self.new ≡ seated self.old place next }
    {
        self.newest = place;
        self.next = next;
    }

    /// The next pointer of the last ORB, as it was last read.
    pub(crate) fn next(&self) -> OrbPointer
        ensures { result ≡ self.now.next }
    {
        self.next
    }

    /// The next pointer of the last ORB was read again.
    pub(crate) fn link(&mut self, next: OrbPointer)
        ensures { self.new ≡ record self.old { next = next } }
    {
        self.next = next;
    }

    /// It does nothing until the agent is reset.
    pub(crate) fn die(&mut self)
        ensures { self.new ≡ died self.old }
    {
        self.phase = FetchPhase::Dead;
    }
}
