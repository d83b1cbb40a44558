ghost use Rattle.std.specs.Prelude.{◌≡◌, ◌==◌, ◌+◌, Some, None, if◌then◌else◌, IfOk};
ghost use Rattle.sbp_laws.specs.Hosts as hosts;
ghost use Rattle.retry_queue.specs.Known as known;
ghost use Rattle.sbp_world.specs.Lists.Faults.{is_fault};
ghost use Rattle.retry_queue.specs.Kept as spec;
ghost use Rattle.retry_queue.specs.Kept.{kept_of, new_kept};

use crate::session::Session;
use orb_layout::StatusKind;
use sbp_base::NoMemory;
use sbp_journal::{Note, OpWord, Operation};

/// What a queue keeps of the notes of its world.
#[derive(Clone, Copy, Debug, PartialEq, Eq)]
pub struct Kept {
    pub(crate) session: Session,
    /// Whether an operation is under way.
    pub(crate) is_busy: bool,
    /// Whether the present list is marked dead.
    pub(crate) is_dead: bool,
    /// The generation that the initiator saw last.
    pub(crate) generation: u32,
    /// The submission that the present list began with.
    pub(crate) first: u32,
    /// The submission that an ORB is to be appended for next: behind those of the present list, or,
    /// without one, the first without a status.
    pub(crate) next: u32,
    /// The first submission without a status.
    pub(crate) done: u32,
}

/// A submission that has its status.
#[derive(Clone, Copy, Debug, PartialEq, Eq)]
pub struct Finished {
    pub(crate) number: u32,
    pub(crate) status: StatusKind,
}

/// One more. The end of the counts is answered as want of memory.
fn one_more(count: u32) -> Result<u32, NoMemory>
    ensures { IfOk result (λ more. more ≡ count + 1) }
{
    sum_of(count, 1)
}

/// A sum of numbers of submissions.
fn sum_of(count: u32, more: u32) -> Result<u32, NoMemory>
    ensures { IfOk result (λ sum. sum ≡ count + more) }
{
    match count.checked_add(more) {
        Some(sum) => Ok(sum),
        None => Err(NoMemory),
    }
}

/// Whether a status is one that a submission has as its own.
fn is_final(status: StatusKind) -> bool
    ensures { result ≡ known.is_final status }
{
    match status {
        StatusKind::Good | StatusKind::Check(_) => true,
        StatusKind::Dummy
        | StatusKind::Aborted
        | StatusKind::Illegal(_)
        | StatusKind::Failed
        | StatusKind::Management(_) => false,
    }
}

/// Whether the agent is dead behind a status.
fn is_deadly(status: StatusKind) -> bool
    ensures { result ≡ is_fault status }
{
    match status {
        StatusKind::Illegal(_) | StatusKind::Failed => true,
        StatusKind::Good
        | StatusKind::Check(_)
        | StatusKind::Dummy
        | StatusKind::Aborted
        | StatusKind::Management(_) => false,
    }
}

impl Kept {
    /// Before any note.
    pub(crate) fn new() -> Kept
        ensures { kept_of result ≡ new_kept }
    {
        Kept {
            session: Session::Out,
            is_busy: false,
            is_dead: false,
            generation: 0,
            first: 0,
            next: 0,
            done: 0,
        }
    }

    /// What a note adds, in a line that asks for this operation, if for one. Most notes add nothing.
    #[inline(always)]
    pub(crate) fn learned(self, asked: Option<Operation>, note: &Note) -> Result<Kept, NoMemory>
        ensures { IfOk result (λ kept. kept_of kept ≡ spec.learned asked note.now (kept_of self)) }
    {
        match note {
            Note::Begin { initiators, ready } => Ok(self.begun(*initiators, *ready)),
            Note::Sent { from, .. } if *from == 1 => Ok(self.sent(asked)),
            Note::Op {
                initiator,
                operation,
                word,
            } if *initiator == 0 => Ok(self.ended(*operation, *word)),
            Note::Stuck { initiator } if *initiator == 0 => Ok(self.stuck()),
            Note::Append { initiator, orb, .. } if *initiator == 0 => self.appended(*orb),
            Note::Drop { initiator, .. } if *initiator == 0 => Ok(self.dropped()),
            Note::Taken {
                initiator,
                status,
                ..
            } if *initiator == 0 => self.taken(*status),
            Note::Seen { node, generation } if *node == 1 => Ok(self.seen(*generation)),
            _ => Ok(self),
        }
    }

    /// The submission that a note gives its status.
    #[inline(always)]
    pub(crate) fn finished(self, note: &Note) -> Result<Option<Finished>, NoMemory>
        ensures { IfOk result (λ finished. finished ≡ spec.finished note.now (kept_of self)) }
    {
        match note {
            Note::Taken {
                initiator,
                orb,
                status,
                ..
            } if *initiator == 0 && is_final(*status) => Ok(Some(Finished {
                number: sum_of(self.first, *orb)?,
                status: *status,
            })),
            _ => Ok(None),
        }
    }

    /// The run begins; where it is ready there is a session.
    fn begun(self, initiators: u8, ready: bool) -> Kept
        ensures { kept_of result ≡ spec.begun ready initiators (kept_of self) }
    {
        if ready && initiators > 0 {
            Kept {
                session: Session::Live,
                is_busy: false,
                is_dead: false,
                ..self
            }
        } else {
            self
        }
    }

    /// A request is sent, which in the line of an operation is that of the operation.
    fn sent(self, asked: Option<Operation>) -> Kept
        ensures { kept_of result ≡ spec.sent asked (kept_of self) }
    {
        match asked {
            Some(operation) => Kept {
                is_busy: true,
                session: self.session.sent(operation),
                ..self
            },
            None => self,
        }
    }

    /// An operation ends. A read of AGENT_STATE is none that is under way.
    fn ended(self, operation: Operation, word: OpWord) -> Kept
        ensures { kept_of result ≡ spec.ended operation word (kept_of self) }
    {
        if operation == Operation::State {
            return self;
        }
        Kept {
            is_busy: false,
            session: self.session.ended(operation, word),
            ..self
        }
    }

    /// The session becomes stuck.
    fn stuck(self) -> Kept
        ensures { kept_of result ≡ spec.stuck (kept_of self) }
    {
        Kept {
            session: self.session.stuck(),
            ..self
        }
    }

    /// The ORB of this number is appended: a list begins with its ORB 0, for the first submission
    /// without a status.
    fn appended(self, orb: u32) -> Result<Kept, NoMemory>
        ensures { IfOk result (λ kept. kept_of kept ≡ spec.appended orb (kept_of self)) }
    {
        if orb == 0 {
            return Ok(Kept {
                is_dead: false,
                first: self.done,
                next: one_more(self.done)?,
                ..self
            });
        }
        Ok(Kept {
            next: one_more(self.next)?,
            ..self
        })
    }

    /// The present list is dropped.
    fn dropped(self) -> Kept
        ensures { kept_of result ≡ spec.dropped (kept_of self) }
    {
        Kept {
            is_dead: false,
            next: self.done,
            ..self
        }
    }

    /// The status of an ORB is taken.
    fn taken(self, status: StatusKind) -> Result<Kept, NoMemory>
        ensures { IfOk result (λ kept. kept_of kept ≡ spec.taken status (kept_of self)) }
    {
        let done = if is_final(status) {
            one_more(self.done)?
        } else {
            self.done
        };
        Ok(Kept {
            is_dead: self.is_dead || is_deadly(status),
            done,
            ..self
        })
    }

    /// The initiator sees a reset, of a new generation or of the one that it is in.
    fn seen(self, generation: u32) -> Kept
        ensures { kept_of result ≡ spec.seen generation (kept_of self) }
    {
        if generation == self.generation {
            return self;
        }
        Kept {
            session: self.session.reset(),
            is_busy: false,
            generation,
            ..self
        }
    }
}
