ghost use Rattle.std.specs.Prelude.{◌≡◌};
ghost use Rattle.sbp_laws.specs.Hosts.{has_login, session_ended, session_reset, session_sent, session_stuck};
ghost use Rattle.retry_queue.specs.Sessions.{session_of};

use sbp_journal::{OpWord, Operation};

/// A session (NCITS 325-1998, login, reconnect, logout).
#[derive(Clone, Copy, Debug, PartialEq, Eq)]
pub enum Session {
    Out,
    Entering,
    Live,
    /// There was a login, and a reset was seen.
    Held,
    Returning,
    Leaving,
    /// It is stuck until a reset.
    Stuck { had_login: bool },
}

impl Session {
    /// The request of an operation is sent.
    pub(crate) fn sent(self, operation: Operation) -> Session
        ensures { session_of result ≡ session_sent operation (session_of self) }
    {
        match operation {
            Operation::Login => Session::Entering,
            Operation::Reconnect => Session::Returning,
            Operation::Logout => Session::Leaving,
            Operation::Rom
            | Operation::Query
            | Operation::Abort
            | Operation::AbortSet
            | Operation::UnitReset
            | Operation::TargetReset
            | Operation::AgentReset
            | Operation::State
            | Operation::Enable => self,
        }
    }

    /// An operation ends.
    pub(crate) fn ended(self, operation: Operation, word: OpWord) -> Session
        ensures { session_of result ≡ session_ended operation word (session_of self) }
    {
        match operation {
            Operation::Login => self.entered(word),
            Operation::Reconnect => self.returned(word),
            Operation::Logout => self.left(word),
            Operation::Rom
            | Operation::Query
            | Operation::Abort
            | Operation::AbortSet
            | Operation::UnitReset
            | Operation::TargetReset
            | Operation::AgentReset
            | Operation::State
            | Operation::Enable => self,
        }
    }

    /// A login ends.
    fn entered(self, word: OpWord) -> Session
        ensures { session_of result ≡ session_ended Operation.Login word (session_of self) }
    {
        match (self, word) {
            (Session::Entering, OpWord::Done) => Session::Live,
            (Session::Entering, OpWord::Refused(_) | OpWord::Conflict) => Session::Out,
            _ => self,
        }
    }

    /// A reconnect ends.
    fn returned(self, word: OpWord) -> Session
        ensures { session_of result ≡ session_ended Operation.Reconnect word (session_of self) }
    {
        match (self, word) {
            (Session::Returning, OpWord::Done) => Session::Live,
            (Session::Returning, OpWord::Refused(_)) => Session::Out,
            (Session::Returning, OpWord::Conflict) => Session::Held,
            _ => self,
        }
    }

    /// A logout ends.
    fn left(self, word: OpWord) -> Session
        ensures { session_of result ≡ session_ended Operation.Logout word (session_of self) }
    {
        match (self, word) {
            (Session::Leaving, OpWord::Done | OpWord::Refused(_)) => Session::Out,
            (Session::Leaving, OpWord::Conflict) => Session::Live,
            _ => self,
        }
    }

    /// It becomes stuck.
    pub(crate) fn stuck(self) -> Session
        ensures { session_of result ≡ session_stuck (session_of self) }
    {
        Session::Stuck {
            had_login: self.has_login(),
        }
    }

    /// A reset is seen.
    pub(crate) fn reset(self) -> Session
        ensures { session_of result ≡ session_reset (session_of self) }
    {
        if self.has_login() {
            Session::Held
        } else {
            Session::Out
        }
    }

    /// Whether there is a login, or was one as the session became stuck.
    fn has_login(self) -> bool
        ensures { result ≡ has_login (session_of self) }
    {
        match self {
            Session::Out | Session::Entering => false,
            Session::Live | Session::Held | Session::Returning | Session::Leaving => true,
            Session::Stuck { had_login } => had_login,
        }
    }
}
