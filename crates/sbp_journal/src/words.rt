ghost use Rattle.std.specs.Prelude.{◌≡◌, ◌≤◌, length};
ghost use Rattle.sbp_journal.specs.Text.{mode, cause_word, cut_word, fail_word, function_word, operation_word};

use crate::cause::{Cause, CutCause};
use crate::operation::{FunctionWord, Operation};
use orb_layout::FailCause;

/// The word for how a run begins.
pub(crate) fn mode_text(ready: bool) -> &'static str
    ensures word { result.now ≡ mode ready }
    ensures few { length result.now ≤ 12 }
{
    if ready { "ready" } else { "cold" }
}

/// The word for why a packet was ignored.
pub(crate) fn cause_text(cause: Cause) -> &'static str
    ensures word { result.now ≡ cause_word cause }
    ensures few { length result.now ≤ 12 }
{
    match cause {
        Cause::Generation => "generation",
        Cause::Grammar => "grammar",
        Cause::Label => "label",
        Cause::Again => "again",
        Cause::Source => "source",
        Cause::Login => "login",
        Cause::Slot => "slot",
    }
}

/// The word for why a list was cut.
pub(crate) fn cut_text(cause: CutCause) -> &'static str
    ensures word { result.now ≡ cut_word cause }
    ensures few { length result.now ≤ 12 }
{
    match cause {
        CutCause::AgentReset => "agentreset",
        CutCause::AbortSet => "abortset",
        CutCause::UnitReset => "unitreset",
        CutCause::TargetReset => "targetreset",
        CutCause::Logout => "logout",
        CutCause::Reset => "reset",
    }
}

/// The word for why an agent is dead, or a management operation failed.
pub(crate) fn fail_text(cause: FailCause) -> &'static str
    ensures word { result.now ≡ fail_word cause }
    ensures few { length result.now ≤ 12 }
{
    match cause {
        FailCause::Timeout => "timeout",
        FailCause::Label => "label",
        FailCause::Refused => "refused",
        FailCause::Grammar => "grammar",
    }
}

/// The word of a management function.
pub(crate) fn function_text(function: FunctionWord) -> &'static str
    ensures word { result.now ≡ function_word function }
    ensures few { length result.now ≤ 12 }
{
    match function {
        FunctionWord::Login => "login",
        FunctionWord::Query => "query",
        FunctionWord::Reconnect => "reconnect",
        FunctionWord::Logout => "logout",
        FunctionWord::Abort => "abort",
        FunctionWord::AbortSet => "abortset",
        FunctionWord::UnitReset => "lureset",
        FunctionWord::TargetReset => "treset",
        FunctionWord::Other => "other",
    }
}

/// The word of an operation.
pub(crate) fn operation_text(operation: Operation) -> &'static str
    ensures word { result.now ≡ operation_word operation }
    ensures few { length result.now ≤ 12 }
{
    match operation {
        Operation::Rom => "rom",
        Operation::Login => "login",
        Operation::Query => "query",
        Operation::Reconnect => "reconnect",
        Operation::Logout => "logout",
        Operation::Abort => "abort",
        Operation::AbortSet => "abortset",
        Operation::UnitReset => "lureset",
        Operation::TargetReset => "treset",
        Operation::AgentReset => "agentreset",
        Operation::State => "state",
        Operation::Enable => "enable",
    }
}
