ghost use Rattle.std.specs.Prelude.{◌≡◌};
ghost use Rattle.sbp_bus.specs.Words.{check_of, function_word, login_if};

use rbc_command::Sense;
use rbc_disk::Outcome;
use sbp_journal::FunctionWord;

/// The word of the number of a management function (NCITS 325-1998, management ORB).
pub(crate) fn function_word(number: u8) -> FunctionWord
    ensures { result ≡ function_word number }
{
    match number {
        0x0 => FunctionWord::Login,
        0x1 => FunctionWord::Query,
        0x3 => FunctionWord::Reconnect,
        0x7 => FunctionWord::Logout,
        0xb => FunctionWord::Abort,
        0xc => FunctionWord::AbortSet,
        0xe => FunctionWord::UnitReset,
        0xf => FunctionWord::TargetReset,
        _ => FunctionWord::Other,
    }
}

/// The ID that a decision gives: a login's at status 00.
pub(crate) fn login_if(word: FunctionWord, status: u8, login: u16) -> Option<u16>
    ensures { result ≡ login_if word status login }
{
    match word {
        FunctionWord::Login if status == 0 => Some(login),
        _ => None,
    }
}

/// The check of an outcome.
pub(crate) fn check_of(outcome: Outcome) -> Option<Sense>
    ensures { result ≡ check_of outcome }
{
    match outcome {
        Outcome::Good { .. } => None,
        Outcome::Check(check) => Some(check),
    }
}
