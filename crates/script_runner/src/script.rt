ghost use Rattle.std.specs.Prelude.{◌≡◌, ◌≤◌, Some, Ok, IfOk, IfSome};
ghost use Rattle.script_text.specs.Line.{reading};
ghost use Rattle.script_runner.specs.Runner.{HasBytes};
ghost use Rattle.script_runner.specs.Script.{Hears, error_of, heard};

use crate::typed::said_fits;
use line_session::LineError;
use sbp_journal::Event;
use script_text::LineFault;
use std::alloc::Global;

/// Why a line of a script gives nothing: its fault has the number by which it is told.
pub fn line_error(fault: LineFault) -> LineError
    ensures { result ≡ error_of fault }
{
    match fault {
        LineFault::TooLong => LineError::Fault(1),
        LineFault::Unknown => LineError::Fault(3),
        LineFault::Shape => LineError::Fault(4),
        LineFault::Range => LineError::Fault(5),
        LineFault::Place => LineError::Fault(6),
        LineFault::NoInitiator => LineError::Fault(7),
        LineFault::Byte => LineError::Fault(8),
        LineFault::NoMemory => LineError::NoMemory,
    }
}

/// Reads a line of a script, without its line feed: its event, or nothing for a blank line or a
/// comment. `initiators` is how many the run has, and 0 before it begins.
pub fn read_event(alloc: Global, line: &[u8], initiators: u8) -> Result<Option<Event>, LineError>
    requires { initiators ≤ 4 }
    ensures reads { Hears result (heard initiators line.now) }
    ensures event { IfOk result (λ said. IfSome said (λ event. reading line.now initiators ≡ Ok (Some event))) }
    ensures bytes { IfOk result (λ said. IfSome said HasBytes) }
{
    match script_text::read_line(alloc, line, initiators) {
        Ok(said) => {
            said_fits(&said);
            Ok(said)
        }
        Err(fault) => Err(line_error(fault)),
    }
}
