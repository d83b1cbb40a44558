//! The bytes of an event are bytes. A proof knows what the type of a number says where the number is
//! read, so they are read here once; nothing else is done.
ghost use Rattle.std.specs.Prelude.{◌<◌, IfSome};
ghost use Rattle.std.specs.List.{All};
ghost use Rattle.bus_transactions.specs.Fitting.{AreBytes};
ghost use Rattle.sbp_world.specs.FitInitiator.{BytesAction, BytesCommand};
ghost use Rattle.script_runner.specs.Runner.{HasBytes};

use sbp_journal::{Action, Cmd, Event};

/// Bytes.
#[tactic(auto, using(crate::proofs::EventBytes::bytes_anywhere))]
fn bytes_fit(bytes: &[u8])
    ensures all { All (λ byte. byte < 256) bytes.now }
    ensures anywhere { AreBytes bytes.now }
{
    let _count = bytes.len();
}

/// The command block and the data of a command.
fn command_fits(command: &Cmd)
    ensures { BytesCommand command.now }
{
    bytes_fit(command.cdb.as_slice());
    bytes_fit(command.payload.as_slice());
}

/// What an initiator does.
fn action_fits(action: &Action)
    ensures { BytesAction action.now }
{
    match action {
        Action::Put(command) => command_fits(command),
        Action::Append(command) => command_fits(command),
        _ => {}
    }
}

/// An event.
fn event_fits(event: &Event)
    ensures { HasBytes event.now }
{
    match event {
        Event::Act { action, .. } => action_fits(action),
        Event::Inject { bytes, .. } => bytes_fit(bytes.as_slice()),
        _ => {}
    }
}

/// What a line says: an event, or nothing.
pub(crate) fn said_fits(said: &Option<Event>)
    ensures { IfSome said.now HasBytes }
{
    if let Some(event) = said {
        event_fits(event);
    }
}
