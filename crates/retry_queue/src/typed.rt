//! The bytes of a write are bytes. A proof knows what the type of a number says where the number is
//! read, so they are read here once; nothing else is done.
ghost use Rattle.std.specs.Prelude.{◌<◌, ◌^◌};
ghost use Rattle.std.specs.List.{All};
ghost use Rattle.bus_transactions.specs.Fitting.{AreBytes};
ghost use Rattle.sbp_world.specs.FitInitiator.{BytesCommand};

use sbp_journal::Cmd;

/// Bytes.
#[tactic(auto, using(crate::proofs::Bytes::bytes_anywhere))]
fn bytes_fit(bytes: &[u8])
    ensures all { All (λ byte. byte < 256) bytes.now }
    ensures anywhere { AreBytes bytes.now }
{
    let _count = bytes.len();
}

/// The command block and the data of a command.
pub(crate) fn command_fits(command: &Cmd)
    ensures { BytesCommand command.now }
{
    bytes_fit(command.cdb.as_slice());
    bytes_fit(command.payload.as_slice());
}

/// The address of a block.
pub(crate) fn address_fits(lba: u32)
    ensures { lba < 2 ^ 32 }
{
    let _same = lba;
}
