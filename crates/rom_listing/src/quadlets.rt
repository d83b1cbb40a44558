ghost use Rattle.std.specs.Prelude.{◌≡◌, ◌≤◌, length, IfOk, OnErr};
ghost use Rattle.rom_listing.specs.RomListing.{quads_of, with_bytes};
ghost use Rattle.rom_listing.specs.Meaning.{Gathers};

use line_session::LineError;
use sbp_base::{NoMemory, quad_at};
use std::alloc::Global;

/// The most quadlets of a configuration ROM.
const QUADLETS: usize = 256;

/// The number of the fault of a line whose bytes are no whole quadlets.
const NO_QUADLETS: u8 = 4;

/// The number of the fault of a line with which the quadlets pass 256.
const MANY_QUADLETS: u8 = 5;

/// Adds the quadlets of bytes, the most significant byte first.
pub(crate) fn take_bytes(alloc: Global, bytes: &[u8], quads: &mut Vec<u32>) -> Result<(), LineError>
    requires { length quads.old.items ≤ 256 }
    ensures taken { Gathers result (with_bytes quads.old.items bytes.now) quads.new.items }
    ensures few { length quads.new.items ≤ 256 }
    ensures kept { OnErr result (quads.new.items ≡ quads.old.items) }
{
    if bytes.len() % 4 != 0 {
        return Err(LineError::Fault(NO_QUADLETS));
    }
    let more = quads_of(alloc, bytes)?;
    if quads.len() + more.len() > QUADLETS {
        return Err(LineError::Fault(MANY_QUADLETS));
    }
    match quads.extend_from_slice(&more) {
        Ok(()) => Ok(()),
        Err(_) => Err(LineError::NoMemory),
    }
}

/// The quadlets of bytes, as many as are whole.
#[tactic(auto, unfolding(crate::specs::RomListing::quads_of))]
fn quads_of(alloc: Global, bytes: &[u8]) -> Result<Vec<u32>, NoMemory>
    ensures { IfOk result (λ quads. quads.items ≡ quads_of bytes.now) }
{
    let mut quads = Vec::new(alloc);
    let count = bytes.len() / 4;
    for place in 0..count {
        quads.push(quad_at(bytes, 4 * place))?;
    }
    Ok(quads)
}
