ghost use Rattle.std.specs.Prelude.{◌≡◌, ◌<◌, IfOk};
ghost use Rattle.script_text.specs.Draws as spec;

use sbp_base::{Bytes, NoMemory};
use sbp_journal::{Action, Cmd, Event};
use script_words::{Form, addressed_block, bringing, sending};
use std::alloc::Global;

/// One line of a drill, and the state behind it.
#[derive(Drop)]
pub struct Turn {
    pub event: Event,
    pub state: u64,
}

/// The line that is drawn from a state: an initiator, whether it writes or reads, the block, and for
/// a write the byte.
#[tactic(auto, unfolding(crate::specs::Draws::turn))]
pub(crate) fn draw_turn(alloc: Global, state: u64) -> Result<Turn, NoMemory>
    ensures { IfOk result (λ drawn. drawn ≡ spec.turn state) }
{
    let first = next(state);
    let second = next(first);
    let third = next(second);
    let initiator = drawn(first, 2) as u8;
    let lba = drawn(third, 64) as u32;
    if drawn(second, 2) == 0 {
        let fourth = next(third);
        let cmd = block_write(alloc, lba, drawn(fourth, 256) as u8)?;
        Ok(appending(initiator, cmd, fourth))
    } else {
        Ok(appending(initiator, block_read(alloc, lba), third))
    }
}

fn appending(initiator: u8, cmd: Cmd, state: u64) -> Turn
    ensures { result ≡ spec.appending initiator cmd state }
{
    Turn {
        event: Event::Act {
            initiator,
            action: Action::Append(cmd),
        },
        state,
    }
}

/// The state after one more draw.
#[tactic(auto, unfolding(crate::specs::Draws::next))]
fn next(state: u64) -> u64
    ensures { result ≡ spec.next state }
{
    state
        .wrapping_mul(6364136223846793005)
        .wrapping_add(1442695040888963407)
}

/// The number that a draw gives, from the state after it.
#[tactic(auto, unfolding(crate::specs::Draws::drawn))]
fn drawn(state: u64, below: u64) -> u64
    requires { 0 < below }
    ensures value { result ≡ spec.drawn state below }
    ensures bound { result < below }
{
    (state >> 33) % below
}

/// A write of one block of equal bytes.
#[tactic(auto, unfolding(crate::specs::Draws::block_write))]
fn block_write(alloc: Global, lba: u32, byte: u8) -> Result<Cmd, NoMemory>
    ensures { IfOk result (λ cmd. cmd ≡ spec.block_write lba byte) }
{
    let bytes = Bytes::from_slice(alloc, &block_of(byte))?;
    Ok(sending(alloc, addressed_block(Form::Ten, 0x2a, lba, 1), bytes))
}

/// A block of equal bytes.
#[tactic(auto, unfolding(crate::specs::Draws::block_of))]
fn block_of(byte: u8) -> [u8; 512]
    ensures { result ≡ spec.block_of byte }
{
    [byte; 512]
}

/// A read of one block.
#[tactic(auto, unfolding(crate::specs::Draws::block_read))]
fn block_read(alloc: Global, lba: u32) -> Cmd
    ensures { result ≡ spec.block_read lba }
{
    bringing(alloc, addressed_block(Form::Ten, 0x28, lba, 1), 512)
}
