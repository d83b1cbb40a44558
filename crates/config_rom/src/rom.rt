ghost use Rattle.std.specs.Prelude.{◌≡◌, ◌<◌, ◌≤◌, ◌^◌, ◌+◌, length, Ok, Err, OnOk, IfOk, IfErr};
ghost use Rattle.config_rom.specs.Tree.{has_name, eui_of, bus_sum_is_right, root_of};

use crate::block::{Block, Entry};
use crate::sum::sum_at;
use std::alloc::Global;
use std::marker::Model;

/// A configuration ROM that was read.
#[derive(Drop)]
pub struct Rom {
    pub(crate) blocks: Vec<Block>,
    pub(crate) entries: Vec<Entry>,
    pub(crate) eui: u64,
    pub(crate) bus_sum_is_right: bool,
}

impl Model for Rom {
    ghost use Rattle.config_rom.specs.Reading.{Tree};
    ghost use Rattle.std.specs.Prelude.{◌<◌};
    ghost use Rattle.std.specs.List.{All};

    ghost Value = { Tree };

    ghost view = { λ rom. record { blocks = rom.blocks.items; entries = rom.entries.items; eui = rom.eui; bus_sum_is_right = rom.bus_sum_is_right } };

    ghost invariant = { λ rom. All (λ block. block.length < 256) rom.blocks.items };
}

impl Rom {
    ghost use Rattle.config_rom.specs.Reading.{fresh};

    /// What the bus information block tells, before the first block is read.
    pub(crate) fn fresh(alloc: Global, quads: &[u32]) -> Self
        requires { 6 ≤ length quads.now }
        ensures { result ≡ fresh quads.now }
    {
        Rom {
            blocks: Vec::new(alloc),
            entries: Vec::new(alloc),
            eui: (u64::from(quads[3]) << 32) + u64::from(quads[4]),
            bus_sum_is_right: bus_sum_is_right(quads),
        }
    }

    /// The directories and leaves by rising position, at one position the directory before the
    /// leaf; the first is the root directory.
    pub fn blocks(&self) -> &[Block]
        ensures { result.now ≡ self.now.blocks }
    {
        self.blocks.as_slice()
    }

    /// The entries of the directories, in the order of the directories.
    pub fn entries(&self) -> &[Entry]
        ensures { result.now ≡ self.now.entries }
    {
        self.entries.as_slice()
    }

    /// The EUI-64 of the node.
    pub fn eui(&self) -> u64
        ensures { result ≡ self.now.eui }
    {
        self.eui
    }

    /// Whether the sum of the first quadlet is right; one that runs past the end is not.
    pub fn bus_sum_is_right(&self) -> bool
        ensures { result ≡ self.now.bus_sum_is_right }
    {
        self.bus_sum_is_right
    }
}

/// Whether the sum of the first quadlet is that of the quadlets that it covers.
fn bus_sum_is_right(quads: &[u32]) -> bool
    requires { 6 ≤ length quads.now }
    ensures { result ≡ bus_sum_is_right quads.now }
{
    let covered = (quads[0] >> 16 & 0xff) as usize;
    covered < quads.len() && u32::from(sum_at(quads, 1, covered)) == quads[0] & 0xffff
}
