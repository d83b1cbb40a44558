ghost use Rattle.std.specs.Prelude.{◌≡◌, ◌<◌, ◌≤◌, ◌+◌, ◌-◌, ◌++◌, length, None, Some, Ok, OnOk, IfOk, IfErr, ◌⊎◌};
ghost use Rattle.std.specs.List.{list_any};
ghost use Rattle.config_rom.specs.Tree.{RomTree, FirstFault, eui_of, bus_sum_is_right, block_at, block_fault, root_of, entries_from, first_void, outside, length_at, names};
ghost use Rattle.config_rom.specs.Reading.{Tells, reading, checked_root, blocks_from, turn, add_block, is_named, lowest_beyond, beyond, nearer, with_block};

use crate::block::{Block, Entry};
use crate::fault::RomFault;
use crate::rom::Rom;
use crate::sum::sum_at;
use std::alloc::Global;

/// The name of the bus, "1394".
const NAME: u32 = 0x31333934;

/// The fewest quadlets of a configuration ROM: the bus information block and a root header.
const FEWEST: usize = 6;

/// Reads a configuration ROM (IEEE 1212). Its blocks are the root directory and each directory or
/// leaf that an entry of a read directory names. A wrong sum is told and refuses nothing.
///
/// # Errors
///
/// The first fault in the order of reading: `Short`, then `Name`, then those of the blocks by
/// rising position, of each first `Outside` and then, of a directory, `Entry`; or `NoMemory`.
#[tactic(auto, using(crate::proofs::Heads::parse_laws))]
pub fn parse(alloc: Global, quads: &[u32]) -> Result<Rom, RomFault>
    requires { length quads.now ≤ 256 }
    // What is read is the configuration ROM of the quadlets.
    ensures tree { IfOk result (λ rom. RomTree quads.now rom.blocks rom.entries) }
    ensures head { IfOk result (λ rom. (rom.eui ≡ eui_of quads.now) × (rom.bus_sum_is_right ≡ bus_sum_is_right quads.now)) }
    // Which fault it is.
    ensures fault { IfErr result (λ fault. (fault ≡ RomFault.NoMemory) ⊎ FirstFault quads.now fault) }
    // The same by the function that reads turn by turn.
    ensures read { IfOk result (λ rom. reading quads.now ≡ Ok rom) }
    ensures told { IfErr result (λ fault. Tells fault (reading quads.now)) }
{
    read_turns(alloc, quads)
}

/// Reads a configuration ROM turn by turn.
#[tactic(auto, unfolding(crate::specs::Reading::reading))]
fn read_turns(alloc: Global, quads: &[u32]) -> Result<Rom, RomFault>
    requires { length quads.now ≤ 256 }
    ensures ok { IfOk result (λ rom. reading quads.now ≡ Ok rom) }
    ensures err { IfErr result (λ fault. Tells fault (reading quads.now)) }
{
    let root = checked_root(quads)?;
    let mut rom = Rom::fresh(alloc, quads);
    rom.read_blocks(quads, root)?;
    if let Some(at) = lowest_beyond(&rom.entries, quads.len()) {
        return Err(outside(at));
    }
    Ok(rom)
}

/// The position of the root directory's header.
fn checked_root(quads: &[u32]) -> Result<u16, RomFault>
    ensures checked { result ≡ checked_root quads.now }
    ensures long { OnOk result (6 ≤ length quads.now) }
    ensures near { IfOk result (λ root. root ≤ 256) }
{
    if quads.len() < FEWEST {
        return Err(RomFault::Short { need: 6 });
    }
    let info_length = (quads[0] >> 24) as u16;
    if info_length < 4 || quads[1] != NAME {
        return Err(RomFault::Name);
    }
    Ok(1 + info_length)
}

/// The fault of a header that stands outside.
fn outside(at: u64) -> RomFault
    ensures { result ≡ outside at }
{
    RomFault::Outside {
        at: at.min(65535) as u16,
    }
}

impl Rom {
    /// Reads all blocks from the root directory on, each in its turn.
    #[tactic(auto, using(crate::proofs::Steps::turn_steps), unfolding(crate::specs::Reading::blocks_from))]
    fn read_blocks(&mut self, quads: &[u32], root: u16) -> Result<(), RomFault>
        requires few { length quads.now ≤ 256 }
        requires root { root ≡ root_of quads.now }
        ensures ok { OnOk result (blocks_from quads.now root self.old ≡ Ok self.new) }
        ensures err { IfErr result (λ fault. Tells fault (blocks_from quads.now root self.old)) }
    {
        let end = quads.len() as u16;
        if end <= root {
            return Err(outside(u64::from(root)));
        }
        for at in root..end {
            self.turn(quads, root, at, true)?;
            self.turn(quads, root, at, false)?;
        }
        Ok(())
    }

    /// Reads the directory, or else the leaf, whose header stands at a position, if it is the root
    /// directory or an entry read so far names it.
    #[tactic(auto, unfolding(crate::specs::Reading::turn))]
    fn turn(
        &mut self,
        quads: &[u32],
        root: u16,
        at: u16,
        is_directory: bool,
    ) -> Result<(), RomFault>
        requires few { length quads.now ≤ 256 }
        requires root { root ≡ root_of quads.now }
        requires inside { at < length quads.now }
        ensures ok { OnOk result (turn quads.now at is_directory self.old ≡ Ok self.new) }
        ensures err { IfErr result (λ fault. Tells fault (turn quads.now at is_directory self.old)) }
    {
        let is_root = at == root && is_directory;
        if is_root || is_any_name(&self.entries, at, is_directory) {
            self.add_block(quads, at, is_directory)
        } else {
            Ok(())
        }
    }

    /// Adds the block whose header stands at a position, and its entries.
    #[tactic(auto, unfolding(crate::specs::Tree::block_fault, crate::specs::Tree::block_at))]
    fn add_block(&mut self, quads: &[u32], at: u16, is_directory: bool) -> Result<(), RomFault>
        requires few { length quads.now ≤ 256 }
        requires inside { at < length quads.now }
        ensures ok { OnOk result (add_block quads.now at is_directory (block_fault quads.now at is_directory) self.old ≡ Ok self.new) }
        ensures err { IfErr result (λ fault. Tells fault (add_block quads.now at is_directory (block_fault quads.now at is_directory) self.old)) }
    {
        let length = (quads[usize::from(at)] >> 16) as u16;
        if quads.len() <= usize::from(at) + usize::from(length) {
            return Err(RomFault::Outside { at });
        }
        let block = block_of(quads, at, is_directory);
        if is_directory {
            push_entries(&mut self.entries, quads, at, length)?;
        }
        self.blocks.push(block)?;
        Ok(())
    }
}

/// Whether one of the entries names the directory, or else the leaf, at a position.
fn is_any_name(entries: &[Entry], at: u16, is_directory: bool) -> bool
    ensures { result ≡ list_any (names at is_directory) entries.now }
{
    entries.iter().any(|entry| entry.names(at, is_directory))
}

/// The directory or leaf whose header stands at a position.
#[tactic(auto, unfolding(crate::specs::Tree::block_at))]
fn block_of(quads: &[u32], at: u16, is_directory: bool) -> Block
    requires { at + length_at quads.now at < length quads.now }
    ensures { result ≡ block_at quads.now at is_directory }
{
    let header = quads[usize::from(at)];
    let length = (header >> 16) as u16;
    let sum = sum_at(quads, usize::from(at) + 1, usize::from(length));
    Block {
        at,
        length,
        is_directory,
        sum_is_right: u32::from(sum) == header & 0xffff,
    }
}

/// Adds the entries of the directory whose header stands at a position.
fn push_entries(
    entries: &mut Vec<Entry>,
    quads: &[u32],
    at: u16,
    count: u16,
) -> Result<(), RomFault>
    requires few { length quads.now ≤ 256 }
    requires inside { at + count < length quads.now }
    ensures added { OnOk result (entries.new.items ≡ entries.old.items ++ entries_from quads.now (at + 1) count) }
    ensures sound { OnOk result (first_void (entries_from quads.now (at + 1) count) ≡ None) }
    ensures err { IfErr result (λ fault. (fault ≡ RomFault.NoMemory) ⊎ (first_void (entries_from quads.now (at + 1) count) ≡ Some fault)) }
{
    for place in at + 1..at + 1 + count {
        let entry = Entry::read(quads, place);
        if entry.is_void() {
            return Err(RomFault::Entry { at: place });
        }
        entries.push(entry)?;
    }
    Ok(())
}

/// The lowest header at `end` or behind it that one of the entries names.
#[tactic(auto, using(crate::proofs::Steps::lowest_steps))]
fn lowest_beyond(entries: &[Entry], end: usize) -> Option<u64>
    ensures { result ≡ lowest_beyond end entries.now }
{
    let mut lowest = None;
    for entry in entries {
        lowest = nearer(lowest, beyond(entry, end));
    }
    lowest
}

/// The header that an entry names, where it stands at `end` or behind it.
fn beyond(entry: &Entry, end: usize) -> Option<u64>
    ensures { result ≡ beyond end entry.now }
{
    if entry.is_link() && end as u64 <= entry.target() {
        Some(entry.target())
    } else {
        None
    }
}

/// The lower of two positions.
fn nearer(first: Option<u64>, second: Option<u64>) -> Option<u64>
    ensures { result ≡ nearer first second }
{
    match (first, second) {
        (None, second) => second,
        (Some(first), None) => Some(first),
        (Some(first), Some(second)) => Some(first.min(second)),
    }
}
