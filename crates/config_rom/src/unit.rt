ghost use Rattle.std.specs.Prelude.{◌≡◌, ◌<◌, length, take, drop, count_by};
ghost use Rattle.std.specs.List.{All, list_any};
ghost use Rattle.config_rom.specs.Unit.{sbp_unit_of, root_entries, directories, first_unit, is_unit, is_sbp, first_value, unit_of, has_key, has_value, names_unit};

use crate::block::{Block, Entry};
use crate::rom::Rom;

/// What the unit directory of an SBP-2 target tells (SBP-2, "Configuration ROM").
#[derive(Clone, Copy, Debug, PartialEq, Eq)]
pub struct SbpUnit {
    /// The distance of the management agent from FFFFF0000000, in quadlets.
    pub management: u32,
    /// The size of an ORB, in quadlets.
    pub orb_quads: u8,
    /// The time-out, in units of 500 ms.
    pub timeout: u8,
    /// The number of logical units.
    pub units: u8,
    /// The device type of the first logical unit.
    pub first_type: u8,
}

/// The SBP-2 unit of a ROM: of the first directory, by position, that an entry of the root directory
/// names as a unit and whose entries are those of SBP-2; `None` exactly where there is none.
#[tactic(auto, unfolding(crate::specs::Unit::sbp_unit_of))]
pub fn sbp_unit(rom: &Rom) -> Option<SbpUnit>
    ensures { result ≡ sbp_unit_of rom.now.blocks rom.now.entries }
{
    let root = root_entries(&rom.blocks, &rom.entries);
    first_unit(root, &rom.blocks, &rom.entries)
}

/// The entries of the root directory, which is the first block.
fn root_entries<'a>(blocks: &[Block], entries: &'a [Entry]) -> &'a [Entry]
    ensures { result.now ≡ root_entries blocks.now entries.now }
{
    if blocks.is_empty() {
        return &entries[..0];
    }
    split(entries, blocks[0].length).0
}

/// The first `count` entries, and those behind them.
fn split(entries: &[Entry], count: u16) -> (&[Entry], &[Entry])
    ensures front { result.0.now ≡ take count entries.now }
    ensures rest { result.1.now ≡ drop count entries.now }
{
    let middle = usize::from(count).min(entries.len());
    (&entries[..middle], &entries[middle..])
}

/// The first SBP-2 unit among the directories, whose entries stand one behind the other.
fn first_unit(root: &[Entry], blocks: &[Block], entries: &[Entry]) -> Option<SbpUnit>
    requires { All (λ block. block.length < 256) blocks.now }
    ensures { result ≡ first_unit root.now (directories blocks.now entries.now) }
{
    let mut rest = entries;
    for block in blocks {
        if block.is_directory {
            let (own, after) = split(rest, block.length);
            if is_unit(root, block.at, own) {
                return Some(unit_of(own));
            }
            rest = after;
        }
    }
    None
}

/// Whether the root directory names the directory at a position as a unit, and it is one of SBP-2.
fn is_unit(root: &[Entry], at: u16, entries: &[Entry]) -> bool
    ensures { result ≡ is_unit root.now (record { at = at; entries = entries.now }) }
{
    has_unit_name(root, at) && is_sbp(entries)
}

/// Whether an entry names the directory at a position as a unit.
fn has_unit_name(root: &[Entry], at: u16) -> bool
    ensures { result ≡ list_any (names_unit at) root.now }
{
    root.iter()
        .any(|entry| entry.names(at, true) && entry.key == 0x11)
}

/// Whether the entries are those of an SBP-2 unit.
fn is_sbp(entries: &[Entry]) -> bool
    ensures { result ≡ is_sbp entries.now }
{
    has_value(entries, 0x12, 0x00_609e)
        && has_value(entries, 0x13, 0x01_0483)
        && has_key(entries, 0x54)
        && has_key(entries, 0x14)
}

/// Whether an entry has this key byte.
fn has_key(entries: &[Entry], key: u8) -> bool
    ensures { result ≡ list_any (has_key key) entries.now }
{
    entries.iter().any(|entry| entry.has_key(key))
}

/// Whether an entry has this key byte and this value.
fn has_value(entries: &[Entry], key: u8, value: u32) -> bool
    ensures { result ≡ list_any (has_value key value) entries.now }
{
    entries
        .iter()
        .any(|entry| entry.has_key(key) && entry.value == value)
}

/// The value of the first entry with this key byte, or else `default`.
fn first_value(entries: &[Entry], key: u8, default: u32) -> u32
    ensures { result ≡ first_value key default entries.now }
{
    for entry in entries {
        if entry.has_key(key) {
            return entry.value;
        }
    }
    default
}

/// The five numbers of a unit directory.
fn unit_of(entries: &[Entry]) -> SbpUnit
    requires { length entries.now < 256 }
    ensures { result ≡ unit_of entries.now }
{
    let sizes = first_value(entries, 0x3a, 8);
    let first = first_value(entries, 0x14, 0);
    SbpUnit {
        management: first_value(entries, 0x54, 0),
        orb_quads: (sizes & 0xff) as u8,
        timeout: (sizes >> 8 & 0xff) as u8,
        units: count_units(entries),
        first_type: (first >> 16 & 0x1f) as u8,
    }
}

/// The number of logical units.
fn count_units(entries: &[Entry]) -> u8
    requires { length entries.now < 256 }
    ensures { result ≡ count_by (has_key 0x14) entries.now }
{
    entries.iter().filter(|entry| entry.has_key(0x14)).count() as u8
}
