ghost use Rattle.std.specs.Prelude.{◌≡◌, ◌≢◌, ℕ, List, ◌≤◌, ◌+◌, ◌++◌, ◌∷◌, [], codes, length, Some, OnOk};
ghost use Rattle.std.specs.List.{flat_map};
ghost use Rattle.config_rom.specs.Tree.{RomTree, FirstFault};
ghost use Rattle.config_rom.specs.declared.block.Block.{Block};
ghost use Rattle.config_rom.specs.declared.block.Entry.{Entry};
ghost use Rattle.config_rom.specs.declared.fault.RomFault.{RomFault};
ghost use Rattle.line_text.specs.Fields.{Field, word, rest_of_line};
ghost use Rattle.rom_listing.specs.RomListing.{hexadecimal, quadlet, sum_name, block_name, kind_name, count_line, bus_line, block_line, entry_line, quad_line, quad_lines, unit_line, own_lines, entries_behind, block_lines, tree_lines, rom_tree, rom_fault_line, rom_listing};

use byteorder::{BigEndian, ByteOrder};
use config_rom::{Block, Entry, EntryKind, Rom, RomFault, SbpUnit, parse, sbp_unit};
use line_text::{end_line, push_digits, push_name, push_number};
use sbp_base::{Bytes, NoMemory};
use std::alloc::Global;

/// The listing of quadlets is that of the blocks and entries of their configuration ROM (IEEE 1212),
/// which is one, or that of their first fault.
pub fn rom_tree_is_listed()
    ensures tree { (quads : List ℕ) (blocks : List Block) (entries : List Entry) → RomTree quads blocks entries → rom_listing quads ≡ tree_lines quads (rom_tree quads blocks entries) }
    ensures fault { (quads : List ℕ) (fault : RomFault) → FirstFault quads fault → rom_listing quads ≡ rom_fault_line fault }
{}

/// Adds the listing of quadlets as one configuration ROM, or its fault.
pub(crate) fn push_listing(alloc: Global, quads: &[u32], out: &mut Bytes) -> Result<(), NoMemory>
    requires { length quads.now ≤ 256 }
    ensures { OnOk result (out.new ≡ out.old ++ rom_listing quads.now) }
{
    match parse(alloc, quads) {
        Ok(rom) => push_tree(quads, &rom, out),
        Err(fault) => push_fault(fault, out),
    }
}

/// Adds `fault C NAME AT`: the number of a fault, its name and its position.
fn push_fault(fault: RomFault, out: &mut Bytes) -> Result<(), NoMemory>
    ensures line { OnOk result (out.new ≡ out.old ++ rom_fault_line fault) }
    ensures memory { OnOk result (fault ≢ RomFault.NoMemory) }
{
    match fault {
        RomFault::Short { need } => push_place(1, "Short", u64::from(need), out),
        RomFault::Name => push_named(2, "Name", out),
        RomFault::Entry { at } => push_place(3, "Entry", u64::from(at), out),
        RomFault::Outside { at } => push_place(4, "Outside", u64::from(at), out),
        RomFault::NoMemory => Err(NoMemory),
    }
}

/// Adds `fault C NAME`.
fn push_named(number: u64, name: &str, out: &mut Bytes) -> Result<(), NoMemory>
    ensures { OnOk result (out.new ≡ out.old ++ (codes "fault" ++ rest_of_line (Field.number number ∷ Field.name name.now ∷ []))) }
{
    out.extend_from_slice(b"fault")?;
    push_number(out, number)?;
    push_name(out, name)?;
    end_line(out)
}

/// Adds `fault C NAME AT`.
fn push_place(number: u64, name: &str, at: u64, out: &mut Bytes) -> Result<(), NoMemory>
    ensures { OnOk result (out.new ≡ out.old ++ (codes "fault" ++ rest_of_line (Field.number number ∷ Field.name name.now ∷ Field.number at ∷ []))) }
{
    out.extend_from_slice(b"fault")?;
    push_number(out, number)?;
    push_name(out, name)?;
    push_number(out, at)?;
    end_line(out)
}

/// Adds the listing of a ROM that was read.
fn push_tree(quads: &[u32], rom: &Rom, out: &mut Bytes) -> Result<(), NoMemory>
    requires { 6 ≤ length quads.now }
    ensures { OnOk result (out.new ≡ out.old ++ tree_lines quads.now rom.now) }
{
    push_count(quads, out)?;
    push_bus(quads, rom, out)?;
    push_blocks(quads, rom.blocks(), rom.entries(), out)?;
    push_unit(sbp_unit(rom), out)
}

/// Adds `rom Q`.
fn push_count(quads: &[u32], out: &mut Bytes) -> Result<(), NoMemory>
    ensures { OnOk result (out.new ≡ out.old ++ count_line quads.now) }
{
    out.extend_from_slice(b"rom")?;
    push_number(out, quads.len() as u64)?;
    end_line(out)
}

/// Adds `bus NAME CAPS EUI ok`.
fn push_bus(quads: &[u32], rom: &Rom, out: &mut Bytes) -> Result<(), NoMemory>
    requires { 6 ≤ length quads.now }
    ensures { OnOk result (out.new ≡ out.old ++ bus_line quads.now rom.now) }
{
    out.extend_from_slice(b"bus")?;
    push_quadlet(quads[1], out)?;
    push_quadlet(quads[2], out)?;
    push_eui(rom.eui(), out)?;
    push_name(out, sum_name(rom.bus_sum_is_right()))?;
    end_line(out)
}

/// Adds a quadlet as 8 digits.
fn push_quadlet(value: u32, out: &mut Bytes) -> Result<(), NoMemory>
    ensures { OnOk result (out.new ≡ out.old ++ 32 ∷ word (quadlet value)) }
{
    let mut bytes = [0; 4];
    BigEndian::write_u32(&mut bytes, value);
    push_digits(out, &bytes)
}

/// Adds an EUI-64 as 16 digits.
fn push_eui(eui: u64, out: &mut Bytes) -> Result<(), NoMemory>
    ensures { OnOk result (out.new ≡ out.old ++ 32 ∷ word (hexadecimal 8 eui)) }
{
    let mut bytes = [0; 8];
    BigEndian::write_u64(&mut bytes, eui);
    push_digits(out, &bytes)
}

/// Whether a sum is right.
fn sum_name(is_right: bool) -> &'static str
    ensures { result.now ≡ sum_name is_right }
{
    if is_right { "ok" } else { "wrong" }
}

/// Adds the blocks, each with what it has. The entries of the directories stand one behind the other.
fn push_blocks(
    quads: &[u32],
    blocks: &[Block],
    entries: &[Entry],
    out: &mut Bytes,
) -> Result<(), NoMemory>
    ensures { OnOk result (out.new ≡ out.old ++ block_lines quads.now blocks.now entries.now) }
{
    let mut rest = entries;
    for block in blocks {
        push_block(block, out)?;
        push_own(quads, block, rest, out)?;
        rest = entries_behind(block, rest);
    }
    Ok(())
}

/// Adds `dir P L ok` or `leaf P L ok`.
fn push_block(block: &Block, out: &mut Bytes) -> Result<(), NoMemory>
    ensures { OnOk result (out.new ≡ out.old ++ block_line block.now) }
{
    out.extend_from_slice(block_name(block.is_directory).as_bytes())?;
    push_number(out, u64::from(block.at))?;
    push_number(out, u64::from(block.length))?;
    push_name(out, sum_name(block.sum_is_right))?;
    end_line(out)
}

/// Whether a block is a directory or a leaf.
fn block_name(is_directory: bool) -> &'static str
    ensures { result.now ≡ block_name is_directory }
{
    if is_directory { "dir" } else { "leaf" }
}

/// Adds the first entries as many as a directory has, or the quadlets of a leaf.
fn push_own(
    quads: &[u32],
    block: &Block,
    entries: &[Entry],
    out: &mut Bytes,
) -> Result<(), NoMemory>
    ensures { OnOk result (out.new ≡ out.old ++ own_lines quads.now block.now entries.now) }
{
    let count = usize::from(block.length);
    if block.is_directory {
        let end = count.min(entries.len());
        push_entries(&entries[..end], out)
    } else {
        let first = u32::from(block.at) + 1;
        let start = (first as usize).min(quads.len());
        let end = count.min(quads.len() - start);
        push_quads(first, &quads[start..start + end], out)
    }
}

/// The entries of the directories behind a block.
fn entries_behind<'a>(block: &Block, entries: &'a [Entry]) -> &'a [Entry]
    ensures { result.now ≡ entries_behind block.now entries.now }
{
    if block.is_directory {
        let end = usize::from(block.length).min(entries.len());
        &entries[end..]
    } else {
        entries
    }
}

/// Adds the lines of entries.
fn push_entries(entries: &[Entry], out: &mut Bytes) -> Result<(), NoMemory>
    ensures { OnOk result (out.new ≡ out.old ++ flat_map entry_line entries.now) }
{
    for entry in entries {
        push_entry(entry, out)?;
    }
    Ok(())
}

/// Adds `entry P KIND KEY VALUE`.
fn push_entry(entry: &Entry, out: &mut Bytes) -> Result<(), NoMemory>
    ensures { OnOk result (out.new ≡ out.old ++ entry_line entry.now) }
{
    out.extend_from_slice(b"entry")?;
    push_number(out, u64::from(entry.at))?;
    push_name(out, kind_name(entry.kind))?;
    push_digits(out, &[entry.key])?;
    push_value(entry.value, out)?;
    end_line(out)
}

/// The type of an entry.
fn kind_name(kind: EntryKind) -> &'static str
    ensures { result.now ≡ kind_name kind }
{
    match kind {
        EntryKind::Immediate => "imm",
        EntryKind::Csr => "csr",
        EntryKind::Leaf => "leaf",
        EntryKind::Directory => "dir",
    }
}

/// Adds the value of an entry, of 24 bits, as 6 digits.
fn push_value(value: u32, out: &mut Bytes) -> Result<(), NoMemory>
    ensures { OnOk result (out.new ≡ out.old ++ 32 ∷ word (hexadecimal 3 value)) }
{
    let mut bytes = [0; 4];
    BigEndian::write_u32(&mut bytes, value);
    push_digits(out, &bytes[1..])
}

/// Adds the lines of quadlets that stand from position `first` on.
fn push_quads(first: u32, quads: &[u32], out: &mut Bytes) -> Result<(), NoMemory>
    requires { first + length quads.now ≤ 131072 }
    ensures { OnOk result (out.new ≡ out.old ++ quad_lines first quads.now) }
{
    let mut at = first;
    for quad in quads {
        push_quad(at, *quad, out)?;
        at += 1;
    }
    Ok(())
}

/// Adds `quad P XXXXXXXX`.
fn push_quad(at: u32, value: u32, out: &mut Bytes) -> Result<(), NoMemory>
    ensures { OnOk result (out.new ≡ out.old ++ quad_line at value) }
{
    out.extend_from_slice(b"quad")?;
    push_number(out, u64::from(at))?;
    push_quadlet(value, out)?;
    end_line(out)
}

/// Adds `unit M O T U D`, or `no unit`.
fn push_unit(unit: Option<SbpUnit>, out: &mut Bytes) -> Result<(), NoMemory>
    ensures { OnOk result (out.new ≡ out.old ++ unit_line unit) }
{
    match unit {
        None => out.extend_from_slice(b"no unit\n"),
        Some(unit) => push_unit_fields(&unit, out),
    }
}

/// Adds `unit M O T U D`.
fn push_unit_fields(unit: &SbpUnit, out: &mut Bytes) -> Result<(), NoMemory>
    ensures { OnOk result (out.new ≡ out.old ++ unit_line (Some unit.now)) }
{
    out.extend_from_slice(b"unit")?;
    push_number(out, u64::from(unit.management))?;
    push_number(out, u64::from(unit.orb_quads))?;
    push_number(out, u64::from(unit.timeout))?;
    push_number(out, u64::from(unit.units))?;
    push_number(out, u64::from(unit.first_type))?;
    end_line(out)
}
