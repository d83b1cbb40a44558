ghost use Rattle.std.specs.Prelude.{◌≡◌, ℕ, ◌<◌, ◌≤◌, ◌^◌, List, Ok, true};
ghost use Rattle.config_rom.specs.Tree.{RomTree, FirstFault};
ghost use Rattle.config_rom.specs.Reading.{reading, ReadsRom};
ghost use Rattle.config_rom.specs.Make.{made, made_blocks, made_entries, made_unit};
ghost use Rattle.config_rom.specs.Unit.{sbp_unit_of, unit_in};
ghost use Rattle.config_rom.specs.declared.block.Block.{Block};
ghost use Rattle.config_rom.specs.declared.block.Entry.{Entry};
ghost use Rattle.config_rom.specs.declared.fault.RomFault.{RomFault};

/// Quadlets have at most one configuration ROM and at most one first fault, and never both.
pub fn one_outcome()
    ensures tree { (quads : List ℕ) (blocks others : List Block) (entries rest : List Entry) → RomTree quads blocks entries → RomTree quads others rest → (blocks ≡ others) × (entries ≡ rest) }
    ensures fault { (quads : List ℕ) (first second : RomFault) → FirstFault quads first → FirstFault quads second → first ≡ second }
    ensures either { (quads : List ℕ) (blocks : List Block) (entries : List Entry) (fault : RomFault) → RomTree quads blocks entries → FirstFault quads fault → ⊥ }
{}

/// The law that quadlets have a configuration ROM or a first fault, whatever they are, and that
/// `reading`, by which a ROM is listed, gives exactly that.
pub fn reads_rom()
    ensures { ReadsRom }
{}

/// The configuration ROM that is made is read as it was planned: its blocks and their sums, its
/// entries, its EUI-64 and its unit.
pub fn plan_read_again()
    ensures tree { (eui units : ℕ) → eui < 2 ^ 64 → units ≤ 4 → RomTree (made eui units) (made_blocks units) (made_entries eui units) }
    ensures read { (eui units : ℕ) → eui < 2 ^ 64 → units ≤ 4 → reading (made eui units) ≡ Ok (record { blocks = made_blocks units; entries = made_entries eui units; eui = eui; bus_sum_is_right = true }) }
    ensures unit { (eui units : ℕ) → units ≤ 4 → sbp_unit_of (made_blocks units) (made_entries eui units) ≡ made_unit units }
{}

/// The unit of a configuration ROM is that of the first directory, by position, that an entry of the
/// root directory names as a unit and that has the entries of SBP-2.
pub fn first_unit_found()
    ensures { (quads : List ℕ) (blocks : List Block) (entries : List Entry) → RomTree quads blocks entries → sbp_unit_of blocks entries ≡ unit_in quads blocks }
{}
