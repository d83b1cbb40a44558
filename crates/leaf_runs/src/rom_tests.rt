use config_rom::{Block, RomFault, RomPlan, SbpUnit, make, parse, sbp_unit, sum16};
use std::alloc::Global;

/// A ROM of four bus quadlets, a root directory with one leaf, and the leaf.
const SMALL: [u32; 9] = [
    0x0400_0000,
    0x3133_3934,
    0,
    0x0200_0000,
    0x10,
    0x0001_bbad,
    0x8100_0001,
    0x0001_1021,
    1,
];

/// Whether the sum of one quadlet with its last bit alone is P_0, and that of no quadlets is 0.
fn has_known_sums() -> bool {
    sum16(&[1]) == 0x1021
        && sum16(&[2]) == 0x2042
        && sum16(&[0x10]) == 0x1231
        && sum16(&[0x8100_0001]) == 0xbbad
        && sum16(&[]) == 0
}

/// The blocks of the small ROM.
const SMALL_BLOCKS: [Block; 2] = [
    Block {
        at: 5,
        length: 1,
        is_directory: true,
        sum_is_right: true,
    },
    Block {
        at: 7,
        length: 1,
        is_directory: false,
        sum_is_right: true,
    },
];

/// The small ROM with a wrong sum of its leaf.
const WRONG: [u32; 9] = [
    0x0400_0000,
    0x3133_3934,
    0,
    0x0200_0000,
    0x10,
    0x0001_bbad,
    0x8100_0001,
    0x0001_0000,
    1,
];

/// Its blocks.
const WRONG_BLOCKS: [Block; 2] = [
    Block {
        at: 5,
        length: 1,
        is_directory: true,
        sum_is_right: true,
    },
    Block {
        at: 7,
        length: 1,
        is_directory: false,
        sum_is_right: false,
    },
];

/// Three entries name one position, two of them as a leaf.
const SHARED: [u32; 10] = [
    0x0400_0000,
    0x3133_3934,
    0,
    0,
    0,
    0x0003_0000,
    0x8100_0003,
    0xc100_0002,
    0x8100_0001,
    0,
];

/// It is read as a directory and then as a leaf, each once.
const SHARED_BLOCKS: [Block; 3] = [
    Block {
        at: 5,
        length: 3,
        is_directory: true,
        sum_is_right: false,
    },
    Block {
        at: 9,
        length: 0,
        is_directory: true,
        sum_is_right: true,
    },
    Block {
        at: 9,
        length: 0,
        is_directory: false,
        sum_is_right: true,
    },
];

/// A leaf whose header is an entry of the root directory.
const INSIDE: [u32; 9] = [
    0x0400_0000,
    0x3133_3934,
    0,
    0,
    0,
    0x0003_0000,
    0x8100_0001,
    0x0001_0000,
    0,
];

/// Each is read as its quadlets stand.
const INSIDE_BLOCKS: [Block; 2] = [
    Block {
        at: 5,
        length: 3,
        is_directory: true,
        sum_is_right: false,
    },
    Block {
        at: 7,
        length: 1,
        is_directory: false,
        sum_is_right: true,
    },
];

/// Whether quadlets are read so, and have no unit.
fn is_read(alloc: Global, quads: &[u32], blocks: &[Block], entries: usize) -> bool {
    if quads.len() > 256 {
        return false;
    }
    match parse(alloc, quads) {
        Ok(rom) => {
            rom.blocks() == blocks && rom.entries().len() == entries && sbp_unit(&rom).is_none()
        }
        Err(_) => false,
    }
}

/// ROMs without a unit.
fn are_read(alloc: Global) -> bool {
    is_read(alloc, &SMALL, &SMALL_BLOCKS, 1)
        && is_read(alloc, &WRONG, &WRONG_BLOCKS, 1)
        && is_read(alloc, &SHARED, &SHARED_BLOCKS, 3)
        && is_read(alloc, &INSIDE, &INSIDE_BLOCKS, 3)
}

/// The blocks of the ROM of a target with three units.
const MADE_BLOCKS: [Block; 2] = [
    Block {
        at: 5,
        length: 3,
        is_directory: true,
        sum_is_right: true,
    },
    Block {
        at: 9,
        length: 9,
        is_directory: true,
        sum_is_right: true,
    },
];

/// What is told of its unit.
const MADE_UNIT: SbpUnit = SbpUnit {
    management: 16384,
    orb_quads: 8,
    timeout: 4,
    units: 3,
    first_type: 14,
};

/// Whether the ROM of a target with three units is read again.
fn made_rom_parses(alloc: Global) -> Option<bool> {
    let plan = RomPlan {
        eui: 0x0200_0000_0000_0010,
        units: 3,
    };
    let words = make(alloc, &plan).ok()?;
    if words.as_slice().len() != 19 {
        return None;
    }
    let rom = parse(alloc, words.as_slice()).ok()?;
    let is_so = rom.eui() == 0x0200_0000_0000_0010
        && rom.bus_sum_is_right()
        && rom.blocks() == MADE_BLOCKS.as_slice()
        && sbp_unit(&rom) == Some(MADE_UNIT);
    Some(is_so)
}

/// Two links that name blocks outside, and an entry that names itself: it is told before those behind
/// the end.
const VOID: [u32; 11] = [
    0x0400_0000,
    0x3133_3934,
    0,
    0,
    0,
    0x0002_0000,
    0xc1ff_ffff,
    0xc100_0001,
    0x0001_0000,
    0xc100_0000,
    0,
];

/// The small ROM with two quadlets that are others, and the fault of that.
const FAULTS: [(usize, u32, usize, u32, RomFault); 4] = [
    (1, 0, 1, 0, RomFault::Name),
    (6, 0xd100_0000, 6, 0xd100_0000, RomFault::Entry { at: 6 }),
    (
        6,
        0xd1ff_ffff,
        6,
        0xd1ff_ffff,
        RomFault::Outside { at: 65535 },
    ),
    (6, 0xd1ff_ffff, 5, 0x0004_0000, RomFault::Outside { at: 5 }),
];

/// The fault of some quadlets.
fn fault_of(alloc: Global, quads: &[u32]) -> Option<RomFault> {
    if quads.len() > 256 {
        return None;
    }
    parse(alloc, quads).err()
}

/// Each fault once, and a fault inside told before one behind the end.
fn has_first_faults(alloc: Global) -> bool {
    for (at, quad, also_at, also, fault) in &FAULTS {
        let mut quads = SMALL;
        if *at < 9 && *also_at < 9 {
            quads[*at] = *quad;
            quads[*also_at] = *also;
        }
        if fault_of(alloc, &quads) != Some(*fault) {
            return false;
        }
    }
    fault_of(alloc, &SMALL[..0]) == Some(RomFault::Short { need: 6 })
        && fault_of(alloc, &SMALL[..5]) == Some(RomFault::Short { need: 6 })
        && fault_of(alloc, &VOID) == Some(RomFault::Entry { at: 9 })
}

/// Whether a root directory that fills 256 quadlets has all its entries.
fn has_largest(alloc: Global) -> Option<bool> {
    let mut quads = [0u32; 256];
    quads[0] = 0x0400_0000;
    quads[1] = 0x3133_3934;
    quads[5] = 0x00fa_0000;
    let rom = parse(alloc, &quads).ok()?;
    Some(rom.blocks().len() == 1 && rom.entries().len() == 250)
}

/// Sums, ROMs that are read and made, and ROMs that are refused.
#[test]
fn roms(rt: HostRuntime) {
    assert!(rt; has_known_sums());
    assert!(rt; are_read(rt.alloc()));
    assert!(rt; made_rom_parses(rt.alloc()) == Some(true));
    assert!(rt; has_first_faults(rt.alloc()));
    assert!(rt; has_largest(rt.alloc()) == Some(true));
}
