ghost use Rattle.std.specs.Prelude.{◌<◌};

use orb_layout::{OrbFault, StatusBlock, StatusKind, read_status};
use rbc_command::Sense;
use sbp_base::{Offset, quad_at};

const CHECK: [u8; 24] = [
    0x05, 0, 0, 0, 0x10, 0, 0, 0x40, 0x02, 0x05, 0x21, 0x00, 0, 0, 0, 0, 0, 0, 0, 0, 0, 0, 0, 0,
];

/// Whether a block of 8 bytes is written as these quadlets, and they are read as the block.
fn both_ways(block: StatusBlock, high: u32, low: u32) -> bool
    requires { block.src < 4 }
{
    let mut out = [0xaau8; 32];
    let len = block.write(&mut out);
    let management = matches!(block.kind, StatusKind::Management(_));
    len == 8
        && quad_at(&out, 0) == high
        && quad_at(&out, 4) == low
        && quad_at(&out, 8) == 0xaaaa_aaaa
        && read_status(&out[..8], management) == Ok(block)
        && read_status(&out[..8], !management) != Ok(block)
}

/// Each kind of 8 bytes of a command, with its first quadlet: good and illegal are the examples.
const OF_COMMANDS: [(StatusKind, u32); 9] = [
    (StatusKind::Good, 0x4100_0000),
    (StatusKind::Dummy, 0x410b_0000),
    (StatusKind::Aborted, 0x410c_0000),
    (StatusKind::Failed, 0x59ff_0000),
    (StatusKind::Illegal(0x01), 0x6901_0000),
    (StatusKind::Illegal(0x02), 0x6902_0000),
    (StatusKind::Illegal(0x03), 0x6903_0000),
    (StatusKind::Illegal(0x06), 0x6906_0000),
    (StatusKind::Illegal(0xff), 0x69ff_0000),
];

/// Each meaning of a management function, with its first quadlet.
const OF_FUNCTIONS: [(StatusKind, u32); 7] = [
    (StatusKind::Management(0x00), 0x0100_ffff),
    (StatusKind::Management(0x01), 0x0101_ffff),
    (StatusKind::Management(0x04), 0x0104_ffff),
    (StatusKind::Management(0x05), 0x0105_ffff),
    (StatusKind::Management(0x08), 0x0108_ffff),
    (StatusKind::Management(0x09), 0x0109_ffff),
    (StatusKind::Management(0x0a), 0x010a_ffff),
];

/// Whether blocks of these kinds are written and read so.
fn all_both_ways(src: u8, orb: Offset, low: u32, cases: &[(StatusKind, u32)]) -> bool
    requires { src < 4 }
{
    for (kind, high) in cases {
        let block = StatusBlock {
            src,
            kind: *kind,
            orb,
        };
        if !both_ways(block, *high, low) {
            return false;
        }
    }
    true
}

/// Each kind of 8 bytes, with each meaning that it may have.
fn short_blocks() -> Option<bool> {
    let orb = Offset::new(0x1000_0000)?;
    let last = Offset::new(0xffff_0000_0008)?;
    let is_so = all_both_ways(1, orb, 0x1000_0000, &OF_COMMANDS)
        && all_both_ways(0, last, 8, &OF_FUNCTIONS);
    Some(is_so)
}

/// A check condition of 24 bytes, and its bytes cut short.
fn check_condition() -> Option<bool> {
    let block = StatusBlock {
        src: 0,
        kind: StatusKind::Check(Sense::OUTSIDE),
        orb: Offset::new(0x1000_0040)?,
    };
    let mut out = [0u8; 32];
    let is_so = block.write(&mut out) == 24
        && out[..24] == CHECK[..]
        && StatusBlock::read(&CHECK) == Ok(block)
        && StatusBlock::read(&CHECK[..20]) == Err(OrbFault::Length { need: 24 });
    Some(is_so)
}

/// Whether no row reads the bytes of a block.
fn has_no_row(bytes: &[u8], management: bool) -> bool {
    read_status(bytes, management) == Err(OrbFault::Form)
}

/// Check parts that no row reads.
fn other_checks() -> bool {
    let mut other = CHECK;
    other[9] = 0x10;
    let mut behind = CHECK;
    behind[23] = 1;
    StatusBlock::read(&other) == Err(OrbFault::Form)
        && StatusBlock::read(&behind) == Err(OrbFault::Form)
}

/// The first byte and the sbp_status of blocks of 8 bytes that no row reads, and whether a management
/// function had them: another src, len, resp, dead or meaning.
const ROWLESS: [(u8, u8, bool); 8] = [
    (0xc1, 0x00, false),
    (0x40, 0x00, false),
    (0x59, 0x0b, false),
    (0x51, 0xff, false),
    (0x69, 0x04, false),
    (0x41, 0x01, false),
    (0x41, 0x01, true),
    (0x01, 0x06, true),
];

/// Whether no row reads any of these.
fn no_row_reads() -> bool {
    for (first, status, management) in &ROWLESS {
        if !has_no_row(&[*first, *status, 0, 0, 0x10, 0, 0, 0], *management) {
            return false;
        }
    }
    true
}

/// Other lengths than the len's.
fn other_lengths() -> bool {
    StatusBlock::read(&[0x41; 9]) == Err(OrbFault::Form)
        && StatusBlock::read(&[0x41, 0, 0, 0]) == Err(OrbFault::Length { need: 8 })
        && read_status(&[0x42, 0, 0, 0, 0x10, 0, 0, 0], false) == Err(OrbFault::Length { need: 12 })
}

/// Blocks that are written and read, and blocks that no row reads.
#[test]
fn status_blocks(rt: HostRuntime) {
    assert!(rt; short_blocks() == Some(true));
    assert!(rt; check_condition() == Some(true));
    assert!(rt; other_checks());
    assert!(rt; no_row_reads());
    assert!(rt; other_lengths());
}
