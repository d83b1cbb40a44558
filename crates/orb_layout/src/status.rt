ghost use Rattle.std.specs.Prelude.{◌≡◌, ◌≤◌, ◌<◌, ◌+◌, ◌*◌, ◌^◌, ◌++◌, ◌&&◌, Some, None, if◌then◌else◌, length, drop, true, false};
ghost use Rattle.orb_layout.specs.StatusBlocks.{read_block, has, is_check_part, sense_of, is_among, illegal_meanings, management_meanings, management_kind, command_kind, kind_of, src_of, len_of, sbp_status_of, whole_length, row_of, status_head, status_bytes, check_quads, sense_head};
ghost use Rattle.orb_layout.specs.Pointers.{quad_bytes};

use crate::fault::OrbFault;
use crate::fields::{byte, put_quads};
use crate::pointer::{high_half, low_half, offset};
use rbc_command::Sense;
use sbp_base::{Offset, quad_at};

/// What the target tells of an ORB (NCITS 325-1998, status block).
#[derive(Clone, Copy, Debug, PartialEq, Eq)]
pub struct StatusBlock {
    /// Where the status comes from, 2 bits: 0 and 1 tell of an ORB.
    pub src: u8,
    pub kind: StatusKind,
    /// The ORB that it names.
    pub orb: Offset,
}

/// How an ORB ended.
#[derive(Clone, Copy, Debug, PartialEq, Eq)]
pub enum StatusKind {
    Good,
    /// A check condition.
    Check(Sense),
    /// A dummy ORB was completed.
    Dummy,
    Aborted,
    /// The request was refused, with this meaning.
    Illegal(u8),
    /// A transport failure.
    Failed,
    /// A management operation ended, with this meaning.
    Management(u8),
}

impl StatusBlock {
    /// Reads a status block that names an ORB that is none of management.
    pub fn read(bytes: &[u8]) -> Result<StatusBlock, OrbFault>
        ensures { result ≡ read_block false bytes.now }
    {
        read_status(bytes, false)
    }

    /// Writes the block over the first bytes, whose number it answers: 24 of a check condition, else
    /// 8. The other bytes stay.
    pub fn write(&self, out: &mut [u8]) -> usize
        requires room { 32 ≤ length out.old }
        requires fits { self.now.src < 2 ^ 2 }
        ensures written { out.new ≡ status_bytes self.now ++ drop (length (status_bytes self.now)) out.old }
        ensures count { result ≡ length (status_bytes self.now) }
    {
        put_quads(out, &[self.head(), low_half(self.orb)]);
        8 + self.kind.put_check(&mut out[8..])
    }

    /// Quadlet 0.
    fn head(&self) -> u32
        requires { self.now.src < 2 ^ 2 }
        ensures { result ≡ status_head self.now (row_of self.now.kind) }
    {
        let Row {
            resp,
            dead,
            len,
            status,
        } = self.kind.row();
        (u32::from(self.src) << 30)
            + (u32::from(resp) << 28)
            + (u32::from(dead) << 27)
            + (u32::from(len) << 24)
            + (byte(status) << 16)
            + high_half(self.orb)
    }
}

/// What a status block has in quadlet 0 by its kind.
struct Row {
    resp: u8,
    dead: u8,
    len: u8,
    status: u8,
}

impl Row {
    fn of(resp: u8, dead: u8, len: u8, status: u8) -> Row
        ensures { result ≡ record { resp = resp; dead = dead; len = len; status = status } }
    {
        Row {
            resp,
            dead,
            len,
            status,
        }
    }
}

impl StatusKind {
    /// The row of the kind.
    fn row(self) -> Row
        ensures row { result ≡ row_of self }
        ensures resp { result.resp < 2 ^ 2 }
        ensures dead { result.dead < 2 }
        ensures len { result.len < 2 ^ 3 }
    {
        match self {
            StatusKind::Good => Row::of(0, 0, 1, 0x00),
            StatusKind::Check(_) => Row::of(0, 0, 5, 0x00),
            StatusKind::Dummy => Row::of(0, 0, 1, 0x0b),
            StatusKind::Aborted => Row::of(0, 0, 1, 0x0c),
            StatusKind::Illegal(meaning) => Row::of(2, 1, 1, meaning),
            StatusKind::Failed => Row::of(1, 1, 1, 0xff),
            StatusKind::Management(meaning) => Row::of(0, 0, 1, meaning),
        }
    }

    /// Writes the check part of a check condition over the first 16 bytes, and nothing of another
    /// kind; the answer is the number of bytes.
    fn put_check(self, out: &mut [u8]) -> usize
        requires { 16 ≤ length out.old }
        ensures written { out.new ≡ quad_bytes (check_quads self) ++ drop (length (quad_bytes (check_quads self))) out.old }
        ensures count { result ≡ length (quad_bytes (check_quads self)) }
    {
        match self {
            StatusKind::Check(sense) => {
                put_quads(out, &[sense_quad(sense), 0, 0, 0]);
                16
            }
            _ => 0,
        }
    }
}

/// The first quadlet of the check part: status CHECK CONDITION, and the sense.
fn sense_quad(sense: Sense) -> u32
    ensures { result ≡ sense_head sense }
{
    (2 << 24) + (byte(sense.key) << 16) + (byte(sense.code) << 8) + byte(sense.qualifier)
}

/// Reads a status block, by the word whether it names a management ORB. The error is `Length` where
/// there are fewer than 8 bytes or fewer than its own len says, and `Form` where there are more or
/// no row reads them.
pub fn read_status(bytes: &[u8], management: bool) -> Result<StatusBlock, OrbFault>
    ensures { result ≡ read_block management bytes.now }
{
    if bytes.len() < 8 {
        return Err(OrbFault::Length { need: 8 });
    }
    let need = 4 * (len(bytes) + 1);
    if bytes.len() < usize::from(need) {
        return Err(OrbFault::Length { need });
    }
    if bytes.len() > usize::from(need) {
        return Err(OrbFault::Form);
    }
    let kind = if management {
        managed(bytes)
    } else if src(bytes) < 2 {
        commanded(bytes)
    } else {
        None
    };
    match kind {
        Some(kind) => Ok(StatusBlock {
            src: src(bytes),
            kind,
            orb: offset(bytes, 0),
        }),
        None => Err(OrbFault::Form),
    }
}

/// Bits 31 to 30 of quadlet 0.
fn src(bytes: &[u8]) -> u8
    requires { 8 ≤ length bytes.now }
    ensures { result ≡ src_of bytes.now }
{
    (quad_at(bytes, 0) >> 30) as u8
}

/// Bits 26 to 24 of quadlet 0: the quadlets of the block less one.
fn len(bytes: &[u8]) -> u16
    requires { 8 ≤ length bytes.now }
    ensures len { result ≡ len_of bytes.now }
    ensures small { result < 2 ^ 3 }
{
    (quad_at(bytes, 0) >> 24 & 0x7) as u16
}

/// Bits 23 to 16 of quadlet 0.
fn sbp_status(bytes: &[u8]) -> u8
    requires { 8 ≤ length bytes.now }
    ensures { result ≡ sbp_status_of bytes.now }
{
    (quad_at(bytes, 0) >> 16 & 0xff) as u8
}

/// Whether quadlet 0 has this resp, dead, len and sbp_status.
fn has_row(bytes: &[u8], resp: u32, dead: u32, len: u32, status: u8) -> bool
    requires { 8 ≤ length bytes.now }
    ensures { result ≡ has bytes.now resp dead len status }
{
    let head = quad_at(bytes, 0);
    (head >> 28 & 0x3) == resp
        && (head >> 27 & 1) == dead
        && (head >> 24 & 0x7) == len
        && sbp_status(bytes) == status
}

/// The kind of a block that names a management ORB.
fn managed(bytes: &[u8]) -> Option<StatusKind>
    requires { 8 ≤ length bytes.now }
    ensures { result ≡ management_kind bytes.now }
{
    let status = sbp_status(bytes);
    if has_row(bytes, 0, 0, 1, status) && is_managed(status) && src(bytes) == 0 {
        return Some(StatusKind::Management(status));
    }
    None
}

/// The kind of a block that names any other ORB.
#[tactic(auto, unfolding(crate::specs::StatusBlocks::command_kind))]
fn commanded(bytes: &[u8]) -> Option<StatusKind>
    requires room { 8 ≤ length bytes.now }
    requires whole { length bytes.now ≡ whole_length bytes.now }
    ensures { result ≡ command_kind bytes.now }
{
    let status = sbp_status(bytes);
    if has_row(bytes, 0, 0, 1, 0x00) {
        return Some(StatusKind::Good);
    }
    if let Some(sense) = checked(bytes) {
        return Some(StatusKind::Check(sense));
    }
    if has_row(bytes, 0, 0, 1, 0x0b) {
        return Some(StatusKind::Dummy);
    }
    if has_row(bytes, 0, 0, 1, 0x0c) {
        return Some(StatusKind::Aborted);
    }
    if has_row(bytes, 2, 1, 1, status) && is_illegal(status) {
        return Some(StatusKind::Illegal(status));
    }
    if has_row(bytes, 1, 1, 1, 0xff) {
        return Some(StatusKind::Failed);
    }
    None
}

/// The sense of a block of the row check.
fn checked(bytes: &[u8]) -> Option<Sense>
    requires room { 8 ≤ length bytes.now }
    requires whole { length bytes.now ≡ whole_length bytes.now }
    ensures { result ≡ (if has bytes.now 0 0 5 0 && is_check_part bytes.now then Some (sense_of bytes.now) else None) }
{
    if len(bytes) != 5 || !has_row(bytes, 0, 0, 5, 0x00) || !has_check_part(bytes) {
        return None;
    }
    let check = quad_at(bytes, 8);
    Some(Sense {
        key: (check >> 16 & 0xff) as u8,
        code: (check >> 8 & 0xff) as u8,
        qualifier: (check & 0xff) as u8,
    })
}

/// Whether the 16 bytes from place 8 on tell a check condition.
fn has_check_part(bytes: &[u8]) -> bool
    requires { 24 ≤ length bytes.now }
    ensures { result ≡ is_check_part bytes.now }
{
    let check = quad_at(bytes, 8);
    check >> 24 == 2
        && (check >> 16 & 0xff) < 16
        && quad_at(bytes, 12) == 0
        && quad_at(bytes, 16) == 0
        && quad_at(bytes, 20) == 0
}

/// Whether a refused request may have this meaning.
fn is_illegal(meaning: u8) -> bool
    ensures { result ≡ is_among illegal_meanings meaning }
{
    matches!(meaning, 0x01 | 0x02 | 0x03 | 0x06 | 0xff)
}

/// Whether a management operation may have this meaning.
fn is_managed(meaning: u8) -> bool
    ensures { result ≡ is_among management_meanings meaning }
{
    matches!(meaning, 0x00 | 0x01 | 0x04 | 0x05 | 0x08 | 0x09 | 0x0a)
}
