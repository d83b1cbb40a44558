ghost use Rattle.std.specs.Prelude.{◌≡◌, ℕ, List, ◌+◌, ◌*◌, ◌<◌, ◌≤◌, true, take, drop, map, length, slice_set, slice_index, IfOk, IfSome, OnOk, OnErr};
ghost use Rattle.sbp_base.specs.Faults.{count_up};
ghost use Rattle.rbc_disk.specs.Disk.{IsInside, disk_at};
ghost use Rattle.config_rom.specs.Sum.{quad_bits, register_after};
ghost use Rattle.drill_text.specs.Sums.{quads_of};
ghost use Rattle.drill_text.specs.Disks.{SumsUp};

use crate::sums::PairSums;
use rbc_disk::{BLOCK, Medium};
use sbp_base::{Failed, NoMemory};
use std::alloc::Global;

/// How many blocks are read by one call.
const BLOCKS: u32 = 16;

/// Whether there is a disc to read.
fn is_there(medium: &dyn Medium) -> bool
    ensures { result ≡ (disk medium.now).is_present }
{
    medium.is_present()
}

/// Reads blocks, and goes on with the sum over their bytes.
fn read_piece(
    sums: &PairSums,
    medium: &mut dyn Medium,
    lba: u32,
    sum: u16,
    piece: &mut [u8],
) -> Result<u16, Failed>
    requires present { (disk medium.old).is_present ≡ true }
    requires inside { IsInside (disk medium.old) lba (length piece.old) }
    ensures kept { disk medium.new ≡ disk medium.old }
    ensures sum { IfOk result (λ next. IfSome (disk medium.old).bytes (λ bytes. next ≡ register_after sum (quad_bits (quads_of (take (length piece.old) (drop (512 * lba) bytes)))))) }
    ensures no_fault { OnOk result (media_faults medium.new ≡ media_faults medium.old) }
    ensures fault { OnErr result (media_faults medium.new ≡ count_up (media_faults medium.old) 1) }
{
    medium.read(lba, piece)?;
    Ok(sums.register_behind(sum, piece))
}

/// The sum over the bytes of a medium, by one read for each 16 blocks; none where it is not present
/// or a read failed. A piece of it goes through `room`.
fn sum_of_medium(sums: &PairSums, medium: &mut dyn Medium, room: &mut [u8]) -> Option<u16>
    requires { length room.old ≡ 8192 }
    ensures kept { disk medium.new ≡ disk medium.old }
    ensures told { SumsUp result (disk medium.old) (media_faults medium.old) (media_faults medium.new) }
{
    if !is_there(medium) {
        return None;
    }
    let blocks = medium.blocks();
    let mut sum = 0;
    let mut lba = 0;
    while lba < blocks {
        let count = (blocks - lba).min(BLOCKS);
        let piece = &mut room[..(BLOCK * count) as usize];
        let Ok(next) = read_piece(sums, medium, lba, sum, piece) else {
            return None;
        };
        sum = next;
        lba += count;
    }
    Some(sum)
}

/// [`sum_of_medium`] of a boxed medium.
fn sum_of_box(sums: &PairSums, medium: &mut Box<dyn Medium>, room: &mut [u8]) -> Option<u16>
    requires { length room.old ≡ 8192 }
    ensures kept { disk medium.new ≡ disk medium.old }
    ensures told { SumsUp result (disk medium.old) (media_faults medium.old) (media_faults medium.new) }
{
    sum_of_medium(sums, &mut **medium, room)
}

/// [`sum_of_medium`] of the first medium of a list; the others stay as they are.
#[tactic(auto, using(rbc_disk::proofs::MediaLists::media_steps))]
fn sum_at_first(sums: &PairSums, media: &mut Vec<Box<dyn Medium>>, room: &mut [u8]) -> Option<u16>
    requires some { 1 ≤ length media.old.items }
    requires room { length room.old ≡ 8192 }
    ensures count { length media.new.items ≡ length media.old.items }
    ensures kept { map disk media.new.items ≡ map disk media.old.items }
    ensures told { SumsUp result (disk_at (map disk media.old.items) 0) (slice_index (map media_faults media.old.items) 0) (slice_index (map media_faults media.new.items) 0) }
    ensures counts { map media_faults media.new.items ≡ slice_set (map media_faults media.old.items) 0 (slice_index (map media_faults media.new.items) 0) }
{
    sum_of_box(sums, &mut media[0], room)
}

/// The sum over the bytes of the first medium, by one read for each 16 blocks; none where it is not
/// present or a read failed. The others stay as they are.
pub fn sum_of_first(
    alloc: Global,
    sums: &PairSums,
    media: &mut Vec<Box<dyn Medium>>,
) -> Result<Option<u16>, NoMemory>
    requires { 1 ≤ length media.old.items }
    ensures kept { map disk media.new.items ≡ map disk media.old.items }
    ensures told { IfOk result (λ sum. SumsUp sum (disk_at (map disk media.old.items) 0) (slice_index (map media_faults media.old.items) 0) (slice_index (map media_faults media.new.items) 0)) }
    ensures counts { map media_faults media.new.items ≡ slice_set (map media_faults media.old.items) 0 (slice_index (map media_faults media.new.items) 0) }
{
    let mut room = vec![in alloc; 0_u8; 8192]?;
    Ok(sum_at_first(sums, media, room.as_mut_slice()))
}
