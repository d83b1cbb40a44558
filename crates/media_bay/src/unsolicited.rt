ghost use Rattle.std.specs.Prelude.{◌≡◌, ◌≤◌, ◌++◌, length, drop};
ghost use Rattle.media_bay.specs.Unsolicited.{block, read_block, ReadsBlock};

use rbc_command::Sense;
use sbp_base::quad_at;

/// Bytes of the unsolicited status block.
const LENGTH: usize = 24;

/// The unsolicited status block, its reserved bytes zero.
const BLOCK: &[u8; 24] = b"\x85\0\0\0\0\0\0\0\x02\x06\x28\0\0\0\0\0\0\0\0\0\0\0\0\0";

/// Writes the unsolicited status block to the front of `out`, and answers its length, 24.
#[tactic(auto, unfolding(crate::specs::Unsolicited::block_head))]
pub fn write_unsolicited(out: &mut [u8]) -> usize
    requires { 24 ≤ length out.old }
    ensures count { result ≡ 24 }
    ensures written { out.new ≡ block ++ drop 24 out.old }
{
    out[..LENGTH].copy_from_slice(BLOCK);
    LENGTH
}

/// Reads an unsolicited status block: 6/28/00 exactly where there are 24 bytes and the first twelve
/// are those of the block. The last twelve are reserved and free.
pub fn read_unsolicited(bytes: &[u8]) -> Option<Sense>
    ensures { result ≡ read_block bytes.now }
{
    if bytes.len() != LENGTH {
        return None;
    }
    let is_block = quad_at(bytes, 0) == 0x8500_0000
        && quad_at(bytes, 4) == 0x0000_0000
        && quad_at(bytes, 8) == 0x0206_2800;
    if is_block {
        Some(Sense::MEDIUM_CHANGED)
    } else {
        None
    }
}

/// The law that ties the two calls: the block is read, whatever its reserved bytes are.
#[tactic(auto, using(crate::proofs::BlockLemmas::reads_block))]
pub fn unsolicited_reads_back()
    ensures { ReadsBlock }
{}
