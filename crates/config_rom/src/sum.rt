ghost use Rattle.std.specs.Prelude.{◌≡◌, ◌<◌, ◌≤◌, ◌+◌, length, take, drop};
ghost use Rattle.config_rom.specs.Sum.{sum_of, shifted, low_bits, register_after};

/// The polynomial x^16 + x^12 + x^5 + 1, without its highest power.
const POLYNOMIAL: u16 = 0x1021;

/// The sum over quadlets (IEEE 1212, "CRC calculation"): bits most significant first, from 0 and
/// with no final change. The sum of no quadlets is 0.
#[tactic(auto, using(crate::proofs::Sums::sum_steps))]
pub fn sum16(quads: &[u32]) -> u16
    ensures { result ≡ sum_of quads.now }
{
    let mut register = 0;
    for quad in quads {
        register = with_quad(register, *quad);
    }
    register
}

/// The sum over the `count` quadlets from position `first` on.
pub(crate) fn sum_at(quads: &[u32], first: usize, count: usize) -> u16
    requires { first + count ≤ length quads.now }
    ensures { result ≡ sum_of (take count (drop first quads.now)) }
{
    sum16(&quads[first..first + count])
}

/// The register behind the 32 bits of a quadlet.
#[tactic(auto, using(crate::proofs::Sums::sum_steps))]
fn with_quad(register: u16, quad: u32) -> u16
    ensures { result ≡ register_after register (low_bits 32 quad) }
{
    let mut register = register;
    for place in 0..32_u32 {
        register = with_bit(register, (quad >> (31 - place)) & 1);
    }
    register
}

/// The register behind one more bit.
#[tactic(auto, unfolding(crate::specs::Sum::shifted))]
fn with_bit(register: u16, bit: u32) -> u16
    requires { bit < 2 }
    ensures { result ≡ shifted register bit }
{
    let turned = register << 1;
    if u32::from(register >> 15) == bit {
        turned
    } else {
        turned ^ POLYNOMIAL
    }
}
