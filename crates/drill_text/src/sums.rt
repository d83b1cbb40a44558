ghost use Rattle.std.specs.Prelude.{◌≡◌, ◌++◌, ◌<◌, ◌≤◌, ◌*◌, ◌+◌, ◌∷◌, [], drop, length, slice_index, ℕ, List, IfOk};
ghost use Rattle.config_rom.specs.Sum.{sum_of, quad_bits, low_bits, register_after};
ghost use Rattle.drill_text.specs.Sums as spec;
ghost use Rattle.drill_text.specs.Sums.{quadlet, quads_of};

use config_rom::sum16;
use sbp_base::NoMemory;
use std::alloc::Global;

/// The sum over each quadlet of two bytes, by which a sum goes on two bytes at a time.
#[derive(Drop)]
pub struct PairSums {
    sums: Vec<u16>,
    ghost all: { length sums.items ≡ 65536 },
    ghost each: { (pair : ℕ) → pair < 65536 → slice_index sums.items pair ≡ sum_of (pair ∷ []) },
}

/// The sums over two bytes of which the first is zero.
fn low_sums() -> [u16; 256]
    ensures { (low : ℕ) → low < 256 → slice_index result low ≡ sum_of (low ∷ []) }
{
    let mut sums = [0; 256];
    for low in 0..256_usize {
        sums[low] = sum16(&[low as u32]);
    }
    sums
}

impl PairSums {
    /// Makes the table: the sum over two bytes is that of the first with the second zero, and that of
    /// the second with the first zero, taken together.
    pub fn new(alloc: Global) -> Result<PairSums, NoMemory>
        ensures { IfOk result (λ table. (pair : ℕ) → pair < 65536 → slice_index table.sums.items pair ≡ sum_of (pair ∷ [])) }
    {
        let lows = low_sums();
        let mut sums = Vec::with_capacity(alloc, 65536)?;
        for high in 0..256_u32 {
            let top = sum16(&[high * 256]);
            for low in &lows {
                sums.push(top ^ *low)?;
            }
        }
        Ok(PairSums { sums })
    }

    /// The sum behind two more bytes.
    fn behind_pair(&self, sum: u16, first: u8, second: u8) -> u16
        ensures { result ≡ register_after sum (low_bits 16 (first * 256 + second)) }
    {
        let pair = u16::from(first) * 256 + u16::from(second);
        self.sums[usize::from(sum ^ pair)]
    }

    /// The sum behind one more quadlet.
    fn behind_quad(&self, sum: u16, quad: [u8; 4]) -> u16
        ensures { result ≡ register_after sum (low_bits 32 (quadlet (slice_index quad 0) (slice_index quad 1) (slice_index quad 2) (slice_index quad 3))) }
    {
        let [first, second, third, fourth] = quad;
        let half = self.behind_pair(sum, first, second);
        self.behind_pair(half, third, fourth)
    }

    /// The sum behind the last bytes, to which zero bytes are added up to a whole quadlet.
    fn behind_rest(&self, sum: u16, rest: &[u8]) -> u16
        requires { length rest.now < 4 }
        ensures { result ≡ register_after sum (quad_bits (quads_of rest.now)) }
    {
        match rest {
            [first, second, third] => self.behind_quad(sum, [*first, *second, *third, 0]),
            [first, second] => self.behind_quad(sum, [*first, *second, 0, 0]),
            [first] => self.behind_quad(sum, [*first, 0, 0, 0]),
            _ => sum,
        }
    }

    /// The register behind the quadlet at a place.
    fn behind_quad_at(&self, sum: u16, bytes: &[u8], at: usize) -> u16
        requires { at + 4 ≤ length bytes.now }
        ensures { register_after result (quad_bits (quads_of (drop (at + 4) bytes.now))) ≡ register_after sum (quad_bits (quads_of (drop at bytes.now))) }
    {
        let quad = [bytes[at], bytes[at + 1], bytes[at + 2], bytes[at + 3]];
        self.behind_quad(sum, quad)
    }

    /// The register behind the four quadlets at a place.
    fn behind_four_at(&self, sum: u16, bytes: &[u8], at: usize) -> u16
        requires { at + 16 ≤ length bytes.now }
        ensures { register_after result (quad_bits (quads_of (drop (at + 16) bytes.now))) ≡ register_after sum (quad_bits (quads_of (drop at bytes.now))) }
    {
        let first = self.behind_quad_at(sum, bytes, at);
        let second = self.behind_quad_at(first, bytes, at + 4);
        let third = self.behind_quad_at(second, bytes, at + 8);
        self.behind_quad_at(third, bytes, at + 12)
    }

    /// The register behind more bytes, of which four quadlets are taken in one step.
    pub(crate) fn register_behind(&self, sum: u16, bytes: &[u8]) -> u16
        ensures { result ≡ register_after sum (quad_bits (quads_of bytes.now)) }
    {
        let mut sum = sum;
        let mut at = 0;
        while at + 16 <= bytes.len() {
            sum = self.behind_four_at(sum, bytes, at);
            at += 16;
        }
        self.behind_few(sum, &bytes[at..])
    }

    /// The register behind a few more bytes.
    fn behind_few(&self, sum: u16, bytes: &[u8]) -> u16
        ensures { result ≡ register_after sum (quad_bits (quads_of bytes.now)) }
    {
        let mut sum = sum;
        let mut at = 0;
        while at + 4 <= bytes.len() {
            sum = self.behind_quad_at(sum, bytes, at);
            at += 4;
        }
        self.behind_rest(sum, &bytes[at..])
    }

    /// The sum behind more bytes, which are taken as quadlets, with zero bytes added up to a whole
    /// one.
    pub fn behind(&self, sum: u16, bytes: &[u8]) -> u16
        ensures { (quads : List ℕ) → sum ≡ sum_of quads → result ≡ sum_of (quads ++ quads_of bytes.now) }
    {
        self.register_behind(sum, bytes)
    }

    /// The sum behind one more line, which has its line feed.
    pub fn behind_line(&self, sum: u16, line: &[u8]) -> u16
        ensures { result ≡ spec.behind_line sum line.now }
    {
        self.behind(self.sums[usize::from(sum)], line)
    }
}
