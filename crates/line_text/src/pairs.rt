ghost use Rattle.std.specs.Prelude.{◌≡◌, ◌+◌, ◌<◌, ◌/◌, ◌%◌, ◌∷◌, [], slice_index};
ghost use Rattle.hex.specs.Hex.{upper_digits};
ghost use Rattle.line_text.specs.Pairs.{all_pairs, all_byte_pairs};

/// The two decimal digits of each number below a hundred.
fn pairs() -> &'static [u8; 200]
    ensures { result.now ≡ all_pairs }
{
    b"00010203040506070809101112131415161718192021222324252627282930313233343536373839404142434445464748495051525354555657585960616263646566676869707172737475767778798081828384858687888990919293949596979899"
}

/// The two decimal digits of a number below a hundred.
#[tactic(auto, using(crate::proofs::Decimals::tens_at, crate::proofs::Decimals::ones_at))]
pub(crate) fn pair(number: u16) -> [u8; 2]
    requires { number < 100 }
    ensures { result ≡ (48 + number / 10) ∷ (48 + number % 10) ∷ [] }
{
    let at = 2 * usize::from(number);
    let pairs = pairs();
    [pairs[at], pairs[at + 1]]
}

/// The four decimal digits of a number below ten thousand.
pub(crate) fn two_pairs(number: u16) -> [u8; 4]
    requires { number < 10000 }
    ensures { result ≡ (48 + number / 100 / 10) ∷ (48 + number / 100 % 10) ∷ (48 + number % 100 / 10) ∷ (48 + number % 100 % 10) ∷ [] }
{
    let [thousands, hundreds] = pair(number / 100);
    let [tens, ones] = pair(number % 100);
    [thousands, hundreds, tens, ones]
}

/// The decimal digit of a number below ten.
pub(crate) fn digit(number: u16) -> u8
    requires { number < 10 }
    ensures { result ≡ 48 + number }
{
    b'0' + number as u8
}

/// The two hexadecimal digits of each byte.
fn byte_pairs() -> &'static [u8; 512]
    ensures { result.now ≡ all_byte_pairs }
{
    b"000102030405060708090A0B0C0D0E0F101112131415161718191A1B1C1D1E1F202122232425262728292A2B2C2D2E2F303132333435363738393A3B3C3D3E3F404142434445464748494A4B4C4D4E4F505152535455565758595A5B5C5D5E5F606162636465666768696A6B6C6D6E6F707172737475767778797A7B7C7D7E7F808182838485868788898A8B8C8D8E8F909192939495969798999A9B9C9D9E9FA0A1A2A3A4A5A6A7A8A9AAABACADAEAFB0B1B2B3B4B5B6B7B8B9BABBBCBDBEBFC0C1C2C3C4C5C6C7C8C9CACBCCCDCECFD0D1D2D3D4D5D6D7D8D9DADBDCDDDEDFE0E1E2E3E4E5E6E7E8E9EAEBECEDEEEFF0F1F2F3F4F5F6F7F8F9FAFBFCFDFEFF"
}

/// The two hexadecimal digits of a byte.
#[tactic(auto, using(crate::proofs::Hexadecimal::high_at, crate::proofs::Hexadecimal::low_at))]
pub(crate) fn byte_pair(byte: u8) -> [u8; 2]
    ensures { result ≡ slice_index upper_digits (byte / 16) ∷ slice_index upper_digits (byte % 16) ∷ [] }
{
    let at = 2 * usize::from(byte);
    let pairs = byte_pairs();
    [pairs[at], pairs[at + 1]]
}
