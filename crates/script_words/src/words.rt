ghost use Rattle.std.specs.Prelude.{◌≡◌, ◌≢◌, ◌≤◌, ◌==◌, ◌^◌, nat_lt, slice_index, if◌then◌else◌, IfOk};
ghost use Rattle.std.specs.List.{list_all, slice_split};
ghost use Rattle.std.specs.Char.{is_ascii_digit};
ghost use Rattle.hex.specs.Hex as digits;
ghost use Rattle.script_words.specs.Words as spec;
ghost use Rattle.script_words.specs.Words.{shown, value, hex_bytes, sized_bytes};

use crate::fault::LineFault;
use hex::{FromHex, FromHexError};
use sbp_base::Bytes;
use std::alloc::{AllocError, Global};

/// The parts of some bytes between separators: two of these side by side have an empty part between
/// them.
pub fn parts_of(alloc: Global, bytes: &[u8], separator: u8) -> Result<Vec<&[u8]>, AllocError>
    ensures { IfOk result (λ parts. shown parts.items ≡ slice_split (λ byte. byte == separator) bytes.now) }
{
    bytes.split(|byte| *byte == separator).collect(alloc)
}

/// Whether a word is a decimal number without a leading zero.
#[tactic(auto, unfolding(crate::specs::Words::is_numeral))]
pub fn is_numeral(word: &[u8]) -> bool
    ensures { result ≡ spec.is_numeral word.now }
{
    !word.is_empty() && are_digits(word) && (word[0] != b'0' || word.len() == 1)
}

/// Whether all bytes are decimal digits.
fn are_digits(word: &[u8]) -> bool
    ensures { result ≡ list_all is_ascii_digit word.now }
{
    word.iter().all(|byte| byte.is_ascii_digit())
}

/// The number that decimal digits spell, if it has at most 32 bits.
#[tactic(auto, unfolding(crate::specs::Words::value))]
pub(crate) fn value_of(digits: &[u8]) -> Option<u32>
    ensures { result ≡ (if nat_lt (value digits.now) (2 ^ 32) then Some (value digits.now) else None) }
{
    let mut number: u64 = 0;
    for digit in digits {
        number = 10 * number + u64::from(digit.saturating_sub(b'0'));
        if number > u64::from(u32::MAX) {
            return None;
        }
    }
    Some(number as u32)
}

/// Whether decimal digits spell a number from `low` to `high`.
pub(crate) fn is_between(word: &[u8], low: u32, high: u32) -> bool
    ensures { result ≡ spec.is_between low high word.now }
{
    match value_of(word) {
        Some(number) => low <= number && number <= high,
        None => false,
    }
}

/// The number that decimal digits spell, from `low` to `high`.
pub fn number(word: &[u8], low: u32, high: u32) -> Result<u32, LineFault>
    ensures value { result ≡ spec.number low high word.now }
    ensures bound { IfOk result (λ number. number ≤ high) }
{
    match value_of(word) {
        Some(number) => {
            if low <= number && number <= high {
                Ok(number)
            } else {
                Err(LineFault::Range)
            }
        }
        None => Err(LineFault::Range),
    }
}

/// Whether a word is an even number of hexadecimal digits, two or more.
#[tactic(auto, unfolding(crate::specs::Words::is_hex))]
pub fn is_hex(word: &[u8]) -> bool
    ensures { result ≡ spec.is_hex word.now }
{
    !word.is_empty() && word.len() % 2 == 0 && are_hex_digits(word)
}

/// Whether a word is exactly 16 hexadecimal digits.
#[tactic(auto, unfolding(crate::specs::Words::is_key))]
pub fn is_key(word: &[u8]) -> bool
    ensures { result ≡ spec.is_key word.now }
{
    word.len() == 16 && are_hex_digits(word)
}

/// Whether all bytes are hexadecimal digits, of either case.
fn are_hex_digits(word: &[u8]) -> bool
    ensures { result ≡ list_all digits.is_hex_digit word.now }
{
    word.iter().all(|byte| is_hex_digit(*byte))
}

/// Whether a byte is a hexadecimal digit, of either case.
fn is_hex_digit(byte: u8) -> bool
    ensures { result ≡ digits.is_hex_digit byte }
{
    matches!(byte, b'0'..=b'9' | b'A'..=b'F' | b'a'..=b'f')
}

/// The bytes that hexadecimal digits spell.
#[tactic(auto, unfolding(crate::specs::Words::hex_bytes))]
pub fn bytes_of_hex(alloc: Global, word: &[u8]) -> Result<Bytes, LineFault>
    ensures { result ≢ Err LineFault.NoMemory → result ≡ Ok (hex_bytes word.now) }
{
    match hex::decode(alloc, word) {
        Ok(bytes) => Ok(Bytes::from_slice(alloc, bytes.as_slice())?),
        Err(FromHexError::OutOfMemory) => Err(LineFault::NoMemory),
        Err(_) => Ok(Bytes::new(alloc)),
    }
}

/// The eight bytes that 16 hexadecimal digits spell.
#[tactic(auto, unfolding(crate::specs::Words::sized_bytes))]
pub fn key_of(word: &[u8]) -> [u8; 8]
    ensures { result ≡ sized_bytes 8 word.now }
{
    match <[u8; 8] as FromHex>::from_hex(word) {
        Ok(bytes) => bytes,
        Err(_) => [0; 8],
    }
}

/// The byte that two hexadecimal digits spell.
#[tactic(auto, unfolding(crate::specs::Words::sized_bytes))]
pub(crate) fn byte_of(word: &[u8]) -> u8
    ensures { result ≡ slice_index (sized_bytes 1 word.now) 0 }
{
    match <[u8; 1] as FromHex>::from_hex(word) {
        Ok(bytes) => bytes[0],
        Err(_) => 0,
    }
}
