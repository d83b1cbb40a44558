ghost use Rattle.std.specs.Prelude.{◌≡◌, ◌*◌, ◌<◌, ◌≤◌, ◌∷◌, ◌++◌, [], length, OnOk, slice_index};
ghost use Rattle.std.specs.Fmt.{decimal};
ghost use Rattle.hex.specs.Hex.{encode_upper, upper_digits};
ghost use Rattle.line_text.specs.Fields.{Field, word};

use crate::pairs::byte_pair;
use sbp_base::{Bytes, NoMemory};

/// How many bytes are made digits at a time.
const PIECE: usize = 64;

/// How many bytes are made digits in one step.
const BLOCK: usize = 8;

/// Adds a blank and a word.
pub fn push_name(out: &mut Bytes, name: &str) -> Result<(), NoMemory>
    ensures { OnOk result (out.new ≡ out.old ++ 32 ∷ name.now) }
{
    out.push(b' ')?;
    out.extend_from_slice(name.as_bytes())
}

/// Adds a blank and a number in decimal.
pub fn push_number(out: &mut Bytes, number: u64) -> Result<(), NoMemory>
    ensures { OnOk result (out.new ≡ out.old ++ 32 ∷ decimal number) }
{
    out.push(b' ')?;
    push_decimal(out, number)
}

/// Adds a number in decimal. Most numbers of a line have one digit.
pub fn push_decimal(out: &mut Bytes, number: u64) -> Result<(), NoMemory>
    ensures { OnOk result (out.new ≡ out.old ++ decimal number) }
{
    if number < 10 {
        out.push(b'0' + number as u8)
    } else {
        push_long(out, number)
    }
}

/// The same of any number. It stands apart, so that a single digit needs none of its room.
#[inline(never)]
fn push_long(out: &mut Bytes, number: u64) -> Result<(), NoMemory>
    ensures { OnOk result (out.new ≡ out.old ++ decimal number) }
{
    let mut digits = itoa::Buffer::new();
    out.extend_from_slice(digits.format(number).as_bytes())
}

/// Adds a blank and bytes as digits, two for each.
pub fn push_digits(out: &mut Bytes, bytes: &[u8]) -> Result<(), NoMemory>
    ensures { OnOk result (out.new ≡ out.old ++ 32 ∷ encode_upper bytes.now) }
{
    out.push(b' ')?;
    push_hexadecimal(out, bytes)
}

/// Adds bytes as digits, two for each.
pub fn push_hexadecimal(out: &mut Bytes, bytes: &[u8]) -> Result<(), NoMemory>
    ensures { OnOk result (out.new ≡ out.old ++ encode_upper bytes.now) }
{
    let mut behind = bytes;
    while PIECE < behind.len() {
        push_piece(out, &behind[..PIECE])?;
        behind = &behind[PIECE..];
    }
    push_piece(out, behind)
}

/// Adds a few bytes as digits, which are made in room of their own first: so room is asked for once.
fn push_piece(out: &mut Bytes, bytes: &[u8]) -> Result<(), NoMemory>
    requires { length bytes.now ≤ 64 }
    ensures { OnOk result (out.new ≡ out.old ++ encode_upper bytes.now) }
{
    let mut room = [0; 2 * PIECE];
    let digits = &mut room[..2 * bytes.len()];
    put_digits(bytes, digits);
    out.extend_from_slice(digits)
}

/// The digit of a number below 16. It is made without a table, so that those of many bytes are made in
/// one step.
#[tactic(auto, using(crate::proofs::Hexadecimal::digit_made))]
fn digit(number: u8) -> u8
    requires { number < 16 }
    ensures { result ≡ slice_index upper_digits number }
{
    let letters = if number < 10 { 0 } else { b'A' - 10 - b'0' };
    b'0' + number + letters
}

/// Writes the digits of bytes, two for each: those of whole blocks are made, and those of the other
/// bytes stand in a table.
pub(crate) fn put_digits(bytes: &[u8], digits: &mut [u8])
    requires { length digits.old ≡ 2 * length bytes.now }
    ensures { digits.new ≡ encode_upper bytes.now }
{
    let whole = bytes.len() - bytes.len() % BLOCK;
    make_digits(&bytes[..whole], &mut digits[..2 * whole]);
    copy_digits(&bytes[whole..], &mut digits[2 * whole..]);
}

/// Makes the digits of bytes, two for each.
fn make_digits(bytes: &[u8], digits: &mut [u8])
    requires { length digits.old ≡ 2 * length bytes.now }
    ensures { digits.new ≡ encode_upper bytes.now }
{
    for at in 0..bytes.len() {
        let byte = bytes[at];
        digits[2 * at] = digit(byte / 16);
        digits[2 * at + 1] = digit(byte % 16);
    }
}

/// Copies the digits of bytes from the table, two for each.
pub(crate) fn copy_digits(bytes: &[u8], digits: &mut [u8])
    requires { length digits.old ≡ 2 * length bytes.now }
    ensures { digits.new ≡ encode_upper bytes.now }
{
    for at in 0..bytes.len() {
        let [high, low] = byte_pair(bytes[at]);
        digits[2 * at] = high;
        digits[2 * at + 1] = low;
    }
}

/// Adds a blank and bytes as digits, or `-` for none.
pub fn push_payload(out: &mut Bytes, bytes: &[u8]) -> Result<(), NoMemory>
    ensures { OnOk result (out.new ≡ out.old ++ 32 ∷ word (Field.payload bytes.now)) }
{
    if bytes.is_empty() {
        push_name(out, "-")
    } else {
        push_digits(out, bytes)
    }
}

/// Adds a line feed.
pub fn end_line(out: &mut Bytes) -> Result<(), NoMemory>
    ensures { OnOk result (out.new ≡ out.old ++ 10 ∷ []) }
{
    out.push(b'\n')
}
