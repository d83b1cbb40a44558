ghost use Rattle.std.specs.Prelude.{◌≡◌, ◌≤◌, ◌+◌, ◌/◌, ◌++◌, [], length, take, Ok, Err, OnOk, IfOk, IfSome, IfNone};
ghost use Rattle.hex.specs.Hex.{decode_of};
ghost use Rattle.hex.specs.declared.error.FromHexError.{FromHexError};
ghost use Rattle.line_text.specs.Digits.{Spells};
ghost use Rattle.line_text.specs.Digits as lines;

use sbp_base::{Bytes, NoMemory};
use std::alloc::Global;
use std::marker::Model;

/// The most bytes of a line.
const LINE_BYTES: usize = 8192;

/// The number of the fault of a line whose digits spell no bytes.
pub const NO_DIGITS: u8 = 9;

/// Why a line spells no bytes.
#[derive(Clone, Copy, Debug, PartialEq, Eq)]
pub enum DigitsError {
    /// The digits are odd in number, or one of them is not hexadecimal.
    NoDigits,
    /// Memory was wanting.
    NoMemory,
}

impl From<NoMemory> for DigitsError {
    ghost use Rattle.std.specs.Prelude.{◌≡◌};
    ghost use Rattle.line_text.specs.declared.digits.DigitsError.{DigitsError};

    ghost from_gives = { λ _ error. error ≡ DigitsError.NoMemory };

    fn from(_error: NoMemory) -> DigitsError {
        DigitsError::NoMemory
    }
}

/// The bytes that the digits of a line spell, with room that is used for one line after the other.
#[derive(Drop)]
pub struct Digits {
    digits: Bytes,
    room: Vec<u8>,
    count: usize,
}

impl Model for Digits {
    ghost use Rattle.std.specs.Prelude.{◌≡◌, ◌≤◌, ℕ, List, length, take};

    ghost Value = { List ℕ };

    ghost view = { λ digits. take digits.count digits.room.items };

    ghost invariant = { λ digits. (length digits.room.items ≡ 4096) × (digits.count ≤ 4096) };
}

impl Digits {
    /// Room for digits, which has no bytes yet.
    pub fn new(alloc: Global) -> Result<Self, NoMemory>
        ensures { IfOk result (λ none. none ≡ []) }
    {
        Ok(Digits {
            digits: Bytes::new(alloc),
            room: vec![in alloc; 0; LINE_BYTES / 2]?,
            count: 0,
        })
    }

    /// The bytes, lent.
    pub fn as_slice(&self) -> &[u8]
        ensures { result.now ≡ self.now }
    {
        &self.room[..self.count]
    }

    /// Reads the bytes that the digits of a line spell. Spaces and tabs are dropped.
    pub fn read(&mut self, line: &[u8]) -> Result<(), DigitsError>
        requires { length line.now ≤ 8192 }
        ensures { Spells result line.now self.new }
    {
        self.digits.clear();
        gather(line, &mut self.digits)?;
        match decode(self.digits.as_slice(), self.room.as_mut_slice()) {
            Some(count) => {
                self.count = count;
                Ok(())
            }
            None => Err(DigitsError::NoDigits),
        }
    }
}

/// Decodes digits into the front of `room`, and answers how many bytes they spell.
fn decode(digits: &[u8], room: &mut [u8]) -> Option<usize>
    requires room { length digits.now / 2 ≤ length room.old }
    ensures room { length room.new ≡ length room.old }
    ensures few { IfSome result (λ count. count ≤ length room.new) }
    ensures some { IfSome result (λ count. decode_of digits.now ≡ Ok (take count room.new)) }
    ensures none { IfNone result ((error : FromHexError) × (decode_of digits.now ≡ Err error)) }
{
    let count = digits.len() / 2;
    match hex::decode_to_slice(digits, &mut room[..count]) {
        Ok(()) => Some(count),
        Err(_) => None,
    }
}

/// Adds the bytes of a line that are neither spaces nor tabs.
fn gather(line: &[u8], digits: &mut Bytes) -> Result<(), NoMemory>
    ensures added { OnOk result (digits.new ≡ digits.old ++ lines.digits line.now) }
    ensures few { OnOk result (length digits.new ≤ length digits.old + length line.now) }
{
    for byte in line {
        if !(*byte == b' ' || *byte == b'\t') {
            digits.push(*byte)?;
        }
    }
    Ok(())
}
