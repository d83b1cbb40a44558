ghost use Rattle.std.specs.Prelude.{◌≡◌, ◌*◌, ◌+◌, ◌<◌, ◌≤◌, ◌/◌, ◌%◌, ◌∷◌, ◌++◌, [], length, IsTrue};
ghost use Rattle.std.specs.Fmt.{decimal};
ghost use Rattle.hex.specs.Hex.{encode_upper};

use crate::pairs::{digit, pair, two_pairs};
use crate::words::{copy_digits, put_digits};
use std::marker::Model;

/// How many bytes the room has.
const ROOM: usize = 1024;

/// Room for the last few bytes of some lines. Bytes are put into it without any being asked for, and a
/// caller sees once for many words that they have room.
#[derive(Drop)]
pub struct Room {
    bytes: [u8; ROOM],
    count: usize,
}

impl Model for Room {
    ghost use Rattle.std.specs.Prelude.{◌≤◌, ℕ, List, take};

    ghost Value = { List ℕ };

    ghost view = { λ room. take room.count room.bytes };

    ghost invariant = { λ room. room.count ≤ 1024 };
}

impl Room {
    /// Room without bytes.
    pub fn new() -> Room
        ensures { result ≡ [] }
    {
        Room {
            bytes: [0; ROOM],
            count: 0,
        }
    }

    /// Whether so many more bytes have room.
    #[inline(always)]
    pub fn takes(&self, more: usize) -> bool
        ensures { IsTrue result → length self.now + more ≤ 1024 }
    {
        more <= ROOM - self.count
    }

    /// The bytes, lent.
    pub fn as_slice(&self) -> &[u8]
        ensures { result.now ≡ self.now }
    {
        &self.bytes[0..self.count]
    }

    /// Removes all bytes and keeps the room.
    pub fn clear(&mut self)
        ensures { self.new ≡ [] }
    {
        self.count = 0;
    }

    /// Adds a byte at the end.
    #[inline(always)]
    pub fn push_byte(&mut self, byte: u8)
        requires { length self.old < 1024 }
        ensures text { self.new ≡ self.old ++ byte ∷ [] }
        ensures count { length self.new ≡ length self.old + 1 }
    {
        self.bytes[self.count] = byte;
        self.count += 1;
    }

    /// Adds bytes at the end.
    #[inline(always)]
    pub fn push(&mut self, bytes: &[u8])
        requires { length self.old + length bytes.now ≤ 1024 }
        ensures text { self.new ≡ self.old ++ bytes.now }
        ensures count { length self.new ≡ length self.old + length bytes.now }
    {
        let end = self.count + bytes.len();
        put_bytes(bytes, &mut self.bytes[self.count..end]);
        self.count = end;
    }

    /// Adds a blank and a word.
    #[inline(always)]
    pub fn push_name(&mut self, name: &str)
        requires { length self.old + 1 + length name.now ≤ 1024 }
        ensures text { self.new ≡ self.old ++ 32 ∷ name.now }
        ensures count { length self.new ≡ length self.old + 1 + length name.now }
    {
        self.push_byte(b' ');
        self.push(name.as_bytes());
    }

    /// Adds a blank and bytes as digits, two for each.
    #[inline(always)]
    pub fn push_digits(&mut self, bytes: &[u8])
        requires { length self.old + 1 + 2 * length bytes.now ≤ 1024 }
        ensures text { self.new ≡ self.old ++ 32 ∷ encode_upper bytes.now }
        ensures count { length self.new ≡ length self.old + 1 + 2 * length bytes.now }
    {
        self.push_byte(b' ');
        self.push_hexadecimal(bytes);
    }

    /// The same of a few bytes, whose digits are copied one by one.
    #[inline(always)]
    pub fn push_few_digits(&mut self, bytes: &[u8])
        requires { length self.old + 1 + 2 * length bytes.now ≤ 1024 }
        ensures text { self.new ≡ self.old ++ 32 ∷ encode_upper bytes.now }
        ensures count { length self.new ≡ length self.old + 1 + 2 * length bytes.now }
    {
        self.push_byte(b' ');
        self.push_copied_digits(bytes);
    }

    /// Adds a few bytes as digits, which are copied one by one.
    #[inline(always)]
    fn push_copied_digits(&mut self, bytes: &[u8])
        requires { length self.old + 2 * length bytes.now ≤ 1024 }
        ensures text { self.new ≡ self.old ++ encode_upper bytes.now }
        ensures count { length self.new ≡ length self.old + 2 * length bytes.now }
    {
        let end = self.count + 2 * bytes.len();
        copy_digits(bytes, &mut self.bytes[self.count..end]);
        self.count = end;
    }

    /// Adds bytes as digits, two for each.
    #[inline(always)]
    pub fn push_hexadecimal(&mut self, bytes: &[u8])
        requires { length self.old + 2 * length bytes.now ≤ 1024 }
        ensures text { self.new ≡ self.old ++ encode_upper bytes.now }
        ensures count { length self.new ≡ length self.old + 2 * length bytes.now }
    {
        let end = self.count + 2 * bytes.len();
        put_digits(bytes, &mut self.bytes[self.count..end]);
        self.count = end;
    }

    /// Adds a blank and a number in decimal. Most numbers of a line have one digit.
    #[tactic(auto, using(std::proofs::lemmas::Fmt::decimal_digit))]
    #[inline(always)]
    pub fn push_number(&mut self, number: u64)
        requires { length self.old + 21 ≤ 1024 }
        ensures text { self.new ≡ self.old ++ 32 ∷ decimal number }
        ensures few { length self.new ≤ length self.old + 21 }
    {
        if number < 10 {
            self.push(&[b' ', digit(number as u16)]);
        } else {
            self.push_byte(b' ');
            self.push_decimal(number);
        }
    }

    /// Adds a number in decimal.
    #[tactic(auto, using(crate::proofs::Decimals::digits_few, crate::proofs::Decimals::front_and_four))]
    #[inline(always)]
    pub fn push_decimal(&mut self, number: u64)
        requires { length self.old + 20 ≤ 1024 }
        ensures text { self.new ≡ self.old ++ decimal number }
        ensures few { length self.new ≤ length self.old + 20 }
    {
        if number < 10_000 {
            self.push_short(number as u16);
        } else if number < 100_000_000 {
            self.push_short((number / 10_000) as u16);
            self.push(&two_pairs((number % 10_000) as u16));
        } else {
            self.push_longest(number);
        }
    }

    /// Adds a number of one to four digits in decimal.
    #[tactic(auto, using(std::proofs::lemmas::Fmt::decimal_digit, crate::proofs::Decimals::two_digits, crate::proofs::Decimals::three_digits, crate::proofs::Decimals::four_digits))]
    #[inline(always)]
    fn push_short(&mut self, number: u16)
        requires small { number < 10000 }
        requires room { length self.old + 4 ≤ 1024 }
        ensures text { self.new ≡ self.old ++ decimal number }
        ensures few { length self.new ≤ length self.old + 4 }
    {
        if number >= 1000 {
            self.push(&two_pairs(number));
        } else if number >= 100 {
            let [tens, ones] = pair(number % 100);
            self.push(&[digit(number / 100), tens, ones]);
        } else if number >= 10 {
            self.push(&pair(number));
        } else {
            self.push_byte(digit(number));
        }
    }

    /// Adds a number of any length in decimal.
    #[tactic(auto, using(crate::proofs::Decimals::digits_few))]
    #[inline(never)]
    fn push_longest(&mut self, number: u64)
        requires { length self.old + 20 ≤ 1024 }
        ensures text { self.new ≡ self.old ++ decimal number }
        ensures few { length self.new ≤ length self.old + 20 }
    {
        let mut digits = itoa::Buffer::new();
        self.push(digits.format(number).as_bytes());
    }
}

/// Copies bytes from the first one on. They are no part of where they go, so their order need not be
/// looked at.
#[inline(always)]
fn put_bytes(bytes: &[u8], to: &mut [u8])
    requires { length to.old ≡ length bytes.now }
    ensures { to.new ≡ bytes.now }
{
    for at in 0..bytes.len() {
        to[at] = bytes[at];
    }
}
