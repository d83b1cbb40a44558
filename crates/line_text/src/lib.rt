//! Lines of text: words that are added to bytes, and digits that are read.
#![tactic(auto)]

mod digits;
mod pairs;
mod room;
mod words;

pub use digits::{Digits, DigitsError, NO_DIGITS};
pub use room::Room;
pub use words::{
    end_line, push_decimal, push_digits, push_hexadecimal, push_name, push_number, push_payload,
};
