//! The words of a script's line: what they look like, and the numbers, bytes, data, segments and
//! commands that they spell.
#![tactic(auto)]

mod command;
mod fault;
mod fixed;
mod payload;
mod verb;
mod words;

pub use command::{addressed_block, behind, bringing, cmd_of, sending, writing_blocks};
pub use fault::LineFault;
pub use fixed::{FixedWord, fixed_word};
pub use payload::{are_lengths, data_of, is_data, segments_of};
pub use verb::{Form, Verb, verb_of};
pub use words::{bytes_of_hex, is_hex, is_key, is_numeral, key_of, number, parts_of};
