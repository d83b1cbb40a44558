//! The lines of a script as events, and the script that a drill draws.
#![tactic(auto)]

mod column;
mod drill;
mod event;
mod laws;
mod line;
mod row;
mod shape;
mod turn;

pub use drill::{Drill, drill_line};
pub use laws::{only_silent_lines_say_nothing, shaped_words_are_read};
pub use line::{read_line, read_write};
pub use script_words::LineFault;
