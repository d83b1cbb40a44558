//! A drill in words: those of the command line that ask for it, the sum that goes on over the lines
//! of its journal, and the six lines that it writes.
#![tactic(auto)]

mod disk;
mod laws;
mod summary;
mod sums;
mod tally;
mod words;

pub use disk::sum_of_first;
pub use laws::{known_sums, trace_goes_by_lines};
pub use summary::push_summary;
pub use sums::PairSums;
pub use tally::Tally;
pub use words::{DrillWords, drill_words};
