//! The laws of a journal's text: it determines the notes, so that of a lawful run its journal, and the
//! runs of equal bytes in it are the maximal ones. Their proofs read each line back. Beside them stand worked examples of every line.
#![tactic(auto)]

mod laws;

pub use laws::{maximal_runs, text_determines_journal, text_determines_notes, text_is_of_lines};

#[cfg(test)]
mod tests;
