//! The laws of a run leave no room: with what is told beside it, they have one journal.
#![tactic(auto)]

mod laws;

pub use laws::lawful_determines_the_journal;
