//! What runs the lines of a script in a world, and what runs the script of a drill.
#![tactic(auto)]

mod begin;
mod drill;
mod laws;
mod runner;
mod script;
mod typed;

pub use drill::tally_drill;
pub use laws::commands_of_scripts_are_legal;
pub use runner::{ScriptRunner, serve_script};
pub use script::{line_error, read_event};
