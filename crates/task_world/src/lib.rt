//! The nodes and the bus of `tasks`: one initiator with a ready login on unit 0, and the target with the
//! unordered agent.
#![tactic(auto)]

mod event;
mod laws;
mod media;
mod of_wire;
mod parts;
mod world;

pub use event::is_task_line;
pub use laws::{task_lines_have_form, task_runs_are_seated, task_runs_begin, task_runs_go_on};
pub use media::{task_lines_keep_the_disks, task_notes_are_written};
pub use of_wire::{task_calls_fit_the_wire, task_lines_are_moves, task_runs_are_lawful_on_the_bus};
pub use world::TaskWorld;
