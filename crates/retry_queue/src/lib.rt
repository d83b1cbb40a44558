//! The retry queue: writes that are submitted and sent over a world of one initiator, each again until
//! it has its status.
#![tactic(auto)]

mod heard;
mod kept;
mod laws;
mod line;
mod note;
mod pump;
mod queue;
mod session;
mod text;
mod typed;

pub use heard::queues_keep_the_terms;
pub use laws::{
    appends_come_first, dead_lists_wait, lines_bring_what_is_asked, queue_law_tried,
    queue_runs_are_lawful, queue_runs_are_plain, queue_runs_leave_their_medium, queues_are_lawful,
    queues_keep_order, queues_stand_for_runs,
};
pub use line::{QueueLine, is_bus_line, is_queue_line, read_queue_line};
pub use note::{QueueNote, QueueNotes};
pub use queue::Queue;
pub use text::append_queue_notes;
