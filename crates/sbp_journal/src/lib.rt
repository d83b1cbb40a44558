//! The journal: lines as events, notes, what nodes hand out, runs, and the text of a note.
#![tactic(auto)]

mod canonical;
mod cause;
mod event;
mod fields;
mod journal;
mod lines;
mod note;
mod operation;
mod outbox;
mod side;
mod text;
mod typed;
mod words;
mod writer;

pub use cause::{Cause, CutCause, Judged, TargetFault};
pub use event::{Action, Cmd, Event};
pub use fields::{push_canonical, push_status};
pub use journal::{Journal, Text};
pub use note::{Note, NoteBuffer};
pub use operation::{FunctionWord, OpWord, Operation};
pub use outbox::{Outbox, Outgoing};
pub use side::Side;
pub use text::{append_note, append_notes, put_line, put_note, write_note};
pub use writer::{LineWriter, make_room};
