//! Lines in, lines out: an input that is read by pieces, served line by line, and whose text is
//! written when a read would follow, from 64 KiB on, and at the end.
#![tactic(auto)]

mod line;
mod serve;
mod session;
mod status;
mod write;

pub use serve::{LineError, Serve};
pub use session::serve_lines;
pub use status::Status;
pub use write::write_all;
