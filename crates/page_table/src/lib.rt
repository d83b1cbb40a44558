//! The buffer of an ORB as the segments of its page table, and the chunks in which its bytes are
//! moved.
#![tactic(auto)]

mod fault;
mod laws;
mod read;
mod segment;
mod table;

pub use fault::PageFault;
pub use laws::{chunk_is_in_place, chunks_in_turn, chunks_join_to_the_buffer};
pub use segment::Chunk;
pub use table::{SegmentTable, elements};
