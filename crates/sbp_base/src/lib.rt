//! What every crate of the system stands on: numbers of the bus, quadlets, bytes and lengths, want
//! of memory, and the outside that is read and written, with a count of its faults.
#![tactic(auto)]

mod bytes;
mod failing;
mod generation;
mod lengths;
mod memory;
mod node;
mod offset;
mod outside;
mod quadlets;
mod speed;

pub use bytes::Bytes;
pub use failing::FailingCalls;
pub use generation::Generation;
pub use lengths::Lengths;
pub use memory::{MemorySink, MemorySource};
pub use node::NodeId;
pub use offset::Offset;
pub use outside::{Failed, NoMemory, Sink, SinkFault, Source};
pub use quadlets::{bytes_of_quad, put_quad, quad_at, quadlets_read_back};
pub use speed::Speed;

#[cfg(test)]
mod tests;
