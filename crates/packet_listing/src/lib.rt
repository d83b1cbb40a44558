//! The listing of packets: a line of text for each line of digits.
#![tactic(auto)]

mod lister;
mod packet;
mod start;

pub use lister::PacketLister;
