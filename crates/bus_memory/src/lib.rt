//! An initiator's memory on the bus: its ROM, and for each slot an ORB, a page table and a buffer,
//! and two places of management (NCITS 325-1998; IEEE 1394-1995, read and write transactions). All
//! room is taken by `Image::new`.
#![tactic(auto)]

mod access;
mod image;
mod laws;
mod slot;
mod window;

pub use access::{Access, Rcode, Spot};
pub use image::Image;
pub use laws::{
    fifos_are_known, last_bytes_stand, own_quadlets_are_set, parts_stand, slots_are_found,
    windows_are_found,
};
pub use slot::{PlaceMemory, SlotMemory};
pub use window::Window;
