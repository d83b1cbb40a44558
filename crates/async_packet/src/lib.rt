//! Asynchronous packets of the serial bus (IEEE 1394-1995): their grammar, read and written exactly.
#![tactic(auto)]

mod fault;
mod fields;
mod judging;
mod label;
mod packet;
mod reading;
mod validity;
mod writing;

pub use fault::PacketFault;
pub use fields::{label_at, tcode_at};
pub use judging::judge;
pub use label::Label;
pub use packet::{Header, PacketRef};
pub use reading::{decode, decodes_back, reads_spelling, spells_once};
pub use validity::{encoded_len, is_valid};
pub use writing::{canon_has_length, canon_spells, encode_into};
