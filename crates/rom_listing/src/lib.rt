//! The listing of a configuration ROM whose quadlets stand in lines of digits.
#![tactic(auto)]

mod gatherer;
mod listing;
mod quadlets;

pub use gatherer::RomLister;
pub use listing::rom_tree_is_listed;
