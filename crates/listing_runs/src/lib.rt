//! Worked listings of packets and of a configuration ROM, as tests: where a crate has tests of its own it
//! is proved twice, so these stand beside.
#![tactic(auto)]

#[cfg(test)]
mod calls;
#[cfg(test)]
mod packet_boundaries;
#[cfg(test)]
mod packet_tests;
#[cfg(test)]
mod rom_tests;
