//! Worked runs of the packets and of the store of packets, as tests: where a crate has tests of its own
//! it is proved twice, so these stand beside.
#![tactic(auto)]

#[cfg(test)]
mod packet_tests;
#[cfg(test)]
mod store_tests;
