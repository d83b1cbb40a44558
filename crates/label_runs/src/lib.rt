//! Worked runs of the labels, the filter and the transaction layer, as tests: where a crate has tests of
//! its own it is proved twice, so these stand beside it.
#![tactic(auto)]

#[cfg(test)]
mod label_tests;
#[cfg(test)]
mod layer_tests;
