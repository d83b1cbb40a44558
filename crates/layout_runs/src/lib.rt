//! Worked examples of the layouts of SBP-2, as tests: where a crate has tests of its own it is proved
//! twice, so these stand beside it.
#![tactic(auto)]

#[cfg(test)]
mod orb_tests;
#[cfg(test)]
mod status_tests;
