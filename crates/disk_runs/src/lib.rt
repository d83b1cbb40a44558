//! Worked runs of units over each medium, and of bays, as tests: where a crate has tests of its own it is
//! proved twice, so these stand beside rbc_disk and media_bay.
#![tactic(auto)]

#[cfg(test)]
mod bay_tests;
#[cfg(test)]
mod call_tests;
#[cfg(test)]
mod case;
#[cfg(test)]
mod counted_calls;
#[cfg(test)]
mod counted_disc;
#[cfg(test)]
mod unit_tests;
