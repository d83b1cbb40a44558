//! Worked runs of the target of the unordered unit, as tests: packets in, packets and what is told beside
//! them out. Where a crate has tests of its own it is proved twice, so these stand beside it.
#![tactic(auto)]

#[cfg(test)]
mod bench;
#[cfg(test)]
mod course;
#[cfg(test)]
mod course_tests;
#[cfg(test)]
mod side;
#[cfg(test)]
mod texts;
