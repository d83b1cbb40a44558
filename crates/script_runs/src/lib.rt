//! Worked lines of scripts and of a drill, as tests: where a crate has tests of its own it is proved twice,
//! so these stand beside script_text.
#![tactic(auto)]

#[cfg(test)]
mod drill_tests;
#[cfg(test)]
mod line_tests;
