//! Worked runs of the top call, as tests over objects in memory: where a crate has tests of its own it is
//! proved twice, so these stand beside.
#![tactic(auto)]

#[cfg(test)]
mod calls;
#[cfg(test)]
mod cases;
#[cfg(test)]
mod drill_tests;
#[cfg(test)]
mod example_tests;
#[cfg(test)]
mod failing_tests;
#[cfg(test)]
mod limit_tests;
#[cfg(test)]
mod listing_tests;
#[cfg(test)]
mod long_tests;
#[cfg(test)]
mod queue_tests;
#[cfg(test)]
mod queue_texts;
#[cfg(test)]
mod scripts;
#[cfg(test)]
mod task_tests;
#[cfg(test)]
mod task_texts;
#[cfg(test)]
mod texts;
#[cfg(test)]
mod wild_tests;
#[cfg(test)]
mod wild_texts;
#[cfg(test)]
mod world_tests;
