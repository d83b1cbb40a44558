//! Worked runs of the page tables, the configuration ROM, the logins with their management, the sessions,
//! and an initiator's memory and lists, as tests: where a crate has tests of its own it is proved twice,
//! so these stand beside.
#![tactic(auto)]

#[cfg(test)]
mod list_tests;
#[cfg(test)]
mod login_tests;
#[cfg(test)]
mod management_tests;
#[cfg(test)]
mod memory_tests;
#[cfg(test)]
mod page_table_tests;
#[cfg(test)]
mod rom_tests;
#[cfg(test)]
mod session_tests;
