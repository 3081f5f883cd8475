//! Tests of keepers, over public calls alone.
#![tactic(auto)]

#[cfg(test)]
mod file_tests;
#[cfg(test)]
mod memory_tests;
#[cfg(test)]
mod rows;
#[cfg(test)]
mod sql_tests;
