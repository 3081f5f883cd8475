//! Tests of edits on a desk whose tables a keeper keeps, over public calls alone.
#![tactic(auto)]

#[cfg(test)]
mod desk;
#[cfg(test)]
mod file_tests;
#[cfg(test)]
mod limit_tests;
#[cfg(test)]
mod memory_tests;
