//! Tests of sessions of a desk that knows some code, and whose keeper may fail.
#![tactic(auto)]

#[cfg(test)]
mod failing_keepers;
#[cfg(test)]
mod known_code;
#[cfg(test)]
mod sessions;
