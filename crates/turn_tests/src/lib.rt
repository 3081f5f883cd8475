//! Tests of the turn lock and of the callers that count.
#![tactic(auto)]

#[cfg(test)]
mod tests;
