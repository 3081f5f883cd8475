//! Tests of rehearsals that are run whole.
#![tactic(auto)]

#[cfg(test)]
mod rehearsed;
