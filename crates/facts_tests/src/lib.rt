//! Tests of facts about code, and of requirements that are evaluated by them.
#![tactic(auto)]

#[cfg(test)]
mod eval;
#[cfg(test)]
mod file;
#[cfg(test)]
mod numeric;
