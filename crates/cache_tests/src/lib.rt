//! Tests of the outcomes that are kept.
#![tactic(auto)]

#[cfg(test)]
mod kept;
#[cfg(test)]
mod late;
#[cfg(test)]
mod room;
#[cfg(test)]
mod steps;
