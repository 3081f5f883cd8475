//! Tests of rehearsals: the lines that are made up, the facts, and the counts over replies.
#![tactic(auto)]

#[cfg(test)]
mod made;
#[cfg(test)]
mod tallied;
