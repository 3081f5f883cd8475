//! Tests of rules, edits and the desk.
#![tactic(auto)]

#[cfg(test)]
mod contents;
#[cfg(test)]
mod edits;
#[cfg(test)]
mod kept_desk;
#[cfg(test)]
mod limits;
#[cfg(test)]
mod made;
#[cfg(test)]
mod rules;
