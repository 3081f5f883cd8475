//! Tests of stored rows that are read back: each row that is refused, each bound, and what rows mean.
#![tactic(auto)]

#[cfg(test)]
mod bounds;
#[cfg(test)]
mod meaning;
#[cfg(test)]
mod places;
#[cfg(test)]
mod receipts;
#[cfg(test)]
mod rows;
#[cfg(test)]
mod rules;
