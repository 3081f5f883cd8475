//! Tests of requirement trees, blobs, requirements and sets of them, over public calls: rows from outside the
//! program, and each call once with memory at hand.
#![tactic(auto)]

#[cfg(test)]
mod blobs;
#[cfg(test)]
mod oids;
#[cfg(test)]
mod requirements;
#[cfg(test)]
mod rows;
#[cfg(test)]
mod sets;
#[cfg(test)]
mod trees;
