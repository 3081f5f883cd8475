//! Tests of the top call: sessions from outside, and devices, limits and memory that fail.
#![tactic(auto)]

#[cfg(test)]
mod assessments;
#[cfg(test)]
mod commands;
#[cfg(test)]
mod devices;
#[cfg(test)]
mod edits;
#[cfg(test)]
mod failures;
#[cfg(test)]
mod files;
#[cfg(test)]
mod kept_outcomes;
#[cfg(test)]
mod limits;
#[cfg(test)]
mod long_files;
#[cfg(test)]
mod misfits;
#[cfg(test)]
mod overlaps;
#[cfg(test)]
mod sessions;
#[cfg(test)]
mod slots;
#[cfg(test)]
mod stores;
#[cfg(test)]
mod transcripts;
