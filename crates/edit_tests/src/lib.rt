//! Tests of edits and contents as lines, over public calls: what is read, what is refused and where, and what is printed.
#![tactic(auto)]

#[cfg(test)]
mod contents;
#[cfg(test)]
mod labels;
#[cfg(test)]
mod lines;
#[cfg(test)]
mod refusals;
