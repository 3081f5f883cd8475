//! Tests of requirement text, over public calls: rows from outside the program, and each limit on both sides.
#![tactic(auto)]

#[cfg(test)]
mod limits;
#[cfg(test)]
mod refusals;
#[cfg(test)]
mod rows;
#[cfg(test)]
mod sets;
#[cfg(test)]
mod texts;
#[cfg(test)]
mod token_rows;
