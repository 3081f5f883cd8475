//! Tests of printed requirements and sets, over public calls: rows from outside the program.
#![tactic(auto)]

#[cfg(test)]
mod rows;
#[cfg(test)]
mod texts;
#[cfg(test)]
mod through;
