//! Tests of imports and of the list of rules, over public calls: what is read of a file, what is refused and where, and
//! what is printed of the rules that it makes.
#![tactic(auto)]

#[cfg(test)]
mod refusals;
#[cfg(test)]
mod rows;
