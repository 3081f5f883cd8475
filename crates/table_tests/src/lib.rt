//! Tests of the commands on the rules, over public calls and a keeper in memory: what each says, and with which status.
#![tactic(auto)]

#[cfg(test)]
mod commands;
#[cfg(test)]
mod imports;
#[cfg(test)]
mod pair;
