//! The program's edits are told by their texts: laws over `rule_edits`.
#![tactic(auto)]

mod fits;
pub mod laws;
