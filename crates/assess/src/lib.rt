//! What the rules say of an assessment, by what is known of the code.
#![tactic(auto)]

pub mod ask;
mod deciding;
mod judgement;
pub mod laws;

pub use ask::Ask;
pub use deciding::decided_by;
pub use judgement::judge;
