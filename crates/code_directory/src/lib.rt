//! Code directories in an embedded signature: which one is used, the name it gives the code, its slots
//! and its pages. Nothing is verified: that a signature is genuine is nowhere asked.
#![tactic(auto)]

mod checks;
mod digest;
mod directory;
mod fault;
pub mod laws;
mod layout;
mod pages;
mod signature;

pub use fault::CodeFault;
pub use layout::{DER_ENTITLEMENTS, ENTITLEMENTS, REQUIREMENTS};
pub use signature::Signature;
