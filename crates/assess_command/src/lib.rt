//! An assessment of a signature file and its code: the files are checked, and a desk is asked.
#![tactic(auto)]

mod files;
pub mod laws;
mod line;

pub use line::{Assessed, assess_files};
