//! Whether a requirement holds of code, by what is known of it.
#![tactic(auto)]

mod certs;
mod known;
mod matching;
mod meaning;

pub use matching::matches;
pub use meaning::eval;
