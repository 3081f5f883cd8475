//! The requirement language whole: bytes to text, and back.
#![tactic(auto)]

pub mod laws;
mod printing;
mod through;
mod through_sets;

pub use printing::{text_of, text_of_set};
pub use through::{LanguageFault, blob_of, through_text};
pub use through_sets::{SetLanguageFault, blob_of_set, through_text_set};
