//! What went wrong with a run, for a person: the place in a text that is refused, and each fault in plain words. No
//! contract speaks of it. It is written to standard error, beside the line that `run` writes to standard output.
#![tactic(auto)]

mod ends;
mod imported;
mod line_faults;
mod mark;
mod noted;
mod refused;
mod shown;
mod text_faults;
mod usage;

pub use ends::{has_text, told};
pub use noted::{NotedShelf, Seen};
