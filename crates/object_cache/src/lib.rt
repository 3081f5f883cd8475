//! Outcomes that are kept, so that an assessment asked again is not judged again.
#![tactic(auto)]

mod entry;
mod late_ranks;
mod marks;
mod objects;
mod offered;

pub use entry::Entry;
pub use objects::Objects;
pub use offered::Offered;
