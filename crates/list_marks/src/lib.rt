//! Short numbers beside the items of a list, by which some items are found without a look at the others.
#![tactic(auto)]

mod mark;
mod search;
mod span;

pub use mark::mark_of;
pub use search::marked_span;
pub use span::Span;
