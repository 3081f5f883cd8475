//! Where a run's desk begins: the facts of a file, if one is named, and the tables of a keeper.
#![tactic(auto)]

mod facts;
pub mod laws;
mod limits;
mod opening;
mod store_line;
mod unopened;

pub use limits::MOST_FACTS_BYTES;
pub use opening::open_desk;
pub use unopened::Unopened;
