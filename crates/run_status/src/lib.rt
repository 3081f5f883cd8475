//! How a run ends: its statuses, what a command says, and the files that it asks for.
#![tactic(auto)]

mod fetch;
mod name_line;
mod said;
mod status;
mod stop;

pub use fetch::{Asked, fetch_file};
pub use said::Said;
pub use status::Status;
pub use stop::Stop;
