//! The commands on requirements: `compile` and `compileset` make a blob of a text, `dump` makes a text of a blob.
#![tactic(auto)]

mod compiling;
mod compiling_sets;
mod dumping;
pub mod laws;
mod refusal;

pub use compiling::compile;
pub use compiling_sets::compile_set;
pub use dumping::dump_file;
