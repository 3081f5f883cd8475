//! The outside: bytes that come and go, files, the time, how a device fails, and the forms in memory that tests
//! run on.
#![tactic(auto)]

mod call_numbers;
mod clock;
mod fault;
mod file_shelf;
pub mod laws;
mod memory_clock;
mod memory_shelf;
mod memory_sink;
mod memory_source;
mod shelf;
mod sink;
mod source;
mod std_sink;
mod std_source;
mod system_clock;
mod whole_file;

pub use call_numbers::CallNumbers;
pub use clock::Clock;
pub use fault::Failed;
pub use file_shelf::FileShelf;
pub use line_text::LineText;
pub use memory_clock::MemoryClock;
pub use memory_shelf::{MemoryFile, MemoryShelf};
pub use memory_sink::MemorySink;
pub use memory_source::MemorySource;
pub use shelf::{Fetched, Shelf, ShelfFault};
pub use sink::Sink;
pub use source::Source;
pub use std_sink::StdSink;
pub use std_source::StdSource;
pub use system_clock::SystemClock;
pub use whole_file::read_whole;
