//! Blobs and super-blobs of code signing: bytes with a magic and a length, alone and as the parts of
//! an indexed whole.
#![tactic(auto)]

mod blob;
mod fault;
pub mod laws;
mod limits;
mod number;
mod super_blob;
mod writer;

pub use blob::Blob;
pub use fault::{BlobFault, WriterFault};
pub use limits::{GREATEST_SIZE, MOST_PARTS};
pub use super_blob::SuperBlob;
pub use writer::SuperWriter;
