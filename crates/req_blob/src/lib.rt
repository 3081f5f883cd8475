//! Requirement blobs: the opcodes of the code signing requirement language, read and written.
#![tactic(auto)]

mod decoding;
mod encoding;
mod fault;
mod field;
pub mod laws;
mod leaf;
mod limits;
mod opcode;
mod round_trip;
mod size;
mod tree;
mod writing;

pub use decoding::decode;
pub use encoding::encode;
pub use fault::OpsFault;
pub use limits::MOST_BYTES;
pub use req_tree::is_encodable;
pub use round_trip::{reread, respell};
