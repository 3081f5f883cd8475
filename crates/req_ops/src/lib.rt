//! Requirements and sets of requirements as bytes, read and written. Single ones are those of `req_blob`.
#![tactic(auto)]

mod decoding;
mod encoding;
mod fault;
pub mod laws;
mod round_trip;

pub use decoding::decode_set;
pub use encoding::encode_set;
pub use fault::SetFault;
pub use req_blob::{OpsFault, decode, encode, reread, respell};
pub use req_tree::{is_encodable, is_encodable_set};
pub use round_trip::{reread_set, respell_set};
