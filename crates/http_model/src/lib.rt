//! HTTP/1.1 requests on a stream of bytes, what they ask for, and the replies to them: definitions, and laws over them.
#![tactic(auto)]

pub mod laws;
pub mod limits;
