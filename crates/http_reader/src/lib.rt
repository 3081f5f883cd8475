//! A source cut into requests: heads read in pieces, with no more held than a head may have, and bodies read as they come.
#![tactic(auto)]

mod body;
mod head;
mod lines;
mod parts;
mod pending;
mod plain;
mod reading;

pub use body::{BodyFault, read_body};
pub use head::{Looked, look};
pub use parts::{body_length, closes};
pub use pending::Pending;
pub use plain::{StreamEnd, end_of_stream};
pub use reading::{HeadRead, read_head};
