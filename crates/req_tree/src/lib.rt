//! Requirement trees of the code signing requirement language, what they mean, and the small values
//! that they speak of.
#![tactic(auto)]

mod fault;
mod hash;
mod identifier;
pub mod laws;
mod limits;
mod matching;
mod oid;
mod oid_bytes;
mod oid_text;
mod req;
mod set;
mod shape;
mod shared;
mod spellable;
mod subject;

pub use fault::{OidBytesFault, OidFault};
pub use hash::{Hash20, read_hash};
pub use identifier::Identifier;
pub use limits::{MOST_DEPTH, MOST_IDENTIFIER_BYTES};
pub use line_text::{Bytes, LineText};
pub use matching::Match;
pub use oid::Oid;
pub use oid_bytes::{is_oid, oid_from_bytes};
pub use oid_text::{oid_from_text, oid_to_text};
pub use req::Req;
pub use set::ReqSet;
pub use shape::{depth, is_spoken};
pub use shared::SharedReq;
pub use spellable::{is_encodable, is_encodable_set, is_reserved};
pub use subject::Subject;
