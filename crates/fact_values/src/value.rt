//! The value of a key.

use crate::texts::Texts;
use req_tree::Bytes;

/// What a field of a certificate, an entry of Info or an entitlement says.
#[derive(Debug, Drop)]
pub enum Value {
    Text(Bytes),
    Flag(bool),
    /// A list of texts. One without members, which no file of facts makes, answers no test.
    Many(Texts),
}
