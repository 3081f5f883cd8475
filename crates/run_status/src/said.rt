//! What a command says.

use crate::status::Status;
use line_text::Bytes;

/// All that a command writes, its line ends too, and the status that its run then has.
#[derive(Drop)]
pub struct Said {
    pub status: Status,
    pub text: Bytes,
}
