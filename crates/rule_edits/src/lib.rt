//! Edits of the rules: what they ask for, and the canonical text of that.
#![tactic(auto)]

pub mod edit;
pub mod edit_key;
mod front;
pub mod new_rule;
mod operands;
mod read;
mod requirement;
pub mod text;
mod verb;

pub use edit::{Content, Edit};
pub use edit_key::EditKey;
pub use front::{Front, Terms};
pub use line_words::LineFault;
pub use new_rule::NewRule;
pub use read::{read_content, read_edit, read_edit_line};
pub use requirement::read_requirement;
pub use text::{content_is, content_text};
