//! A line as its words, what a single word stands for, and why a line isn't read.
#![tactic(auto)]

mod cursor;
mod fault;
mod flags;
mod number;
mod reading;
mod selecting;
mod split;
mod word_text;

pub use cursor::Cursor;
pub use fault::LineFault;
pub use flags::Flags;
pub use number::read_number;
pub use reading::{
    read_allow, read_any_kind, read_expiry, read_flags, read_identifier, read_kind, read_label,
    read_moment, read_name, read_platform, read_priority, read_rule, read_switch,
};
