//! A part of a list.

/// From a place, up to another.
#[derive(Clone, Copy, Drop)]
pub struct Span {
    pub from: usize,
    pub to: usize,
}
