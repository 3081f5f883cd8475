//! The one answer of a device that failed.

/// The device failed in this call. What it holds is as the call's contract says; why it failed isn't told.
#[derive(Clone, Copy, PartialEq, Eq)]
pub struct Failed;
