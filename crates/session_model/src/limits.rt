//! The limits of begun assessments.

/// At most so many assessments are begun and not finished.
pub const MOST_SLOTS: usize = 50;

/// How many digits the number of a begun assessment may have.
pub const SLOT_DIGITS: usize = 6;

/// The greatest number of a begun assessment.
pub const GREATEST_SLOT: u64 = 999_999;
