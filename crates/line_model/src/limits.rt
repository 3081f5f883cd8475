//! How long the words of a line may be.

/// How many digits a moment may have.
pub const MOMENT_DIGITS: usize = 12;

/// How many digits the number of a rule may have.
pub const RULE_DIGITS: usize = 6;

/// How many digits a priority may have before its fraction.
pub const PRIORITY_DIGITS: usize = 7;

/// How many digits the fraction of a priority may have.
pub const FRACTION_DIGITS: usize = 6;

/// The greatest priority, in whole units.
pub const GREATEST_UNITS: u64 = 1_000_000;

/// How many digits a platform's number may have.
pub const PLATFORM_DIGITS: usize = 3;

/// The greatest number of a platform.
pub const GREATEST_PLATFORM: u64 = 255;
