//! The place of a certificate in the chain of its code.

ghost use Rattle.std.specs.Prelude.{◌<◌};
ghost use Rattle.fact_values.specs.declared.limits.TheConstants.{MOST_CERTIFICATES};

use fact_values::MOST_CERTIFICATES;

/// A certificate's place, which counts from the leaf at 0.
#[derive(Clone, Copy, Debug, Drop)]
pub struct Slot {
    pub number: u32,
    pub ghost small: { number < MOST_CERTIFICATES },
}
