//! Why an edit can't be planned.

use rule_values::RuleId;
use std::alloc::AllocError;

/// The first of these, in this order; the table is as before. Only `OutOfMemory` comes after memory was asked for.
#[derive(Clone, Copy, Drop)]
pub enum PlanFault {
    /// The table has no room for one rule more.
    TableFull,
    /// No rule is selected.
    NoRule,
    /// A selected rule was disabled as often as can be: the one of the least number.
    DisableFull { rule: RuleId },
    OutOfMemory,
}

impl From<AllocError> for PlanFault {
    ghost use Rattle.std.specs.Prelude.{◌≡◌};
    ghost use Rattle.authority_table.specs.declared.fault.PlanFault.TheVariants.{OutOfMemory};

    ghost from_gives = { λ _ fault. fault ≡ OutOfMemory };

    fn from(_error: AllocError) -> PlanFault {
        PlanFault::OutOfMemory
    }
}
