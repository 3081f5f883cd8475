//! Refusals of edits, with their numbers and printed lines.

ghost use Rattle.std.specs.Prelude.{◌≡◌, ◌+◌, ◌≤◌, ◌++◌, length};
ghost use Rattle.line_text.specs.LineText.{line_bytes};
ghost use Rattle.line_text.specs.declared.limits.TheConstants.{FRONT_LIMIT};

use crate::answer::numbers_into;
use authority_table::PlanFault;
use policy_keeper::KeepFault;
use req_tree::LineText;
use rule_values::RuleId;
use std::alloc::AllocError;

/// Why an edit was not made; the desk is as before, and so is what the keeper tells. The first of these, in the order
/// `KeyReused`, `NoRule` or `TableFull`, `ReceiptsFull`, `DisableFull`, and then `OutOfMemory` or `KeeperFault`.
#[derive(Clone, Copy, Drop)]
pub enum EditFault {
    /// Number 11: no rule is selected.
    NoRule,
    /// Number 12: the key is kept with another content.
    KeyReused {
        /// The number of the edit that is kept.
        number: u32,
        /// How many rules it touched.
        rules: u32,
    },
    /// Number 13: the table has no room for one rule more.
    TableFull,
    /// Number 14: as many edits were accepted as ever can be.
    ReceiptsFull,
    /// Number 15: a selected rule was disabled as often as can be.
    DisableFull {
        /// The least number of such a rule.
        rule: RuleId,
    },
    /// Number 16: the edit would have been accepted, and the keeper failed.
    KeeperFault,
    /// There was no memory for the change or its receipt.
    OutOfMemory,
}

impl From<AllocError> for EditFault {
    ghost use Rattle.std.specs.Prelude.{◌≡◌};
    ghost use Rattle.desk_state.specs.declared.fault.EditFault.TheVariants.{OutOfMemory};

    ghost from_gives = { λ _ fault. fault ≡ OutOfMemory };

    fn from(_error: AllocError) -> EditFault {
        EditFault::OutOfMemory
    }
}

impl From<PlanFault> for EditFault {
    ghost use Rattle.std.specs.Prelude.{◌≡◌, ◌≢◌};
    ghost use Rattle.authority_table.specs.Prepared as table;
    ghost use Rattle.desk_state.specs.declared.fault.EditFault.TheVariants.{KeeperFault};
    ghost use Rattle.desk_state.specs.Answer.{refusal_of};

    ghost from_gives = { λ refused fault. (refusal_of fault ≡ table.refusal_of refused) × (fault ≢ KeeperFault) };

    fn from(refused: PlanFault) -> EditFault {
        match refused {
            PlanFault::TableFull => EditFault::TableFull,
            PlanFault::NoRule => EditFault::NoRule,
            PlanFault::DisableFull { rule } => EditFault::DisableFull { rule },
            PlanFault::OutOfMemory => EditFault::OutOfMemory,
        }
    }
}

impl From<KeepFault> for EditFault {
    ghost use Rattle.std.specs.Prelude.{◌≡◌};
    ghost use Rattle.desk_state.specs.Keeping.{fault_after};

    ghost from_gives = { λ failed fault. fault ≡ fault_after failed };

    fn from(failed: KeepFault) -> EditFault {
        match failed {
            KeepFault::Failed => EditFault::KeeperFault,
            KeepFault::OutOfMemory => EditFault::OutOfMemory,
        }
    }
}

impl EditFault {
    ghost use Rattle.desk_state.specs.Answer.{fault_text};

    /// Appends the refusal's line, without its end; nothing where it is out of memory.
    pub fn line_into(&self, out: &mut LineText)
        requires { length (line_bytes out.old) ≤ FRONT_LIMIT }
        ensures text { line_bytes out.new ≡ line_bytes out.old ++ fault_text self.now }
        ensures length { length (line_bytes out.new) ≤ length (line_bytes out.old) + 100 }
    {
        match self {
            EditFault::NoRule => out.push_all(b"refused edit 11 NoRule"),
            EditFault::KeyReused { number, rules } => {
                out.push_all(b"refused edit 12 KeyReused");
                numbers_into(*number, *rules, out);
            }
            EditFault::TableFull => out.push_all(b"refused edit 13 TableFull"),
            EditFault::ReceiptsFull => out.push_all(b"refused edit 14 ReceiptsFull"),
            EditFault::DisableFull { rule } => {
                out.push_field(b"refused edit 15 DisableFull rule=", rule.get() as u64);
            }
            EditFault::KeeperFault => out.push_all(b"refused edit 16 KeeperFault"),
            EditFault::OutOfMemory => {}
        }
    }
}
