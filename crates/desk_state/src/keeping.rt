//! A receipt that is kept by the desk and by its keeper.

ghost use Rattle.std.specs.Prelude.{◌≡◌, ◌<◌, ◌≤◌, ◌++◌, [], ◌∷◌, length, None, OnOk, OnErr, IsErrOf};
ghost use Rattle.gk_io.specs.Faults.{Rose};
ghost use Rattle.policy_model.specs.declared.limits.TheConstants.{MOST_RECEIPTS};
ghost use Rattle.policy_model.specs.Edits.{kept};
ghost use Rattle.rule_edits.specs.EditKey.{key_bytes};
ghost use Rattle.edit_receipts.specs.Receipts.{receipts_of};
ghost use Rattle.policy_keeper.specs.Told.{Applies, CanApply};
ghost use Rattle.policy_keeper.specs.Change.{change_of};

use edit_receipts::{Receipt, Receipts};
use policy_keeper::{Change, KeepFault, Keeper};
use std::alloc::Global;

/// Keeps a receipt here, and its change in the keeper, or neither.
pub(crate) fn keep_receipt<K: Keeper>(
    receipts: &mut Receipts,
    alloc: Global,
    keeper: &mut K,
    receipt: Receipt,
    change: &Change,
) -> Result<(), KeepFault>
    requires room { length receipts.old < MOST_RECEIPTS }
    requires new { kept (receipts_of receipts.old) (key_bytes receipt.key) ≡ None }
    requires can { CanApply (K.told keeper.old) (change_of change.now) }
    ensures ok { OnOk result (receipts.new ≡ receipts.old ++ receipt ∷ []) }
    ensures err { OnErr result (receipts.new ≡ receipts.old) }
    ensures applies { Applies (K.told keeper.old) (K.told keeper.new) (change_of change.now) result }
    ensures later { K.faults keeper.old ≤ K.faults keeper.new }
    ensures cause { IsErrOf result KeepFault.Failed → Rose (K.faults keeper.old) (K.faults keeper.new) }
    ensures steady { (IsErrOf result KeepFault.Failed → ⊥) → K.faults keeper.new ≡ K.faults keeper.old }
{
    match receipts.push(receipt) {
        Err(_) => Err(KeepFault::OutOfMemory),
        Ok(()) => match keeper.apply(alloc, change) {
            Ok(()) => Ok(()),
            Err(fault) => {
                let _receipt = receipts.pop();
                Err(fault)
            }
        },
    }
}
