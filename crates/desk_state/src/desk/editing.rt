//! Edits of a desk, which a keeper keeps.

ghost use Rattle.std.specs.Prelude.{◌≡◌, ◌<◌, ◌≤◌, ◌++◌, ◌∷◌, [], List, length, Some, None, IfOk, OnErr, IfSome, IsSome, IsNone, IsErrOf};
ghost use Rattle.gk_io.specs.Faults.{Rose};
ghost use Rattle.policy_model.specs.declared.limits.TheConstants.{MOST_RECEIPTS};
ghost use Rattle.policy_model.specs.Edits.{kept};
ghost use Rattle.policy_model.specs.Edits as policy_edits;
ghost use Rattle.policy_model.specs.Tables.{done};
ghost use Rattle.policy_model.specs.History.{Event, Opening, HasOwnIds, edit_answer};
ghost use Rattle.policy_model.specs.History as event;
ghost use Rattle.rule_values.specs.Rule.{rows_of};
ghost use Rattle.rule_edits.specs.Edit.{edit_of};
ghost use Rattle.edit_receipts.specs.Receipts.{receipt_of};
ghost use Rattle.store_model.specs.Kept.{IsKept};
ghost use Rattle.store_model.specs.Change.{Takes};
ghost use Rattle.policy_keeper.specs.Change.{change_of};
ghost use Rattle.policy_keeper.specs.Mirror.{Mirrors, Follows};
ghost use Rattle.desk_state.specs.Answer.{answer_of, given};
ghost use Rattle.object_model.specs.OfDesk.{KeepsOf};
ghost use Rattle.object_model.specs.Stands.{IsFreshDesk};
ghost use Rattle.desk_state.specs.Keeping.{IsEdited, desk_with_plan};
ghost use Rattle.desk_state.specs.Ready.{IsReadyFor, MakesReady};
ghost use Rattle.desk_state.specs.Plan.{IsFor, rows_by, with_plan, carried_out, next_receipt};
ghost use Rattle.desk_state.specs.Cache.{purged_so};
ghost use Rattle.desk_state.specs.Stands.{tables, moment_of, facts_of, cache_of, plain, Stands};

use crate::answer::Answer;
use crate::desk::Desk;
use crate::fault::EditFault;
use crate::fits::edit_fits;
use crate::keeping::keep_receipt;
use crate::plan::Plan;
use crate::purging::purge;
use crate::ready::Ready;
use authority_table::{Prepared, Table};
use edit_laws::laws::a_content_fits_a_line;
use edit_receipts::Receipt;
use object_model::laws::{
    a_desk_goes_on_standing, a_desk_is_fresh, first_ranks_purge, what_was_judged_is_of_the_desk,
};
use policy_keeper::laws::mirrored_tables_can_change;
use policy_keeper::{Change, Keeper};
use policy_model::laws::ids_stay_own;
use rule_edits::{Edit, content_is, content_text};
use std::alloc::{AllocError, Global};
use store_model::laws::{change_is_edit, stored_tables};

impl Desk {
    /// Makes an edit and has the keeper keep it, or says that it was made before, or refuses it. All memory is taken
    /// before the keeper is asked, and nothing can fail once it has kept the edit.
    pub fn edit<K: Keeper>(
        &mut self,
        alloc: Global,
        keeper: &mut K,
        edit: &Edit,
    ) -> Result<Answer, EditFault>
        requires mirrors { Mirrors (K.told keeper.old) (tables self.old) }
        ensures edited { IsEdited (edit_of edit.now) (plain self.old) (plain self.new) (given result) }
        ensures mirrors { Mirrors (K.told keeper.new) (tables self.new) }
        ensures telling { IsSome (K.told keeper.new) → IsSome (K.told keeper.old) }
        ensures of_desk { KeepsOf (plain self.old) (plain self.new) }

        // After any history of this desk.
        ensures legal { (o : Opening) (h : List Event) → Stands self.old o h → IfSome (given result) (λ answer. answer ≡ edit_answer o h (edit_of edit.now)) }
        ensures stands { (o : Opening) (h : List Event) → IsSome (given result) → Stands self.old o h → Stands self.new o (h ++ event.edit (edit_of edit.now) ∷ []) }
        ensures failed { (o : Opening) (h : List Event) → IsErrOf result EditFault.KeeperFault → Stands self.old o h → Stands self.new o (h ++ event.edit_failed (edit_of edit.now) ∷ []) }
        ensures starved { (o : Opening) (h : List Event) → IsErrOf result EditFault.OutOfMemory → Stands self.old o h → Stands self.new o (h ++ event.edit_starved (edit_of edit.now) ∷ []) }
        ensures unchanged { (o : Opening) (h : List Event) → IsNone (given result) → Stands self.old o h → Stands self.new o h }

        // A failure of the keeper shows in its count, which never falls, and nothing else moves it.
        ensures later { K.faults keeper.old ≤ K.faults keeper.new }
        ensures cause { IsErrOf result EditFault.KeeperFault → Rose (K.faults keeper.old) (K.faults keeper.new) }
        ensures steady { (IsErrOf result EditFault.KeeperFault → ⊥) → K.faults keeper.new ≡ K.faults keeper.old }
    {
        a_desk_goes_on_standing();
        what_was_judged_is_of_the_desk();
        self.make(alloc, keeper, edit)
    }

    fn make<K: Keeper>(
        &mut self,
        alloc: Global,
        keeper: &mut K,
        edit: &Edit,
    ) -> Result<Answer, EditFault>
        requires mirrors { Mirrors (K.told keeper.old) (tables self.old) }
        ensures edited { IsEdited (edit_of edit.now) (plain self.old) (plain self.new) (given result) }
        ensures mirrors { Mirrors (K.told keeper.new) (tables self.new) }
        ensures telling { IsSome (K.told keeper.new) → IsSome (K.told keeper.old) }
        ensures later { K.faults keeper.old ≤ K.faults keeper.new }
        ensures cause { IsErrOf result EditFault.KeeperFault → Rose (K.faults keeper.old) (K.faults keeper.new) }
        ensures steady { (IsErrOf result EditFault.KeeperFault → ⊥) → K.faults keeper.new ≡ K.faults keeper.old }
    {
        first_ranks_purge();
        match self.receipts.find(&edit.key) {
            Some(receipt) => at_kept(receipt, edit),
            None => self.accept(alloc, keeper, edit),
        }
    }

    /// Makes an edit under a new key, or refuses it.
    fn accept<K: Keeper>(
        &mut self,
        alloc: Global,
        keeper: &mut K,
        edit: &Edit,
    ) -> Result<Answer, EditFault>
        requires new { kept (tables self.old).receipts (edit_of edit.now).key ≡ None }
        requires mirrors { Mirrors (K.told keeper.old) (tables self.old) }
        ensures edited { IsEdited (edit_of edit.now) (plain self.old) (plain self.new) (given result) }
        ensures mirrors { Mirrors (K.told keeper.new) (tables self.new) }
        ensures telling { IsSome (K.told keeper.new) → IsSome (K.told keeper.old) }
        ensures later { K.faults keeper.old ≤ K.faults keeper.new }
        ensures cause { IsErrOf result EditFault.KeeperFault → Rose (K.faults keeper.old) (K.faults keeper.new) }
        ensures steady { (IsErrOf result EditFault.KeeperFault → ⊥) → K.faults keeper.new ≡ K.faults keeper.old }
    {
        ids_stay_own();
        a_desk_is_fresh();
        first_ranks_purge();
        stored_tables();
        edit_fits(edit);
        let ready = self.ready(alloc, edit)?;
        self.carry_out(alloc, keeper, ready)
    }

    /// All that an edit under a new key needs, or why it is refused.
    fn ready(&self, alloc: Global, edit: &Edit) -> Result<Ready, EditFault>
        requires new { kept (tables self.now).receipts (edit_of edit.now).key ≡ None }
        ensures ready { MakesReady result (edit_of edit.now) (tables self.now) }
        ensures asked { IsErrOf result EditFault.KeeperFault → ⊥ }
    {
        let plan = self.plan(alloc, &edit.content)?;
        let receipt = self.receipt(alloc, edit, plan.count())?;
        let copy = edit.copied(alloc)?;
        let change = Change {
            number: receipt.number,
            edit: copy,
            touched: receipt.rules,
        };
        Ok(Ready {
            plan,
            receipt,
            change,
        })
    }

    /// The receipt of an edit that is about to be made.
    fn receipt(&self, alloc: Global, edit: &Edit, rules: u32) -> Result<Receipt, AllocError>
        ensures { IfOk result (λ receipt. receipt_of receipt ≡ next_receipt (edit_of edit.now) rules (tables self.now)) }
    {
        let content = content_text(alloc, &edit.content)?;
        Ok(Receipt {
            number: self.receipts.count() + 1,
            key: edit.key.copied(),
            content,
            rules,
        })
    }

    /// Makes an edit that is ready, and has the keeper keep it, or neither.
    fn carry_out<K: Keeper>(
        &mut self,
        alloc: Global,
        keeper: &mut K,
        ready: Ready,
    ) -> Result<Answer, EditFault>
        requires few { length (tables self.old).receipts < MOST_RECEIPTS }
        requires new { kept (tables self.old).receipts (receipt_of ready.receipt).key ≡ None }
        requires fits { IsFor ready.plan.rows (tables self.old).rows }
        requires own { HasOwnIds (with_plan ready.plan ready.receipt (tables self.old)) }
        requires kept { ∥ IsKept (with_plan ready.plan ready.receipt (tables self.old)) ∥₁ }
        requires fresh { IsFreshDesk (desk_with_plan ready.plan ready.receipt (plain self.old)) }
        requires takes { Takes (tables self.old) (change_of ready.change) }
        requires mirrors { Mirrors (K.told keeper.old) (tables self.old) }
        ensures answers { IfOk result (λ answer. answer_of answer ≡ done (change_of ready.change).number (change_of ready.change).touched) }
        ensures starved { OnErr result (given result ≡ None) }
        ensures tables { tables self.new ≡ carried_out result ready.plan ready.receipt (tables self.old) }
        ensures cache { cache_of self.new ≡ purged_so result ready.plan.rows (cache_of self.old) }
        ensures moment { moment_of self.new ≡ moment_of self.old }
        ensures facts { facts_of self.new ≡ facts_of self.old }
        ensures follows { Follows (K.told keeper.new) (tables self.old) (change_of ready.change) result }
        ensures telling { IsSome (K.told keeper.new) → IsSome (K.told keeper.old) }
        ensures later { K.faults keeper.old ≤ K.faults keeper.new }
        ensures cause { IsErrOf result EditFault.KeeperFault → Rose (K.faults keeper.old) (K.faults keeper.new) }
        ensures steady { (IsErrOf result EditFault.KeeperFault → ⊥) → K.faults keeper.new ≡ K.faults keeper.old }
    {
        mirrored_tables_can_change();
        change_is_edit();
        a_content_fits_a_line(&ready.change.edit.content);
        let Ready {
            plan,
            receipt,
            change,
        } = ready;
        let Plan { rows, enabled } = plan;
        let answer = Answer {
            repeated: false,
            number: change.number,
            rules: change.touched,
        };
        keep_receipt(&mut self.receipts, alloc, keeper, receipt, &change)?;
        purge(&mut self.objects, &rows);
        commit(&mut self.table, rows);
        self.enabled = enabled;
        Ok(answer)
    }
}

/// Makes a change of the rules, if there is one.
fn commit(table: &mut Table, rows: Option<Prepared>)
    requires { IsFor rows (rows_of table.old) }
    ensures { rows_of table.new ≡ rows_by rows (rows_of table.old) }
{
    match rows {
        None => {}
        Some(rows) => table.commit(rows),
    }
}

/// The answer to an edit under a key that is kept.
fn at_kept(receipt: &Receipt, edit: &Edit) -> Result<Answer, EditFault>
    ensures answers { given result ≡ Some (policy_edits.at_kept (receipt_of receipt.now) (edit_of edit.now)) }
    ensures asked { IsErrOf result EditFault.KeeperFault → ⊥ }
{
    let number = receipt.number;
    let rules = receipt.rules;
    if content_is(&edit.content, receipt.content.as_slice()) {
        Ok(Answer {
            repeated: true,
            number,
            rules,
        })
    } else {
        Err(EditFault::KeyReused { number, rules })
    }
}
