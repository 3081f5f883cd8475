//! The list of a desk's rules.

ghost use Rattle.std.specs.Prelude.{◌++◌, ◌∷◌, [], List, IfOk};
ghost use Rattle.policy_model.specs.History.{Event, Opening};
ghost use Rattle.policy_model.specs.History as event;
ghost use Rattle.rule_list.specs.ListText.{IsListText};
ghost use Rattle.desk_state.specs.Stands.{tables, Stands};

use crate::desk::Desk;
use object_model::laws::a_desk_goes_on_standing;
use req_tree::Bytes;
use std::alloc::{AllocError, Global};

impl Desk {
    /// A line for each rule, by kind, and within a kind the rule that is tried first in front.
    pub fn list_text(&self, alloc: Global) -> Result<Bytes, AllocError>
        ensures text { IfOk result (λ text. IsListText (tables self.now).rows text) }

        // After any history of this desk.
        ensures stands { (o : Opening) (h : List Event) → Stands self.now o h → Stands self.now o (h ++ event.look ∷ []) }
    {
        a_desk_goes_on_standing();
        rule_list::list_text(alloc, &self.table)
    }
}
