//! The desk: its rules, its receipts and its moment.

ghost use Rattle.std.specs.Prelude.{◌≡◌, ◌++◌, [], ◌∷◌, List, max, length};
ghost use Rattle.std.specs.Arc.{arc_value};
ghost use Rattle.code_facts.specs.Tables.{table_facts};
ghost use Rattle.rule_values.specs.Rule.{rows_of};
ghost use Rattle.policy_model.specs.History.{HasOwnIds};
ghost use Rattle.edit_receipts.specs.Receipts.{receipts_of};
ghost use Rattle.object_model.specs.declared.limits.TheConstants.{MOST_ENTRIES};
ghost use Rattle.object_model.specs.Once.{fresh_desk_once};
ghost use Rattle.object_model.specs.Stands.{IsFreshDesk};
ghost use Rattle.object_cache.specs.Objects.{room_of, counts};
ghost use Rattle.desk_state.specs.Holds.{plain_of};
ghost use Rattle.desk_state.specs.Cache.{AreAtMost};
ghost use Rattle.store_model.specs.Kept.{IsKept};

mod assessing;
mod editing;
mod judging;
mod listing;
mod loading;
mod planning;

use crate::status::DeskStatus;
use authority_table::Table;
use code_facts::FactTable;
use edit_receipts::Receipts;
use object_cache::Objects;
use object_model::laws::{
    a_desk_goes_on_standing, a_desk_is_fresh, ended_entries_may_stay,
    what_was_judged_is_of_the_desk,
};
use policy_model::laws::history_goes_on;
use rule_values::Moment;
use std::sync::Arc;

/// Decides which code may be executed, installed or opened, by its rules.
#[derive(Drop)]
pub struct Desk {
    table: Table,
    receipts: Receipts,
    /// Whether assessments are switched on.
    enabled: bool,
    /// The greatest moment that was handed in.
    moment: Moment,
    /// What is known of code.
    facts: Arc<FactTable>,
    /// What is kept of earlier assessments.
    objects: Objects,
    ghost own_ids: { HasOwnIds (record { rows = rows_of table; receipts = receipts_of receipts; enabled = enabled }) },
    ghost kept: { ∥ IsKept (record { rows = rows_of table; receipts = receipts_of receipts; enabled = enabled }) ∥₁ },
    ghost room: { room_of objects ≡ MOST_ENTRIES },
    ghost marks: { AreAtMost (length receipts) (counts objects) },
    ghost fresh: { IsFreshDesk (plain_of (record { rows = rows_of table; receipts = receipts_of receipts; enabled = enabled }) (table_facts (arc_value facts)) moment objects) } by { fresh_desk_once (plain_of (record { rows = rows_of table; receipts = receipts_of receipts; enabled = enabled }) (table_facts (arc_value facts)) moment objects) },
}

impl Desk {
    ghost use Rattle.policy_model.specs.History.{Event, Opening, now_of};
    ghost use Rattle.policy_model.specs.History as event;
    ghost use Rattle.desk_state.specs.Status.{IsStatus};
    ghost use Rattle.object_model.specs.OfDesk.{KeepsOf};
    ghost use Rattle.desk_state.specs.Stands.{tables, moment_of, facts_of, plain, Stands};

    /// Hands in a moment; gives the greatest one so far.
    pub fn tick(&mut self, at: Moment) -> Moment
        ensures moment { moment_of self.new ≡ max (moment_of self.old) at }
        ensures gives { result ≡ moment_of self.new }
        ensures tables { tables self.new ≡ tables self.old }
        ensures facts { facts_of self.new ≡ facts_of self.old }
        ensures of_desk { KeepsOf (plain self.old) (plain self.new) }

        // After any history of this desk.
        ensures stands { (o : Opening) (h : List Event) → Stands self.old o h → Stands self.new o (h ++ event.tick at ∷ []) }
        ensures legal { (o : Opening) (h : List Event) → Stands self.old o h → result ≡ now_of o (h ++ event.tick at ∷ []) }
    {
        history_goes_on();
        a_desk_goes_on_standing();
        a_desk_is_fresh();
        what_was_judged_is_of_the_desk();
        ended_entries_may_stay();
        self.moment = later(self.moment, at);
        self.moment
    }

    /// The state of the desk in numbers.
    pub fn status(&self) -> DeskStatus
        ensures is { IsStatus self.now result }

        // After any history of this desk.
        ensures stands { (o : Opening) (h : List Event) → Stands self.now o h → Stands self.now o (h ++ event.look ∷ []) }
    {
        a_desk_goes_on_standing();
        DeskStatus {
            enabled: self.enabled,
            rules: self.table.count(),
            receipts: self.receipts.count(),
            objects: self.objects.live(self.moment),
            now: self.moment,
        }
    }
}

/// The greater of two moments.
fn later(one: Moment, other: Moment) -> Moment
    ensures { result ≡ max one other }
{
    if one < other { other } else { one }
}
