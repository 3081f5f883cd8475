//! The list of all rules, in the order in which they were added.

ghost use Rattle.std.specs.Prelude.{◌≡◌, ◌≢◌, ◌<◌, ◌≤◌, ◌↔◌, ◌+◌, ◌==◌, ℕ, max, List, [], ◌∷◌, ◌++◌, length, IsTrue, IfOk, IfErr, IfSome, OnOk, OnErr, vec_capacity};
ghost use Rattle.std.specs.Arc.{arc_value};
ghost use Rattle.req_tree.specs.Facts as f;
ghost use Rattle.req_tree.specs.Facts.{known_of};
ghost use Rattle.fact_values.specs.Knowledge.{known_in};
ghost use Rattle.req_tree.specs.Subject.{subject_of};
ghost use Rattle.policy_model.specs.declared.limits.TheConstants.{MOST_RULES};
ghost use Rattle.rule_values.specs.Kind.{kind_of};

use crate::fault::PlanFault;
use crate::first_rules::FirstRules;
use crate::found::Found;
use crate::prepared::{Prepared, Step};
use crate::rules::Rules;
use crate::tally::{refused, tallied};
use crate::touched::Touched;
use fact_values::Facts;
use held_rules::{HeldRule, Room, changes, pushed, reserve_mark, rises_with, room_behind};
use list_marks::mark_of;
use policy_model::limits::MOST_RULES;
use req_tree::Subject;
use rule_values::{Kind, Moment, RowChange, Rule, RuleId, Selector};
use std::alloc::{AllocError, Global};
use std::marker::Model;
use std::sync::Arc;

/// Up to `MOST_RULES` rules.
#[derive(Drop)]
pub struct Table {
    rules: Vec<HeldRule>,
    /// The mark of each rule's label.
    marks: Vec<u32>,
    /// The numbers of the rules are known to rise.
    rising: bool,
    alloc: Global,
}

impl Model for Table {
    ghost use Rattle.std.specs.Prelude.{List};
    ghost use Rattle.authority_table.specs.Held.{IsHeld};
    ghost use Rattle.std.specs.Coded.{coded_list};
    ghost use Rattle.rule_values.specs.declared.rule.Rule.{Rule};
    ghost use Rattle.rule_values.specs.contracts.rule.Rule as rule_contract;

    ghost Value = { List Rule };

    ghost coded = { coded_list rule_contract.the_row.coded };

    ghost view = { λ t. t.rules.items };

    ghost invariant = { λ t. IsHeld t.rules t.marks t.rising };
}

impl Table {
    ghost use Rattle.std.specs.List.{find, list_any};
    ghost use Rattle.std.specs.Option.{option_or};
    ghost use Rattle.policy_model.specs.Contents.{NewRow, add, disable};
    ghost use Rattle.policy_model.specs.Changes.{selects, rows_after, touched_by};
    ghost use Rattle.policy_model.specs.Refusals.{full_rows, least_id, refused_by_rows, refused_by_count};
    ghost use Rattle.authority_table.specs.declared.fault.PlanFault.TheVariants.{OutOfMemory};
    ghost use Rattle.rule_values.specs.Rule.{row_of};
    ghost use Rattle.authority_table.specs.Found.{IsFound, row_found};
    ghost use Rattle.rule_values.specs.Selector.{selector_of, content_by};
    ghost use Rattle.authority_table.specs.Prepared.{refusal_in, IsPlanFor, planned, IsPlan};

    pub fn new(alloc: Global) -> Table
        ensures { result ≡ [] }
    {
        Table {
            rules: Vec::new(alloc),
            marks: Vec::new(alloc),
            rising: true,
            alloc,
        }
    }

    pub fn count(&self) -> u32
        ensures count { result ≡ length self.now }
        ensures room { result ≤ MOST_RULES }
    {
        self.rules.len() as u32
    }

    pub fn is_full(&self) -> bool
        ensures full { IsTrue result ↔ (length self.now ≡ MOST_RULES) }
        ensures room { length self.now ≤ MOST_RULES }
    {
        self.rules.len() == MOST_RULES
    }

    /// Adds a rule behind all others; where there is no memory, the table is as before.
    pub fn push(&mut self, rule: Rule) -> Result<(), AllocError>
        requires { length self.old < MOST_RULES }
        ensures ok { OnOk result (self.new ≡ self.old ++ rule ∷ []) }
        ensures err { OnErr result (self.new ≡ self.old) }
    {
        let rising = rises_with(&self.rules, self.rising, &rule);
        let mark = mark_of(rule.label.as_slice());
        let rule = HeldRule::new(self.alloc, rule)?;
        reserve_mark(&mut self.marks)?;
        pushed(&mut self.rules, rule)?;
        self.marks.push_reserved(mark);
        self.rising = rising;
        Ok(())
    }

    /// The rule of a number.
    pub fn rule(&self, id: RuleId) -> Option<&Rule>
        ensures { row_found result ≡ find (λ r. r.id == id) (rows_of self.now) }
    {
        rule_of(&self.rules, id)
    }

    /// Whether some rule is selected.
    pub fn selects(&self, selector: &Selector) -> bool
        ensures { result ≡ list_any (selects (selector_of selector.now)) (rows_of self.now) }
    {
        tallied(&self.rules, &self.marks, self.rising, selector).count > 0
    }

    /// Of the selected rules that can't be disabled once more the least number.
    pub fn disable_full(&self, selector: &Selector) -> Option<RuleId>
        ensures { result ≡ least_id (full_rows (disable (selector_of selector.now)) (rows_of self.now)) }
    {
        tallied(&self.rules, &self.marks, self.rising, selector).full
    }

    /// Plans to add a rule behind all others, and takes the memory for it.
    pub fn plan_insert(&self, alloc: Global, rule: Rule) -> Result<Prepared, PlanFault>
        ensures refused { (new : NewRow) → refusal_in result ≡ refused_by_rows (add new) (rows_of self.now) }
        ensures planned { IfOk result (λ plan. IsPlan plan (rows_of self.now) (rows_of self.now ++ row_of rule ∷ []) (row_of rule ∷ [])) }
    {
        if self.is_full() {
            return Err(PlanFault::TableFull);
        }
        let room = room_behind(alloc, self.rules.len())?;
        let touched = Touched::none().with(&rule);
        let rule = HeldRule::new(alloc, rule)?;
        Ok(Prepared {
            step: Step::Insert { rule, room },
            touched,
            count: 1,
        })
    }

    /// Plans to change the selected rules. Such a plan takes no memory yet.
    pub fn plan_change(
        &self,
        _alloc: Global,
        selector: &Selector,
        change: RowChange,
    ) -> Result<Prepared, PlanFault>
        ensures refused { refusal_in result ≡ option_or (refused_by_rows (content_by selector.now change) (rows_of self.now)) (refused_by_count (content_by selector.now change) (rows_of self.now)) }
        ensures memory { IfErr result (λ fault. fault ≢ OutOfMemory) }
        ensures planned { (n : ℕ) → IfOk result (λ plan. IsPlan plan (rows_of self.now) (rows_after n (content_by selector.now change) (rows_of self.now))
            (touched_by n (content_by selector.now change) (rows_of self.now))) }
    {
        let tally = tallied(&self.rules, &self.marks, self.rising, selector);
        match refused(&tally, &change) {
            Some(fault) => Err(fault),
            None => Ok(Prepared {
                step: Step::Change {
                    selector: selector.copied(),
                    change,
                },
                touched: tally.touched,
                count: tally.count,
            }),
        }
    }

    /// Makes a planned edit; it takes no memory. The table holds the rules for which it was planned.
    pub fn commit(&mut self, plan: Prepared)
        requires { IsPlanFor plan (rows_of self.old) }
        ensures { rows_of self.new ≡ planned plan (rows_of self.old) }
    {
        let Prepared { step, .. } = plan;
        match step {
            Step::Insert { rule, room } => {
                self.rising = rises_with(&self.rules, self.rising, rule.get());
                let Room { rules, marks } = room;
                changes::insert(&mut self.marks, mark_of(rule.get().label.as_slice()), marks);
                changes::insert(&mut self.rules, rule, rules)
            }
            Step::Change { selector, change } => {
                changes::change(
                    &mut self.rules,
                    &mut self.marks,
                    self.rising,
                    &selector,
                    &change,
                )
            }
        }
    }

    /// The rules of a kind in the order in which they are tried: a copy that later changes of the table don't touch.
    pub fn snapshot(&self, alloc: Global, kind: Kind) -> Result<Arc<Rules>, AllocError>
        ensures { IfOk result (λ rules. IsSnapshot (rows_of self.now) (kind_of kind) (rows_of (arc_value rules))) }
    {
        let mut rules = copies(alloc, &self.rules, kind)?;
        rules.sort_by_rank()?;
        let rules = Arc::new(alloc, rules)?;
        Ok(rules)
    }

    /// The rule that governs an assessment of the subject, of whose hash these facts are known, the latent one, and
    /// until when what they decide stands: one look at each rule.
    pub fn find(
        &self,
        kind: Kind,
        subject: &Subject,
        facts: Option<&Facts>,
        at: Moment,
    ) -> Found<'_>
        ensures { (all : f.Facts) → known_of all (subject_of subject.now).cdhash ≡ known_in facts.entry
            → IsFound (rows_of self.now) (kind_of kind) (subject_of subject.now) all at result }
    {
        let mut first = FirstRules {
            governing: None,
            latent: None,
        };
        for rule in &self.rules {
            first = first.with_held(rule, kind, subject, facts, at);
        }
        first.found(at)
    }
}

ghost use Rattle.rule_values.specs.Rule.{rows_of};
ghost use Rattle.authority_table.specs.Snapshot.{of_kind, IsSnapshot};

/// Copies of the rules of a kind.
fn copies(alloc: Global, rules: &[HeldRule], kind: Kind) -> Result<Rules, AllocError>
    ensures { IfOk result (λ copies. rows_of copies ≡ of_kind (kind_of kind) (rows_of rules.now)) }
{
    let mut copies = Rules::new(alloc);
    for rule in rules {
        if rule.get().kind.is(kind) {
            copies.push(rule.get().copied(alloc)?)?;
        }
    }
    Ok(copies)
}

ghost use Rattle.std.specs.List.{find};
ghost use Rattle.authority_table.specs.Found.{row_found};

fn rule_of(rules: &[HeldRule], id: RuleId) -> Option<&Rule>
    ensures { row_found result ≡ find (λ r. r.id == id) (rows_of rules.now) }
{
    for rule in rules {
        if rule.get().id == id {
            return Some(rule.get());
        }
    }
    None
}
