//! What an edit would touch, before it does.

ghost use Rattle.std.specs.Prelude.{◌≡◌, ◌<◌, ◌≤◌, List, [], ◌∷◌, ◌++◌, length, IsTrue, Some, true, ◌≢◌, IfSome};
ghost use Rattle.policy_model.specs.declared.limits.TheConstants.{MOST_RULES};
ghost use Rattle.policy_model.specs.Rules.{Row};
ghost use Rattle.policy_model.specs.Contents as model;
ghost use Rattle.policy_model.specs.Changes.{selects};
ghost use Rattle.policy_model.specs.Refusals.{least_id};
ghost use Rattle.rule_values.specs.Rule.{row_of, rows_of};
ghost use Rattle.rule_values.specs.Selector.{selector_of};
ghost use Rattle.held_rules.specs.Spans.{AreRising};
ghost use Rattle.held_rules.specs.Marks.{AreMarks};
ghost use Rattle.authority_table.specs.Tally.{IsTally};

use crate::fault::PlanFault;
use crate::touched::Touched;
use held_rules::{HeldRule, span_of};
use policy_model::limits::MOST_DISABLES;
use rule_values::{RowChange, Rule, RuleId, Selector};

/// The rules that a selector names among those looked at so far.
#[derive(Clone, Copy, Drop)]
pub struct Tally {
    pub count: u32,
    pub touched: Touched,
    /// The least number of those that can't be disabled once more.
    pub full: Option<RuleId>,
}

impl Tally {
    ghost use Rattle.policy_model.specs.Rules.{Row};

    fn none() -> Tally
        ensures { (selector : model.Selector) → IsTally selector [] result }
    {
        Tally {
            count: 0,
            touched: Touched::none(),
            full: None,
        }
    }

    /// With one more rule, if it is selected.
    fn with(self, rule: &Rule, selector: &Selector) -> Tally
        requires { self.count < MOST_RULES }
        ensures { (rows : List Row) → IsTally (selector_of selector.now) rows self → IsTally (selector_of selector.now) (rows ++ row_of rule.now ∷ []) result }
    {
        if rule.is_selected(selector) {
            self.with_selected(rule)
        } else {
            self
        }
    }

    fn with_selected(self, rule: &Rule) -> Tally
        requires { self.count < MOST_RULES }
        ensures { (selector : model.Selector) (rows : List Row) → selects selector (row_of rule.now) ≡ true
            → IsTally selector rows self → IsTally selector (rows ++ row_of rule.now ∷ []) result }
    {
        Tally {
            count: self.count + 1,
            touched: self.touched.with(rule),
            full: full_with(self.full, rule),
        }
    }
}

/// The least number of full rules, with one more that is selected.
fn full_with(full: Option<RuleId>, rule: &Rule) -> Option<RuleId>
    ensures { (selector : model.Selector) (rows : List Row) → selects selector (row_of rule.now) ≡ true
        → full ≡ least_id (full_rows (model.disable selector) rows)
        → result ≡ least_id (full_rows (model.disable selector) (rows ++ row_of rule.now ∷ [])) }
{
    if rule.disabled >= MOST_DISABLES {
        Some(lesser(rule.id, full))
    } else {
        full
    }
}

ghost use Rattle.policy_model.specs.Refusals.{full_rows};
ghost use Rattle.policy_model.specs.Outcomes.{at_most};

fn lesser(id: RuleId, other: Option<RuleId>) -> RuleId
    ensures { result ≡ at_most id other }
{
    match other {
        Some(other) if other < id => other,
        _ => id,
    }
}

/// What an edit with this selector would touch of the rules.
pub(crate) fn tallied(rules: &[HeldRule], marks: &[u32], rising: bool, selector: &Selector) -> Tally
    requires few { length rules.now ≤ MOST_RULES }
    requires rise { rising ≡ true → AreRising rules.now }
    requires marked { AreMarks (rows_of rules.now) marks.now }
    ensures { IsTally (selector_of selector.now) (rows_of rules.now) result }
{
    let span = span_of(rules, marks, rising, selector);
    tallied_each(&rules[span.from..span.to], selector)
}

/// The same by one look at each rule.
fn tallied_each(rules: &[HeldRule], selector: &Selector) -> Tally
    requires { length rules.now ≤ MOST_RULES }
    ensures { IsTally (selector_of selector.now) (rows_of rules.now) result }
{
    let mut tally = Tally::none();
    for rule in rules {
        tally = tally.with(rule.get(), selector);
    }
    tally
}

ghost use Rattle.std.specs.Option.{option_or};
ghost use Rattle.policy_model.specs.Contents.{disable};
ghost use Rattle.policy_model.specs.Refusals.{refused_by_rows, refused_by_count};
ghost use Rattle.rule_values.specs.Selector.{content_by};
ghost use Rattle.authority_table.specs.Prepared.{refused_in};
ghost use Rattle.rule_values.specs.declared.selector.Selector as code;
ghost use Rattle.authority_table.specs.declared.fault.PlanFault.TheVariants.{OutOfMemory};

/// Why the tallied rules can't be changed so.
pub(crate) fn refused(tally: &Tally, change: &RowChange) -> Option<PlanFault>
    ensures refused { (selector : code.Selector) (rows : List Row) → IsTally (selector_of selector) rows tally.now
        → refused_in result ≡ option_or (refused_by_rows (content_by selector change.now) rows) (refused_by_count (content_by selector change.now) rows) }
    ensures memory { IfSome result (λ fault. fault ≢ OutOfMemory) }
{
    if tally.count == 0 {
        return Some(PlanFault::NoRule);
    }
    match full_for(tally.full, change) {
        Some(rule) => Some(PlanFault::DisableFull { rule }),
        None => None,
    }
}

/// The least full rule, where the change can't be made of it.
fn full_for(full: Option<RuleId>, change: &RowChange) -> Option<RuleId>
    ensures { (selector : code.Selector) (rows : List Row) → full ≡ least_id (full_rows (disable (selector_of selector)) rows)
        → result ≡ least_id (full_rows (content_by selector change.now) rows) }
{
    match change {
        RowChange::Disable => full,
        _ => None,
    }
}
