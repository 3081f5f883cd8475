//! A rule of the authority table.

ghost use Rattle.std.specs.Prelude.{◌≡◌, ◌↔◌, IsTrue, IfOk, option_map};
ghost use Rattle.req_tree.specs.Facts as f;
ghost use Rattle.req_tree.specs.Facts.{Known, known_of};
ghost use Rattle.req_tree.specs.Meaning.{means};
ghost use Rattle.req_tree.specs.Subject.{subject_of};
ghost use Rattle.req_tree.specs.Subject as plain;
ghost use Rattle.policy_model.specs.Rules.{Applies};
ghost use Rattle.policy_model.specs.Rules as model;
ghost use Rattle.rule_values.specs.Kind.{kind_of};
ghost use Rattle.fact_values.specs.Knowledge.{known_in};
ghost use Rattle.rule_values.specs.ShortReq.{short_means};

use crate::kind::Kind;
use crate::label::Label;
use crate::moment::Moment;
use crate::priority::Priority;
use crate::rank::Rank;
use crate::row_change::RowChange;
use crate::rule_id::RuleId;
use crate::selector::{Selector, Which};
use crate::short_req::ShortReq;
use fact_values::Facts;
use req_tree::{Bytes, SharedReq, Subject};
use std::alloc::{AllocError, Global};

/// A requirement, and what is decided about code that meets it.
#[derive(Drop)]
pub struct Rule {
    // what a search looks at stands in front
    pub kind: Kind,
    /// The verdict: acceptance, or denial.
    pub allow: bool,
    /// Carried and listed; it changes no verdict.
    pub is_default: bool,
    /// The outcome that it governs isn't kept.
    pub inhibit: bool,
    /// How often it was disabled since it was last enabled; it is enabled at 0.
    pub disabled: u32,
    /// From this moment on it isn't in force.
    pub expires: Option<Moment>,
    /// What the requirement asks, where it is short.
    pub short: ShortReq,
    pub id: RuleId,
    pub priority: Priority,
    pub tree: SharedReq,
    /// The requirement as it was given.
    pub text: Bytes,
    pub label: Label,
    pub ghost short_is: { (subject : plain.Subject) (known : Known) → short_means short tree subject known ≡ means tree subject known },
}

impl Rule {
    ghost use Rattle.rule_values.specs.Rank.{rank_view};
    ghost use Rattle.rule_values.specs.Rule.{row_of};
    ghost use Rattle.policy_model.specs.Changes.{named_by, in_kind, selects};
    ghost use Rattle.rule_values.specs.Selector.{which_of, selector_of};
    ghost use Rattle.rule_values.specs.Changes.{changed_by, CanChange};

    pub fn rank(&self) -> Rank
        ensures { rank_view result ≡ model.rank_of (row_of self.now) }
    {
        Rank {
            priority: self.priority,
            id: self.id,
        }
    }

    /// Whether this rule is tried before the other.
    pub fn is_before(&self, other: &Rule) -> bool
        ensures { IsTrue result ↔ model.Before (model.rank_of (row_of self.now)) (model.rank_of (row_of other.now)) }
    {
        self.rank().before(&other.rank())
    }

    /// The same rule, which shares the requirement's tree.
    pub fn copied(&self, alloc: Global) -> Result<Rule, AllocError>
        ensures { IfOk result (λ rule. row_of rule ≡ row_of self.now) }
    {
        let text = Bytes::copy_of(alloc, self.text.as_slice())?;
        let tree = self.tree.share()?;
        Ok(Rule {
            kind: self.kind,
            allow: self.allow,
            is_default: self.is_default,
            inhibit: self.inhibit,
            disabled: self.disabled,
            expires: self.expires,
            short: self.short,
            id: self.id,
            priority: self.priority,
            tree,
            text,
            label: self.label.copied(),
        })
    }

    pub fn is_enabled(&self) -> bool
        ensures { IsTrue result ↔ (self.now.disabled ≡ 0) }
    {
        self.disabled == 0
    }

    /// Whether the rule, be it enabled or not, is of the kind, in force and true of the subject, of whose hash these
    /// facts are known.
    pub fn applies(&self, kind: Kind, subject: &Subject, facts: Option<&Facts>, at: Moment) -> bool
        ensures { (all : f.Facts) → known_of all (subject_of subject.now).cdhash ≡ known_in facts.entry
            → IsTrue result ↔ Applies (kind_of kind) (subject_of subject.now) all at (row_of self.now) }
    {
        let of_kind = self.kind == kind;
        let live = self.is_live(at);
        if of_kind && live {
            self.short.holds(&self.tree, subject, facts)
        } else {
            false
        }
    }

    fn is_live(&self, at: Moment) -> bool
        ensures { IsTrue result ↔ model.Live at (row_of self.now) }
    {
        match self.expires {
            None => true,
            Some(end) => at < end,
        }
    }

    pub fn is_selected(&self, selector: &Selector) -> bool
        ensures { result ≡ selects (selector_of selector.now) (row_of self.now) }
    {
        let named = self.is_named(&selector.which);
        let of_kind = self.is_in(selector.kind);
        named && of_kind
    }

    fn is_named(&self, which: &Which) -> bool
        ensures { result ≡ named_by (which_of which.now) (row_of self.now) }
    {
        match which {
            Which::Id(id) => self.id == *id,
            Which::Label(label) => self.label.is(label),
        }
    }

    fn is_in(&self, kind: Option<Kind>) -> bool
        ensures { result ≡ in_kind (option_map kind_of kind) (row_of self.now) }
    {
        match kind {
            None => true,
            Some(kind) => self.kind.is(kind),
        }
    }

    /// Changes the rule in place. One that is to be removed stays as it is here.
    pub fn change(&mut self, change: &RowChange)
        requires { CanChange change.now self.old.disabled }
        ensures { row_of self.new ≡ changed_by change.now (row_of self.old) }
    {
        match change {
            RowChange::Remove => {}
            RowChange::Enable => self.disabled = 0,
            RowChange::Disable => self.disabled += 1,
            RowChange::Expire(end) => self.expires = *end,
        }
    }
}
