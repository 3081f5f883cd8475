//! Which rules an edit is about.

ghost use Rattle.std.specs.Prelude.{◌≤◌};
ghost use Rattle.rule_values.specs.Naming.{named_bytes};

use crate::kind::Kind;
use crate::label::Label;
use crate::rule_id::RuleId;

/// One rule by its number, or all rules of a label.
#[derive(Drop)]
pub enum Which {
    Id(RuleId),
    Label(Label),
}

impl Which {
    ghost use Rattle.std.specs.Prelude.{◌≡◌, ◌↔◌, IsTrue};
    ghost use Rattle.rule_values.specs.Selector.{which_of};

    /// The same one.
    pub fn copied(&self) -> Which
        ensures which { which_of result ≡ which_of self.now }
        ensures named { named_bytes result ≡ named_bytes self.now }
    {
        match self {
            Which::Id(id) => Which::Id(*id),
            Which::Label(label) => Which::Label(label.copied()),
        }
    }

    fn is_named(&self) -> bool
        ensures { IsTrue result ↔ (1 ≤ named_bytes self.now) }
    {
        match self {
            Which::Id(_) => true,
            Which::Label(label) => !label.as_slice().is_empty(),
        }
    }
}

/// The rules with an id or a label, in one kind or in any. A label that it names isn't empty.
#[derive(Drop)]
pub struct Selector {
    pub which: Which,
    pub kind: Option<Kind>,
    pub ghost named: { 1 ≤ named_bytes which },
}

impl Selector {
    ghost use Rattle.std.specs.Prelude.{◌≡◌, ◌≢◌, ◌↔◌, [], IsSome, IfSome, option_map};
    ghost use Rattle.policy_model.specs.Contents.{by_id, by_label};
    ghost use Rattle.rule_values.specs.Kind.{kind_of};
    ghost use Rattle.rule_values.specs.Selector.{which_of, selector_of};

    /// The rule of this number, where it is of the kind.
    pub fn by_id(id: RuleId, kind: Option<Kind>) -> Selector
        ensures { selector_of result ≡ record { which = by_id id; kind = option_map kind_of kind } }
    {
        Selector {
            which: Which::Id(id),
            kind,
        }
    }

    pub fn of(which: Which, kind: Option<Kind>) -> Option<Selector>
        ensures fits { IsSome result ↔ (which_of which ≢ by_label []) }
        ensures value { IfSome result (λ selector. selector_of selector ≡ record { which = which_of which; kind = option_map kind_of kind }) }
    {
        if which.is_named() {
            Some(Selector { which, kind })
        } else {
            None
        }
    }

    /// The same selector, without memory.
    pub fn copied(&self) -> Selector
        ensures { selector_of result ≡ selector_of self.now }
    {
        Selector {
            which: self.which.copied(),
            kind: self.kind,
        }
    }
}
