//! The words of a line that say which rules an edit is about, and how the switch stands.

ghost use Rattle.std.specs.Prelude.{◌≡◌, ◌≤◌, ℕ, Bool, length, IfOk};
ghost use Rattle.std.specs.Option.{option_map};

use crate::cursor::Cursor;
use crate::fault::LineFault;
use crate::reading::{read_any_kind, read_name, read_rule, read_switch};
use rule_values::{Kind, Label, RuleId, Selector, Which};

impl<'a> Cursor<'a> {
    ghost use Rattle.line_model.specs.Forms.{any_kind_at, name_at, rule_at, switch_at};
    ghost use Rattle.line_model.specs.Selectors.{which_at, selector_at};
    ghost use Rattle.rule_values.specs.Kind.{kind_of};
    ghost use Rattle.rule_values.specs.Label.{label_bytes};
    ghost use Rattle.rule_values.specs.Naming.{named_bytes};
    ghost use Rattle.rule_values.specs.Selector.{which_of, selector_of};
    ghost use Rattle.line_words.specs.Left.{left, Takes};

    /// The next words as a selector: an id or a label, and a kind or `any`.
    pub fn selector(&mut self) -> Result<Selector, LineFault>
        ensures { Takes selector_of (left self.new) result (selector_at (left self.old)) }
    {
        let which = self.which()?;
        let kind = self.any_kind()?;
        Ok(Selector { which, kind })
    }

    /// The next words as `id` and a rule's number, or `label` and a label that isn't empty.
    fn which(&mut self) -> Result<Which, LineFault>
        ensures which { Takes which_of (left self.new) result (which_at (left self.old)) }
        ensures named { IfOk result (λ which. 1 ≤ named_bytes which) }
    {
        let column = self.column();
        let form = self.next()?;
        if form == b"id".as_slice() {
            let id = self.rule()?;
            Ok(Which::Id(id))
        } else if form == b"label".as_slice() {
            let label = self.name()?;
            Ok(Which::Label(label))
        } else {
            Err(LineFault::BadLine { column })
        }
    }

    /// The next word as a kind or `any`.
    pub fn any_kind(&mut self) -> Result<Option<Kind>, LineFault>
        ensures { Takes (λ kind. option_map kind_of kind) (left self.new) result (any_kind_at (left self.old)) }
    {
        let column = self.column();
        read_any_kind(self.next()?).ok_or(LineFault::BadLine { column })
    }

    /// The next word as the number of a rule.
    pub fn rule(&mut self) -> Result<RuleId, LineFault>
        ensures { Takes (λ (id : ℕ). id) (left self.new) result (rule_at (left self.old)) }
    {
        let column = self.column();
        read_rule(self.next()?).ok_or(LineFault::BadLine { column })
    }

    /// The next word as a label that isn't empty.
    pub fn name(&mut self) -> Result<Label, LineFault>
        ensures bytes { Takes label_bytes (left self.new) result (name_at (left self.old)) }
        ensures named { IfOk result (λ label. 1 ≤ length (label_bytes label)) }
    {
        read_name(self.next()?).ok_or(LineFault::BadLabel)
    }

    /// The next word as `on` or `off`: whether assessments are switched on.
    pub fn switch(&mut self) -> Result<bool, LineFault>
        ensures { Takes (λ (on : Bool). on) (left self.new) result (switch_at (left self.old)) }
    {
        let column = self.column();
        read_switch(self.next()?).ok_or(LineFault::BadLine { column })
    }
}
