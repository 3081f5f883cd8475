//! What the program's edits hold fits a line. Each call only reads, and gives nothing.

ghost use Rattle.line_laws.specs.Limits.{AreBytes, IsLabel, IsExpiry, IsPriority, IsName, IsRule};
ghost use Rattle.rule_values.specs.Label.{label_bytes};
ghost use Rattle.rule_values.specs.Selector.{which_of};
ghost use Rattle.rule_edits.specs.Edit.{new_row};

use rule_edits::NewRule;
use rule_values::{Label, Moment, Priority, Selector, Which};

fn bytes_fit(bytes: &[u8])
    ensures { AreBytes bytes.now }
{}

fn label_fits(label: &Label)
    ensures { IsLabel (label_bytes label.now) }
{
    bytes_fit(label.as_slice());
}

pub(crate) fn end_fits(expires: Option<Moment>)
    ensures { IsExpiry expires }
{
    if let Some(moment) = expires {
        let _seconds = moment.get();
    }
}

fn priority_fits(priority: Priority)
    ensures { IsPriority priority }
{
    let _millionths = priority.get();
}

pub(crate) fn name_fits(selector: &Selector)
    ensures { IsName (which_of selector.now.which) }
{
    match &selector.which {
        Which::Id(id) => {
            let _number = id.get();
        }
        Which::Label(label) => label_fits(label),
    }
}

pub(crate) fn rule_fits(rule: &NewRule)
    ensures { ∥ IsRule (new_row rule.now) ∥₁ }
{
    priority_fits(rule.priority);
    end_fits(rule.expires);
    label_fits(&rule.label);
}
