//! All rules, by kind and by rank.

ghost use Rattle.std.specs.Prelude.{◌≡◌, ◌++◌, List, IfOk, OnOk};
ghost use Rattle.policy_model.specs.Rules.{Row};
ghost use Rattle.rule_values.specs.Kind.{kind_of};
ghost use Rattle.rule_values.specs.Rule.{rows_of};
ghost use Rattle.authority_table.specs.Snapshot.{IsSnapshot};
ghost use Rattle.rule_list.specs.ListText.{rule_lines, IsListText};

use crate::row_text::rule_onto;
use authority_table::Table;
use line_text::Bytes;
use rule_values::{Kind, Rule};
use std::alloc::{AllocError, Global};

/// A line a rule, by kind in the order execute, install, open, and within a kind the rule that is tried first in
/// front.
pub fn list_text(alloc: Global, table: &Table) -> Result<Bytes, AllocError>
    ensures { IfOk result (λ text. IsListText (rows_of table.now) text) }
{
    let mut text = Vec::new(alloc);
    kind_onto(alloc, table, Kind::Execute, &mut text)?;
    kind_onto(alloc, table, Kind::Install, &mut text)?;
    kind_onto(alloc, table, Kind::Document, &mut text)?;
    Ok(Bytes::from_vec(text))
}

/// Appends the lines of the rules of a kind.
fn kind_onto(alloc: Global, table: &Table, kind: Kind, out: &mut Vec<u8>) -> Result<(), AllocError>
    ensures { OnOk result ((rows : List Row) × IsSnapshot (rows_of table.now) (kind_of kind) rows × (out.new.items ≡ out.old.items ++ rule_lines rows)) }
{
    let rules = table.snapshot(alloc, kind)?;
    rules_onto(rules.as_slice(), out)
}

fn rules_onto(rules: &[Rule], out: &mut Vec<u8>) -> Result<(), AllocError>
    ensures { OnOk result (out.new.items ≡ out.old.items ++ rule_lines (rows_of rules.now)) }
{
    for rule in rules {
        rule_onto(rule, out)?;
    }
    Ok(())
}
