//! A list of rules, as it is handed to those who judge.

ghost use Rattle.std.specs.Prelude.{◌≡◌, [], ◌∷◌, ◌++◌, OnOk, OnErr};
ghost use Rattle.std.specs.List.Sorted.{IsPermutation};
ghost use Rattle.rule_values.specs.Rule.{rows_of};
ghost use Rattle.authority_table.specs.Snapshot.{IsByRank};

use rule_values::Rule;
use std::alloc::{AllocError, Global};
use std::marker::Model;

/// Rules in some order.
#[derive(Drop)]
pub struct Rules {
    rules: Vec<Rule>,
}

impl Model for Rules {
    ghost use Rattle.std.specs.Prelude.{List};
    ghost use Rattle.std.specs.Coded.{coded_list};
    ghost use Rattle.rule_values.specs.declared.rule.Rule.{Rule};
    ghost use Rattle.rule_values.specs.contracts.rule.Rule as rule_contract;

    ghost Value = { List Rule };

    ghost coded = { coded_list rule_contract.the_row.coded };

    ghost view = { λ r. r.rules.items };
}

impl Rules {
    /// No rule.
    pub fn new(alloc: Global) -> Rules
        ensures { result ≡ [] }
    {
        Rules {
            rules: Vec::new(alloc),
        }
    }

    /// Adds a rule behind all others; where there is no memory, the list is as before.
    pub fn push(&mut self, item: Rule) -> Result<(), AllocError>
        ensures ok { OnOk result (self.new ≡ self.old ++ item ∷ []) }
        ensures err { OnErr result (self.new ≡ self.old) }
    {
        self.rules.push(item)?;
        Ok(())
    }

    pub fn as_slice(&self) -> &[Rule]
        ensures { result.now ≡ self.now }
    {
        self.rules.as_slice()
    }

    /// Puts the rules into the order in which they are tried.
    pub(crate) fn sort_by_rank(&mut self) -> Result<(), AllocError>
        ensures same { IsPermutation self.old self.new }
        ensures ranked { OnOk result (IsByRank (rows_of self.new)) }
    {
        sort_by_rank(&mut self.rules)
    }
}

fn sort_by_rank(rules: &mut Vec<Rule>) -> Result<(), AllocError>
    ensures same { IsPermutation rules.old.items rules.new.items }
    ensures ranked { OnOk result (IsByRank (rows_of rules.new.items)) }
{
    rules.sort_by(|one, other| one.rank().order(&other.rank()))?;
    Ok(())
}
