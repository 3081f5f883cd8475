//! Rules that are copied, kept and found.
use crate::made::{new_rule, subject};
use authority_table::{Found, Table};
use req_tree::Subject;
use rule_values::{Kind, Moment, Rule, RuleId};
use std::alloc::Global;
use std::test::Fail;

fn rule(alloc: Global, number: u32, disabled: u32) -> Option<Rule> {
    let id = RuleId::of(number)?;
    let mut rule = new_rule(alloc, true)?.rule(alloc, id).ok()?;
    rule.disabled = disabled;
    rule.copied(alloc).ok()
}

fn is_found(found: Option<&Rule>, number: u32) -> bool {
    match found {
        None => false,
        Some(rule) => rule.id.get() == number && rule.text.as_slice() == b"always".as_slice(),
    }
}

fn kept(alloc: Global, table: &mut Table, number: u32, disabled: u32) -> Option<()> {
    let rule = rule(alloc, number, disabled)?;
    let plan = table.plan_insert(alloc, rule).ok()?;
    table.commit(plan);
    Some(())
}

// the older of two rules governs until its end, and the disabled one is latent
fn both_found(alloc: Global) -> Option<bool> {
    let mut table = Table::new(alloc);
    kept(alloc, &mut table, 1, 7)?;
    kept(alloc, &mut table, 2, 0)?;
    kept(alloc, &mut table, 3, 0)?;
    let subject = subject()?;
    Some(table.count() == 3 && finds_both(&table, &subject) && finds_none(&table, &subject))
}

fn finds_both(table: &Table, subject: &Subject) -> bool {
    match table.find(Kind::Execute, subject, None, Moment::zero()) {
        Found::Governed {
            rule,
            until,
            latent,
        } => {
            until.map(|moment| moment.get()) == Some(1_000)
                && is_found(Some(rule), 2)
                && is_found(latent, 1)
        }
        Found::Default { .. } => false,
    }
}

// a denial stands for a minute
fn finds_none(table: &Table, subject: &Subject) -> bool {
    match table.find(Kind::Install, subject, None, Moment::zero()) {
        Found::Governed { .. } => false,
        Found::Default { latent, until } => latent.is_none() && until == 60,
    }
}

#[test]
fn the_rule_that_governs_is_found(rt: HostRuntime) -> Result<(), Fail> {
    assert!(rt; both_found(rt.alloc()) == Some(true));
    Ok(())
}
