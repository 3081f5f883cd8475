//! What is known of a hash, of which nothing may be known.

ghost use Rattle.std.specs.Prelude.{◌≡◌};
ghost use Rattle.std.specs.List.{list_any};
ghost use Rattle.req_tree.specs.Facts as f;
ghost use Rattle.req_tree.specs.Meaning.{value_match};
ghost use Rattle.fact_values.specs.Knowledge as spec;
ghost use Rattle.fact_values.specs.Knowledge.{known_in};

use crate::matching::{equals, matches};
use fact_values::{FactFlag, Facts};
use req_tree::{Bytes, Match};

pub fn has_flag(facts: Option<&Facts>, which: FactFlag) -> bool
    ensures { result ≡ spec.has_flag which (known_in facts.entry) }
{
    match facts {
        None => false,
        Some(facts) => facts.flag(which),
    }
}

pub fn has_anchor_name(facts: Option<&Facts>, name: &Bytes) -> bool
    ensures { result ≡ (known_in facts.entry).anchor_name name.now }
{
    match facts {
        None => false,
        Some(facts) => facts.anchor_name(name.as_slice()),
    }
}

pub fn has_code_name(facts: Option<&Facts>, name: &Bytes) -> bool
    ensures { result ≡ (known_in facts.entry).code_name name.now }
{
    match facts {
        None => false,
        Some(facts) => facts.code_name(name.as_slice()),
    }
}

pub fn info_matches(facts: Option<&Facts>, key: &Bytes, test: &Match) -> bool
    ensures { result ≡ value_match ((known_in facts.entry).info key.now) test.now }
{
    match facts {
        None => matches(None, test),
        Some(facts) => matches(facts.info(key.as_slice()), test),
    }
}

pub fn info_equals(facts: Option<&Facts>, key: &Bytes, value: &Bytes) -> bool
    ensures { result ≡ value_match ((known_in facts.entry).info key.now) (Match.Equal value.now) }
{
    match facts {
        None => false,
        Some(facts) => equals(facts.info(key.as_slice()), value),
    }
}

pub fn entitlement_matches(facts: Option<&Facts>, key: &Bytes, test: &Match) -> bool
    ensures { result ≡ value_match ((known_in facts.entry).entitlement key.now) test.now }
{
    match facts {
        None => matches(None, test),
        Some(facts) => matches(facts.entitlement(key.as_slice()), test),
    }
}

pub fn any_trusted(facts: Option<&Facts>) -> bool
    ensures { result ≡ list_any (λ (c : f.Certificate). c.trusted) (known_in facts.entry).chain }
{
    match facts {
        None => false,
        Some(facts) => facts.any_trusted(),
    }
}
