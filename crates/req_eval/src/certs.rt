//! The certificate that a slot names, and tests of it, which are false where the chain has none.

ghost use Rattle.std.specs.Prelude.{◌≡◌};
ghost use Rattle.std.specs.Str.{bytes_eq};
ghost use Rattle.req_tree.specs.Meaning as spec;
ghost use Rattle.req_tree.specs.Meaning.{of_cert, value_match};
ghost use Rattle.fact_values.specs.Knowledge.{certificate_found, knowledge_of, known_in};

use crate::matching::matches;
use fact_values::{Certificate, Facts};
use req_tree::{Bytes, Hash20, Match, Oid};

/// The certificate of a slot: from the leaf at 0 upwards, from the anchor at -1 downwards.
pub fn cert_at(facts: Option<&Facts>, slot: i32) -> Option<&Certificate>
    ensures { certificate_found result ≡ spec.cert_at slot (known_in facts.entry).chain }
{
    match facts {
        None => None,
        Some(facts) => cert_of(facts, slot),
    }
}

fn cert_of(facts: &Facts, slot: i32) -> Option<&Certificate>
    ensures { certificate_found result ≡ spec.cert_at slot (knowledge_of facts.now).chain }
{
    let steps = slot.unsigned_abs();
    if slot >= 0 {
        return facts.certificate(steps);
    }
    let count = facts.cert_count();
    if steps <= count {
        facts.certificate(count - steps)
    } else {
        None
    }
}

pub fn has_hash(facts: Option<&Facts>, slot: i32, hash: &Hash20) -> bool
    ensures { result ≡ of_cert (spec.cert_at slot (known_in facts.entry).chain) (λ c. bytes_eq c.hash hash.now.bytes) }
{
    match cert_at(facts, slot) {
        None => false,
        Some(certificate) => certificate.hash() == *hash,
    }
}

pub fn is_trusted(facts: Option<&Facts>, slot: i32) -> bool
    ensures { result ≡ of_cert (spec.cert_at slot (known_in facts.entry).chain) (λ c. c.trusted) }
{
    match cert_at(facts, slot) {
        None => false,
        Some(certificate) => certificate.is_trusted(),
    }
}

pub fn field_matches(facts: Option<&Facts>, slot: i32, key: &Bytes, test: &Match) -> bool
    ensures { result ≡ of_cert (spec.cert_at slot (known_in facts.entry).chain) (λ c. value_match (c.field key.now) test.now) }
{
    let Some(certificate) = cert_at(facts, slot) else {
        return false;
    };
    matches(certificate.field(key.as_slice()), test)
}

pub fn oid_matches(facts: Option<&Facts>, slot: i32, oid: &Oid, test: &Match) -> bool
    ensures { result ≡ of_cert (spec.cert_at slot (known_in facts.entry).chain) (λ c. value_match (c.oid oid.now) test.now) }
{
    match cert_at(facts, slot) {
        None => false,
        Some(certificate) => matches(certificate.oid(oid), test),
    }
}

pub fn policy_matches(facts: Option<&Facts>, slot: i32, oid: &Oid, test: &Match) -> bool
    ensures { result ≡ of_cert (spec.cert_at slot (known_in facts.entry).chain) (λ c. value_match (c.policy oid.now) test.now) }
{
    match cert_at(facts, slot) {
        None => false,
        Some(certificate) => matches(certificate.policy(oid), test),
    }
}
