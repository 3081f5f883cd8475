//! What is known of a hash, and one fact more.

ghost use Rattle.std.specs.Prelude.{◌≡◌, ◌≢◌, ◌<◌, true, length, Ok, Err, IfErr, OnOk};
ghost use Rattle.std.specs.Borrow.{Bor};
ghost use Rattle.fact_values.specs.Keyed.{value_of, value_found};
ghost use Rattle.fact_values.specs.Knowledge.{knowledge_of, HasPlace};
ghost use Rattle.code_facts.specs.FactsFile as file;
ghost use Rattle.code_facts.specs.Growing as growing;
ghost use Rattle.code_facts.specs.RowCode.{fact_of, given_of, key_of};

use crate::fault::FactFault;
use crate::row::{Fact, Given, Key};
use fact_values::{Facts, Place, Value};
use line_text::Bytes;
use std::alloc::{AllocError, Global};

/// Adds the fact of a row; where it is refused, nothing is said of the facts.
pub(crate) fn grow(
    alloc: Global,
    number: u32,
    facts: &mut Facts,
    fact: &Fact,
) -> Result<(), FactFault>
    ensures found { OnOk result (growing.grown number (fact_of fact.now) (knowledge_of facts.old) ≡ Ok (knowledge_of facts.new)) }
    ensures first { IfErr result (λ fault. fault ≢ FactFault.OutOfMemory → growing.grown number (fact_of fact.now) (knowledge_of facts.old) ≡ Err fault) }
{
    if !fits(facts, fact) {
        return Err(FactFault::BadRow { row: number });
    }
    if is_known(facts, fact) {
        return Err(FactFault::Twice { row: number });
    }
    match add(alloc, facts, fact) {
        Ok(()) => Ok(()),
        Err(_) => Err(FactFault::OutOfMemory),
    }
}

/// Whether a certificate is the next, or the one that is spoken of stands above.
fn fits(facts: &Facts, fact: &Fact) -> bool
    ensures { result ≡ file.fits (length (knowledge_of facts.now).chain) (fact_of fact.now) }
{
    match fact {
        Fact::Certificate { place, .. } => place.number == facts.cert_count(),
        Fact::Trust { place } => place.number < facts.cert_count(),
        Fact::Entry { place, .. } => is_there(facts.cert_count(), *place),
        _ => true,
    }
}

fn is_there(count: u32, place: Place) -> bool
    ensures { result ≡ file.is_there count place }
{
    match place {
        Place::Info => true,
        Place::Entitlement => true,
        Place::CertField(at) => at < count,
        Place::CertOid(at) => at < count,
        Place::CertPolicy(at) => at < count,
    }
}

/// Whether the fact, or another value in its place, is known already.
fn is_known(facts: &Facts, fact: &Fact) -> bool
    requires { file.fits (length (knowledge_of facts.now).chain) (fact_of fact.now) ≡ true }
    ensures { result ≡ growing.is_known (fact_of fact.now) (knowledge_of facts.now) }
{
    match fact {
        Fact::Flag(which) => facts.flag(*which),
        Fact::AnchorName(name) => facts.anchor_name(name),
        Fact::CodeName(name) => facts.code_name(name),
        Fact::Certificate { .. } => false,
        Fact::Trust { place } => facts.cert_trusted(place.number),
        Fact::Entry { place, key, given } => is_given_twice(
            given,
            facts.value_at(*place, key.as_slice()),
        ),
    }
}

fn is_given_twice(given: &Given, value: Option<&Value>) -> bool
    ensures { result ≡ growing.is_given_twice (given_of given.now) (value_found value.entry) }
{
    match value {
        None => false,
        Some(value) => !(matches!(given, Given::Item(_)) && is_list(value)),
    }
}

fn is_list(value: &Value) -> bool
    ensures { result ≡ growing.is_list (value_of value.now) }
{
    match value {
        Value::Many(texts) => !texts.as_slice().is_empty(),
        _ => false,
    }
}

impl<'a> Key<'a> {
    ghost use Rattle.std.specs.Prelude.{◌≡◌};
    ghost use Rattle.code_facts.specs.RowCode.{key_of};

    fn as_slice(&self) -> &[u8]
        ensures { result.now ≡ key_of self.now }
    {
        match self {
            Key::Text(bytes) => bytes,
            Key::Oid(oid) => oid.as_slice(),
        }
    }
}

fn add(alloc: Global, facts: &mut Facts, fact: &Fact) -> Result<(), AllocError>
    requires { file.fits (length (knowledge_of facts.old).chain) (fact_of fact.now) ≡ true }
    ensures { OnOk result (knowledge_of facts.new ≡ growing.with_fact (fact_of fact.now) (knowledge_of facts.old)) }
{
    match fact {
        Fact::Flag(which) => {
            facts.set_flag(*which);
            Ok(())
        }
        Fact::AnchorName(name) => facts.put_anchor_name(alloc, name),
        Fact::CodeName(name) => facts.put_code_name(alloc, name),
        Fact::Certificate { hash, .. } => facts.push_cert(alloc, *hash),
        Fact::Trust { place } => {
            facts.trust_cert(place.number);
            Ok(())
        }
        Fact::Entry { place, key, given } => add_given(alloc, facts, *place, key.as_slice(), given),
    }
}

fn add_given(
    alloc: Global,
    facts: &mut Facts,
    place: Place,
    key: &[u8],
    given: &Given,
) -> Result<(), AllocError>
    requires { HasPlace place (knowledge_of facts.old) }
    ensures { OnOk result (knowledge_of facts.new ≡ growing.with_given place key.now (given_of given.now) (knowledge_of facts.old)) }
{
    match given {
        Given::Text(bytes) => {
            let bytes = Bytes::copy_of(alloc, bytes)?;
            facts.put_value(alloc, place, key, Value::Text(bytes))
        }
        Given::Truth(b) => facts.put_value(alloc, place, key, Value::Flag(*b)),
        Given::Item(bytes) => facts.put_item(alloc, place, key, bytes),
    }
}
