//! How more becomes known of a hash, one fact at a time. After a refusal nothing is said of the facts.

use crate::certificate::Certificate;
use crate::facts::Facts;
use crate::flag::FactFlag;
use crate::place::Place;
use crate::value::Value;
use req_tree::Hash20;
use std::alloc::{AllocError, Global};

impl Facts {
    ghost use Rattle.std.specs.Prelude.{◌≡◌, ◌<◌, length, OnOk};
    ghost use Rattle.fact_values.specs.declared.limits.TheConstants.{MOST_CERTIFICATES};
    ghost use Rattle.fact_values.specs.Keyed.{value_of};
    ghost use Rattle.fact_values.specs.Knowledge.{knowledge_of, HasPlace};
    ghost use Rattle.fact_values.specs.Growth.{with_flag, with_anchor_name, with_code_name, with_certificate, with_trust, with_value_at, with_item_at};

    pub fn set_flag(&mut self, which: FactFlag)
        ensures { knowledge_of self.new ≡ with_flag which (knowledge_of self.old) }
    {
        match which {
            FactFlag::AppleAnchor => self.apple_anchor = true,
            FactFlag::AppleGeneric => self.apple_generic = true,
            FactFlag::Notarized => self.notarized = true,
            FactFlag::LegacyDevId => self.legacy_dev_id = true,
        }
    }

    pub fn put_anchor_name(&mut self, alloc: Global, name: &[u8]) -> Result<(), AllocError>
        ensures { OnOk result (knowledge_of self.new ≡ with_anchor_name name.now (knowledge_of self.old)) }
    {
        self.anchor_names.put(alloc, name)
    }

    pub fn put_code_name(&mut self, alloc: Global, name: &[u8]) -> Result<(), AllocError>
        ensures { OnOk result (knowledge_of self.new ≡ with_code_name name.now (knowledge_of self.old)) }
    {
        self.code_names.put(alloc, name)
    }

    /// A further certificate at the end of the chain, of which its hash is known.
    pub fn push_cert(&mut self, alloc: Global, hash: Hash20) -> Result<(), AllocError>
        requires { length (knowledge_of self.old).chain < MOST_CERTIFICATES }
        ensures { OnOk result (knowledge_of self.new ≡ with_certificate hash.bytes (knowledge_of self.old)) }
    {
        self.chain.push(Certificate::new(alloc, hash))?;
        Ok(())
    }

    pub fn trust_cert(&mut self, place: u32)
        requires { place < length (knowledge_of self.old).chain }
        ensures { knowledge_of self.new ≡ with_trust place (knowledge_of self.old) }
    {
        self.chain[place as usize].trusted = true;
    }

    /// Sets the value of a key.
    pub fn put_value(
        &mut self,
        alloc: Global,
        place: Place,
        key: &[u8],
        value: Value,
    ) -> Result<(), AllocError>
        requires { HasPlace place (knowledge_of self.old) }
        ensures { OnOk result (knowledge_of self.new ≡ with_value_at place key.now (value_of value) (knowledge_of self.old)) }
    {
        match place {
            Place::Info => self.info.put(alloc, key, value),
            Place::Entitlement => self.entitlements.put(alloc, key, value),
            Place::CertField(at) => self.chain[at as usize].fields.put(alloc, key, value),
            Place::CertOid(at) => self.chain[at as usize].oids.put(alloc, key, value),
            Place::CertPolicy(at) => self.chain[at as usize].policies.put(alloc, key, value),
        }
    }

    /// Adds a member to the list at a key, which it begins where the key has no value; a text and a truth value stay.
    pub fn put_item(
        &mut self,
        alloc: Global,
        place: Place,
        key: &[u8],
        text: &[u8],
    ) -> Result<(), AllocError>
        requires { HasPlace place (knowledge_of self.old) }
        ensures { OnOk result (knowledge_of self.new ≡ with_item_at place key.now text.now (knowledge_of self.old)) }
    {
        match place {
            Place::Info => self.info.put_item(alloc, key, text),
            Place::Entitlement => self.entitlements.put_item(alloc, key, text),
            Place::CertField(at) => self.chain[at as usize].fields.put_item(alloc, key, text),
            Place::CertOid(at) => self.chain[at as usize].oids.put_item(alloc, key, text),
            Place::CertPolicy(at) => self.chain[at as usize].policies.put_item(alloc, key, text),
        }
    }
}
