//! What is known of one hash.

ghost use Rattle.std.specs.Prelude.{◌≤◌, length};
ghost use Rattle.fact_values.specs.declared.limits.TheConstants.{MOST_CERTIFICATES};

use crate::certificate::Certificate;
use crate::flag::FactFlag;
use crate::names::Names;
use crate::place::Place;
use crate::value::Value;
use crate::values::Values;
use req_tree::{Hash20, Oid};
use std::alloc::Global;

/// Flags, names, a chain of certificates from the leaf at 0, and values by key.
#[derive(Drop)]
pub struct Facts {
    pub(crate) apple_anchor: bool,
    pub(crate) apple_generic: bool,
    pub(crate) notarized: bool,
    pub(crate) legacy_dev_id: bool,
    pub(crate) anchor_names: Names,
    pub(crate) code_names: Names,
    pub(crate) chain: Vec<Certificate>,
    pub(crate) info: Values,
    pub(crate) entitlements: Values,
    pub ghost few: { length chain.items ≤ MOST_CERTIFICATES },
}

impl Facts {
    ghost use Rattle.std.specs.Prelude.{◌≡◌, ◌<◌, ◌≤◌, ◌↔◌, length, slice_get, IsTrue};
    ghost use Rattle.std.specs.List.{list_any};
    ghost use Rattle.req_tree.specs.Facts as f;
    ghost use Rattle.req_tree.specs.Facts.{nothing};
    ghost use Rattle.fact_values.specs.Keyed.{value_found};
    ghost use Rattle.fact_values.specs.Knowledge.{knowledge_of, certificate_found, has_flag, hash_at, trusted_at, value_at, HasPlace};
    ghost use Rattle.fact_values.specs.declared.place.Place.TheVariants.{Info, Entitlement, CertField, CertOid, CertPolicy};

    /// Nothing is known.
    pub fn empty(alloc: Global) -> Facts
        ensures { knowledge_of result ≡ nothing }
    {
        Facts {
            apple_anchor: false,
            apple_generic: false,
            notarized: false,
            legacy_dev_id: false,
            anchor_names: Names::new(alloc),
            code_names: Names::new(alloc),
            chain: Vec::new(alloc),
            info: Values::new(alloc),
            entitlements: Values::new(alloc),
        }
    }

    pub fn flag(&self, which: FactFlag) -> bool
        ensures { result ≡ has_flag which (knowledge_of self.now) }
    {
        match which {
            FactFlag::AppleAnchor => self.apple_anchor,
            FactFlag::AppleGeneric => self.apple_generic,
            FactFlag::Notarized => self.notarized,
            FactFlag::LegacyDevId => self.legacy_dev_id,
        }
    }

    pub fn anchor_name(&self, name: &[u8]) -> bool
        ensures { result ≡ (knowledge_of self.now).anchor_name name.now }
    {
        self.anchor_names.has(name)
    }

    pub fn code_name(&self, name: &[u8]) -> bool
        ensures { result ≡ (knowledge_of self.now).code_name name.now }
    {
        self.code_names.has(name)
    }

    pub fn cert_count(&self) -> u32
        ensures count { result ≡ length (knowledge_of self.now).chain }
        ensures few { result ≤ MOST_CERTIFICATES }
    {
        self.chain.len() as u32
    }

    /// The certificate of a place, and none where the chain ends before.
    pub fn certificate(&self, place: u32) -> Option<&Certificate>
        ensures { certificate_found result ≡ slice_get (knowledge_of self.now).chain place }
    {
        self.chain.get(place as usize)
    }

    pub fn any_trusted(&self) -> bool
        ensures { result ≡ list_any (λ (c : f.Certificate). c.trusted) (knowledge_of self.now).chain }
    {
        for certificate in &self.chain {
            if certificate.trusted {
                return true;
            }
        }
        false
    }

    pub fn cert_hash(&self, place: u32) -> Hash20
        requires { place < length (knowledge_of self.now).chain }
        ensures { result.bytes ≡ hash_at place (knowledge_of self.now) }
    {
        self.chain[place as usize].hash
    }

    pub fn cert_trusted(&self, place: u32) -> bool
        requires { place < length (knowledge_of self.now).chain }
        ensures { result ≡ trusted_at place (knowledge_of self.now) }
    {
        self.chain[place as usize].trusted
    }

    pub fn cert_field(&self, place: u32, key: &[u8]) -> Option<&Value>
        requires { place < length (knowledge_of self.now).chain }
        ensures { value_found result ≡ value_at (CertField place) (knowledge_of self.now) key.now }
    {
        self.chain[place as usize].fields.get(key)
    }

    /// By the bytes of the object identifier.
    pub fn cert_oid(&self, place: u32, oid: &Oid) -> Option<&Value>
        requires { place < length (knowledge_of self.now).chain }
        ensures { value_found result ≡ value_at (CertOid place) (knowledge_of self.now) oid.now }
    {
        self.chain[place as usize].oids.get(oid.as_slice())
    }

    /// By the bytes of the object identifier.
    pub fn cert_policy(&self, place: u32, oid: &Oid) -> Option<&Value>
        requires { place < length (knowledge_of self.now).chain }
        ensures { value_found result ≡ value_at (CertPolicy place) (knowledge_of self.now) oid.now }
    {
        self.chain[place as usize].policies.get(oid.as_slice())
    }

    pub fn info(&self, key: &[u8]) -> Option<&Value>
        ensures { value_found result ≡ (knowledge_of self.now).info key.now }
    {
        self.info.get(key)
    }

    pub fn entitlement(&self, key: &[u8]) -> Option<&Value>
        ensures { value_found result ≡ (knowledge_of self.now).entitlement key.now }
    {
        self.entitlements.get(key)
    }

    /// Whether the chain has the certificate that a place names.
    pub fn has_place(&self, place: Place) -> bool
        ensures { IsTrue result ↔ HasPlace place (knowledge_of self.now) }
    {
        match place {
            Place::Info | Place::Entitlement => true,
            Place::CertField(at) | Place::CertOid(at) | Place::CertPolicy(at) => {
                at < self.cert_count()
            }
        }
    }

    /// The value at a key of any place; none where the chain has no such certificate.
    pub fn value_at(&self, place: Place, key: &[u8]) -> Option<&Value>
        ensures { value_found result ≡ value_at place (knowledge_of self.now) key.now }
    {
        match place {
            Place::Info => self.info.get(key),
            Place::Entitlement => self.entitlements.get(key),
            Place::CertField(at) => self.chain.get(at as usize)?.fields.get(key),
            Place::CertOid(at) => self.chain.get(at as usize)?.oids.get(key),
            Place::CertPolicy(at) => self.chain.get(at as usize)?.policies.get(key),
        }
    }
}
