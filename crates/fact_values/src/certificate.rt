//! What is known of a certificate.

use crate::value::Value;
use crate::values::Values;
use req_tree::{Hash20, Oid};
use std::alloc::Global;

/// A certificate of a chain.
#[derive(Drop)]
pub struct Certificate {
    pub(crate) hash: Hash20,
    pub(crate) trusted: bool,
    pub(crate) fields: Values,
    pub(crate) oids: Values,
    pub(crate) policies: Values,
}

impl Certificate {
    ghost use Rattle.std.specs.Prelude.{◌≡◌};
    ghost use Rattle.fact_values.specs.Keyed.{value_found};
    ghost use Rattle.fact_values.specs.Knowledge.{certificate_of};
    ghost use Rattle.fact_values.specs.Growth.{new_certificate};

    /// One of which only its hash is known.
    pub(crate) fn new(alloc: Global, hash: Hash20) -> Certificate
        ensures { certificate_of result ≡ new_certificate hash.bytes }
    {
        Certificate {
            hash,
            trusted: false,
            fields: Values::new(alloc),
            oids: Values::new(alloc),
            policies: Values::new(alloc),
        }
    }

    pub fn hash(&self) -> Hash20
        ensures { result.bytes ≡ (certificate_of self.now).hash }
    {
        self.hash
    }

    pub fn is_trusted(&self) -> bool
        ensures { result ≡ (certificate_of self.now).trusted }
    {
        self.trusted
    }

    pub fn field(&self, key: &[u8]) -> Option<&Value>
        ensures { value_found result ≡ (certificate_of self.now).field key.now }
    {
        self.fields.get(key)
    }

    /// The value at an extension.
    pub fn oid(&self, oid: &Oid) -> Option<&Value>
        ensures { value_found result ≡ (certificate_of self.now).oid oid.now }
    {
        self.oids.get(oid.as_slice())
    }

    /// The value at a policy.
    pub fn policy(&self, oid: &Oid) -> Option<&Value>
        ensures { value_found result ≡ (certificate_of self.now).policy oid.now }
    {
        self.policies.get(oid.as_slice())
    }
}
