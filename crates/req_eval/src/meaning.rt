//! The meaning of a requirement, down its tree.

ghost use Rattle.std.specs.Prelude.{◌≡◌};
ghost use Rattle.req_tree.specs.Tree.{tree_of};
ghost use Rattle.req_tree.specs.Spellable.{IsShallow};
ghost use Rattle.req_tree.specs.Subject.{subject_of};
ghost use Rattle.req_tree.specs.Meaning.{means};
ghost use Rattle.fact_values.specs.Knowledge.{known_in};

use crate::{certs, known};
use fact_values::{FactFlag, Facts};
use req_tree::{Req, Subject};

/// Whether the requirement holds of the subject, of whose hash these facts are known, or none.
pub fn eval(req: &Req, subject: &Subject, facts: Option<&Facts>) -> bool
    requires { IsShallow (tree_of req.now) }
    ensures { result ≡ means (tree_of req.now) (subject_of subject.now) (known_in facts.entry) }
{
    match req {
        Req::Never => false,
        Req::Always => true,
        Req::Ident { value } => subject.identifier.as_slice() == value.as_slice(),
        Req::AppleAnchor => known::has_flag(facts, FactFlag::AppleAnchor),
        Req::AnchorHash { slot, hash } => certs::has_hash(facts, *slot, hash),
        Req::LegacyInfo { key, value } => known::info_equals(facts, key, value),
        Req::Both { left, right } => eval(left, subject, facts) && eval(right, subject, facts),
        Req::Either { left, right } => eval(left, subject, facts) || eval(right, subject, facts),
        Req::CdHash { hash } => subject.cdhash == *hash,
        Req::Negate { inner } => !eval(inner, subject, facts),
        Req::InfoField { key, test } => known::info_matches(facts, key, test),
        Req::CertField { slot, key, test } => certs::field_matches(facts, *slot, key, test),
        Req::TrustedCert { slot } => certs::is_trusted(facts, *slot),
        Req::TrustedAny => known::any_trusted(facts),
        Req::CertOid { slot, oid, test } => certs::oid_matches(facts, *slot, oid, test),
        Req::AppleGeneric => known::has_flag(facts, FactFlag::AppleGeneric),
        Req::EntitlementField { key, test } => known::entitlement_matches(facts, key, test),
        Req::CertPolicy { slot, oid, test } => certs::policy_matches(facts, *slot, oid, test),
        Req::NamedAnchor { name } => known::has_anchor_name(facts, name),
        Req::NamedCode { name } => known::has_code_name(facts, name),
        Req::Platform { number } => i32::from(subject.platform) == *number,
        Req::Notarized => known::has_flag(facts, FactFlag::Notarized),
        Req::LegacyDevId => known::has_flag(facts, FactFlag::LegacyDevId),
        Req::SkipFalse { op: _, skipped: _ } => false,
        Req::SkipNext {
            op: _,
            skipped: _,
            inner,
        } => eval(inner, subject, facts),
    }
}
