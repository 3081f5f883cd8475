//! A tree as text: its variants, and where parentheses stand.

ghost use Rattle.std.specs.Prelude.{◌≡◌, ◌++◌, codes, OnOk};
ghost use Rattle.req_tree.specs.Tree.{tree_of};
ghost use Rattle.dumped_text.specs.Dumped.{dumped_at};
ghost use Rattle.dumped_text.specs.Sayable.{IsKept};
ghost use Rattle.req_dumper.specs.Places.{place_of};

use crate::field::{
    put_anchor_hash, put_cert_field, put_cert_oid, put_field, put_hashed, put_named,
    put_named_code, put_old_field, put_platform, put_skipped, put_trusted,
};
use crate::place::{Place, needs_and, needs_or};
use crate::writing::{put, put_if};
use req_tree::Req;
use std::alloc::AllocError;

/// Appends the text of a requirement that stands at a place.
pub(crate) fn put_req(out: &mut Vec<u8>, place: Place, req: &Req) -> Result<(), AllocError>
    ensures text { OnOk result (out.new.items ≡ out.old.items ++ dumped_at (place_of place) (tree_of req.now)) }
    ensures kept { OnOk result (IsKept (tree_of req.now)) }
{
    match req {
        Req::Never => put(out, b"never"),
        Req::Always => put(out, b"always"),
        Req::Ident { value } => put_named(out, b"identifier ", value),
        Req::AppleAnchor => put(out, b"anchor apple"),
        Req::AnchorHash { slot, hash } => put_anchor_hash(out, *slot, hash),
        Req::LegacyInfo { key, value } => put_old_field(out, key, value),
        Req::Both { left, right } => {
            put_if(out, needs_and(place), b"(")?;
            put_req(out, Place::BesideAnd, left)?;
            put(out, b" and ")?;
            put_req(out, Place::BesideAnd, right)?;
            put_if(out, needs_and(place), b")")
        }
        Req::Either { left, right } => {
            put_if(out, needs_or(place), b"(")?;
            put_req(out, Place::Alone, left)?;
            put(out, b" or ")?;
            put_req(out, Place::Alone, right)?;
            put_if(out, needs_or(place), b")")
        }
        Req::CdHash { hash } => put_hashed(out, b"cdhash ", hash),
        Req::Negate { inner } => {
            put(out, b"! ")?;
            put_req(out, Place::BehindBang, inner)
        }
        Req::InfoField { key, test } => put_field(out, b"info", key, test),
        Req::CertField { slot, key, test } => put_cert_field(out, *slot, key, test),
        Req::TrustedCert { slot } => put_trusted(out, *slot),
        Req::TrustedAny => put(out, b"anchor trusted"),
        Req::CertOid { slot, oid, test } => put_cert_oid(out, *slot, b"field.", oid, test),
        Req::AppleGeneric => put(out, b"anchor apple generic"),
        Req::EntitlementField { key, test } => put_field(out, b"entitlement", key, test),
        Req::CertPolicy { slot, oid, test } => put_cert_oid(out, *slot, b"policy.", oid, test),
        Req::NamedAnchor { name } => put_named(out, b"anchor apple ", name),
        Req::NamedCode { name } => put_named_code(out, name),
        Req::Platform { number } => put_platform(out, *number),
        Req::Notarized => put(out, b"notarized"),
        Req::LegacyDevId => put(out, b"legacy"),
        Req::SkipFalse { op, skipped } => {
            put(out, b"never /* ")?;
            put_skipped(out, *op, skipped)?;
            put(out, b" */")
        }
        Req::SkipNext { op, skipped, inner } => {
            put(out, b"/* skipped ")?;
            put_skipped(out, *op, skipped)?;
            put(out, b" */ ")?;
            put_req(out, place, inner)
        }
    }
}
