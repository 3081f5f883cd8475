//! The tree of a requirement, one variant for each opcode of the language.

use crate::hash::Hash20;
use crate::matching::Match;
use crate::oid::Oid;
use line_text::Bytes;

/// A requirement. A `slot` names a certificate of the chain: 0 is the leaf, -1 the anchor.
#[derive(PartialEq, Eq)]
pub enum Req {
    Never,
    Always,
    Ident {
        value: Bytes,
    },
    AppleAnchor,
    AnchorHash {
        slot: i32,
        hash: Hash20,
    },
    /// An old form of `InfoField` with `Equal`.
    LegacyInfo {
        key: Bytes,
        value: Bytes,
    },
    Both {
        left: Box<Req>,
        right: Box<Req>,
    },
    Either {
        left: Box<Req>,
        right: Box<Req>,
    },
    CdHash {
        hash: Hash20,
    },
    Negate {
        inner: Box<Req>,
    },
    InfoField {
        key: Bytes,
        test: Match,
    },
    CertField {
        slot: i32,
        key: Bytes,
        test: Match,
    },
    TrustedCert {
        slot: i32,
    },
    TrustedAny,
    CertOid {
        slot: i32,
        oid: Oid,
        test: Match,
    },
    AppleGeneric,
    EntitlementField {
        key: Bytes,
        test: Match,
    },
    CertPolicy {
        slot: i32,
        oid: Oid,
        test: Match,
    },
    NamedAnchor {
        name: Bytes,
    },
    NamedCode {
        name: Bytes,
    },
    Platform {
        number: i32,
    },
    Notarized,
    LegacyDevId,
    /// An unknown opcode that may be skipped, and is false.
    SkipFalse {
        op: u32,
        skipped: Bytes,
    },
    /// An unknown opcode that may be skipped, and means what follows it.
    SkipNext {
        op: u32,
        skipped: Bytes,
        inner: Box<Req>,
    },
}

impl Drop for Req {
    fn drop(self) {
        match self {
            Req::Never => (),
            Req::Always => (),
            Req::Ident { value: _ } => (),
            Req::AppleAnchor => (),
            Req::AnchorHash { slot: _, hash: _ } => (),
            Req::LegacyInfo { key: _, value: _ } => (),
            Req::Both { left: _, right: _ } => (),
            Req::Either { left: _, right: _ } => (),
            Req::CdHash { hash: _ } => (),
            Req::Negate { inner: _ } => (),
            Req::InfoField { key: _, test } => drop(test),
            Req::CertField {
                slot: _,
                key: _,
                test,
            } => drop(test),
            Req::TrustedCert { slot: _ } => (),
            Req::TrustedAny => (),
            Req::CertOid {
                slot: _,
                oid: _,
                test,
            } => drop(test),
            Req::AppleGeneric => (),
            Req::EntitlementField { key: _, test } => drop(test),
            Req::CertPolicy {
                slot: _,
                oid: _,
                test,
            } => drop(test),
            Req::NamedAnchor { name: _ } => (),
            Req::NamedCode { name: _ } => (),
            Req::Platform { number: _ } => (),
            Req::Notarized => (),
            Req::LegacyDevId => (),
            Req::SkipFalse { op: _, skipped: _ } => (),
            Req::SkipNext {
                op: _,
                skipped: _,
                inner: _,
            } => (),
        }
    }
}
