//! Where a value stands.

/// A list of values by key. A certificate is named by its place in the chain, which counts from the leaf at 0.
#[derive(Clone, Copy, Debug, Drop, PartialEq, Eq)]
pub enum Place {
    Info,
    Entitlement,
    /// The fields of a certificate.
    CertField(u32),
    /// The extensions of a certificate, by the bytes of an object identifier.
    CertOid(u32),
    /// The policies of a certificate, by the bytes of an object identifier.
    CertPolicy(u32),
}
