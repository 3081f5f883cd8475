//! The second field of a row.

ghost use Rattle.std.specs.Prelude.{◌≡◌, option_map};
ghost use Rattle.code_facts.specs.Rows.{scope_word};
ghost use Rattle.code_facts.specs.RowCode.{scope_of};

/// What a row is about.
#[derive(Clone, Copy, Debug, Drop, PartialEq, Eq)]
pub enum Scope {
    Flag,
    AnchorName,
    CodeName,
    Cert,
    CertTrusted,
    CertField,
    CertOid,
    CertPolicy,
    Info,
    Entitlement,
}

pub(crate) fn read_scope(word: &[u8]) -> Option<Scope>
    ensures { option_map scope_of result ≡ scope_word word.now }
{
    if word == b"flag".as_slice() {
        Some(Scope::Flag)
    } else if word == b"anchor-name".as_slice() {
        Some(Scope::AnchorName)
    } else if word == b"code-name".as_slice() {
        Some(Scope::CodeName)
    } else if word == b"cert".as_slice() {
        Some(Scope::Cert)
    } else if word == b"cert-trusted".as_slice() {
        Some(Scope::CertTrusted)
    } else if word == b"cert-field".as_slice() {
        Some(Scope::CertField)
    } else if word == b"cert-oid".as_slice() {
        Some(Scope::CertOid)
    } else if word == b"cert-policy".as_slice() {
        Some(Scope::CertPolicy)
    } else if word == b"info".as_slice() {
        Some(Scope::Info)
    } else if word == b"entitlement".as_slice() {
        Some(Scope::Entitlement)
    } else {
        None
    }
}
