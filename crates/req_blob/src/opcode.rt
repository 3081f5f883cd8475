//! What the first word of an expression asks for.

ghost use Rattle.std.specs.Prelude.{◌≡◌};
ghost use Rattle.req_blob.specs.Opcodes as spec;

/// An opcode without subexpressions.
#[derive(Clone, Copy, Drop)]
pub(crate) enum Leaf {
    Never,
    Always,
    Ident,
    AppleAnchor,
    AnchorHash,
    LegacyInfo,
    CdHash,
    InfoField,
    CertField,
    TrustedCert,
    TrustedAny,
    CertOid,
    AppleGeneric,
    EntitlementField,
    CertPolicy,
    NamedAnchor,
    NamedCode,
    Platform,
    Notarized,
    LegacyDevId,
}

/// An opcode, with its flags taken into account.
#[derive(Clone, Copy, Drop)]
pub(crate) enum Opcode {
    Leaf(Leaf),
    Both,
    Either,
    Negate,
    /// Known, and refused.
    OutOfScope,
    /// Unknown, and false.
    SkipFalse,
    /// Unknown, and to be passed over.
    SkipNext,
    /// Unknown, and refused.
    Unknown,
}

/// The low 24 bits of a word are the opcode's number, and the others are flags.
#[tactic(auto, unfolding(crate::specs::Opcodes::opcode_of))]
pub(crate) fn opcode_of(first: u32) -> Opcode
    ensures { result ≡ spec.opcode_of first }
{
    match first % 0x100_0000 {
        0 => Opcode::Leaf(Leaf::Never),
        1 => Opcode::Leaf(Leaf::Always),
        2 => Opcode::Leaf(Leaf::Ident),
        3 => Opcode::Leaf(Leaf::AppleAnchor),
        4 => Opcode::Leaf(Leaf::AnchorHash),
        5 => Opcode::Leaf(Leaf::LegacyInfo),
        6 => Opcode::Both,
        7 => Opcode::Either,
        8 => Opcode::Leaf(Leaf::CdHash),
        9 => Opcode::Negate,
        10 => Opcode::Leaf(Leaf::InfoField),
        11 => Opcode::Leaf(Leaf::CertField),
        12 => Opcode::Leaf(Leaf::TrustedCert),
        13 => Opcode::Leaf(Leaf::TrustedAny),
        14 => Opcode::Leaf(Leaf::CertOid),
        15 => Opcode::Leaf(Leaf::AppleGeneric),
        16 => Opcode::Leaf(Leaf::EntitlementField),
        17 => Opcode::Leaf(Leaf::CertPolicy),
        18 => Opcode::Leaf(Leaf::NamedAnchor),
        19 => Opcode::Leaf(Leaf::NamedCode),
        20 => Opcode::Leaf(Leaf::Platform),
        21 => Opcode::Leaf(Leaf::Notarized),
        22 => Opcode::OutOfScope,
        23 => Opcode::Leaf(Leaf::LegacyDevId),
        _ => unknown_of(first),
    }
}

/// The two highest bits say how an unknown opcode is passed over; the highest goes first.
fn unknown_of(first: u32) -> Opcode
    ensures { result ≡ spec.unknown_of first }
{
    if first < 0x4000_0000 {
        Opcode::Unknown
    } else if first < 0x8000_0000 {
        Opcode::SkipNext
    } else {
        Opcode::SkipFalse
    }
}
