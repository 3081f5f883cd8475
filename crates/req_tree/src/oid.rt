//! Object identifiers, as their bytes.

ghost use Rattle.std.specs.Prelude.{◌≡◌, true};
ghost use Rattle.req_tree.specs.Oid.{IsOidBytes};
ghost use Rattle.req_tree.specs.OidReading.{is_oid};

use line_text::Bytes;
use std::marker::Model;

/// An object identifier: the contents of its BER encoding (ITU-T X.690, 8.19).
#[derive(Drop)]
pub struct Oid {
    bytes: Bytes,
}

impl Model for Oid {
    ghost use Rattle.std.specs.Prelude.{List, ℕ};
    ghost use Rattle.req_tree.specs.Oid.{IsOidBytes};

    ghost Value = { List ℕ };

    ghost view = { λ oid. oid.bytes };

    ghost invariant = { λ oid. IsOidBytes oid.bytes };
}

impl Oid {
    pub(crate) fn held(bytes: Bytes) -> Oid
        requires { IsOidBytes bytes }
        ensures { result ≡ bytes }
    {
        Oid { bytes }
    }

    pub fn as_slice(&self) -> &[u8]
        ensures bytes { result.now ≡ self.now }
        ensures oid { IsOidBytes self.now }
        ensures read { is_oid self.now ≡ true }
    {
        self.bytes.as_slice()
    }
}

impl PartialEq for Oid {
    ghost use Rattle.std.specs.Prelude.{◌==◌};
    ghost use Rattle.std.specs.Cmp.Lexicographic.{pointwise};
    ghost use Rattle.std.proofs.Common.{rules};
    ghost use Rattle.std.specs.Cmp.Rules.{comparing};

    ghost eq = { pointwise ◌==◌ };

    ghost laws = { Prim.search (comparing, rules) };

    fn eq(&self, other: &Oid) -> bool {
        self.as_slice() == other.as_slice()
    }
}

impl Eq for Oid {
    ghost use Rattle.std.proofs.Common.{rules};
    ghost use Rattle.std.specs.Cmp.Rules.{comparing};

    ghost laws = { Prim.search (comparing, rules) };
}
