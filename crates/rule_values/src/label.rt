//! The name that a rule shows to an administrator.

ghost use Rattle.std.specs.Prelude.{◌≤◌};
ghost use Rattle.arrayvec.specs.ArrayVec.{array_vec_len};
ghost use Rattle.policy_model.specs.declared.limits.TheConstants.{MOST_LABEL_BYTES};

use arrayvec::ArrayVec;
use policy_model::limits::MOST_LABEL_BYTES;

/// Up to 128 bytes of any kind, held in place.
#[derive(Drop)]
pub struct Label {
    bytes: ArrayVec<u8, MOST_LABEL_BYTES>,
    pub ghost short: { array_vec_len bytes ≤ MOST_LABEL_BYTES },
}

impl Label {
    ghost use Rattle.std.specs.Prelude.{◌≡◌, ◌≤◌, ◌↔◌, length, IsSome, IfSome, [], bytes_eq};
    ghost use Rattle.rule_values.specs.Label.{label_bytes};

    /// The label of no bytes.
    pub fn empty() -> Label
        ensures { label_bytes result ≡ [] }
    {
        Label {
            bytes: ArrayVec::new(),
        }
    }

    pub fn of(bytes: &[u8]) -> Option<Label>
        ensures fits { IsSome result ↔ (length bytes.now ≤ MOST_LABEL_BYTES) }
        ensures bytes { IfSome result (λ label. label_bytes label ≡ bytes.now) }
    {
        if bytes.len() <= MOST_LABEL_BYTES {
            Some(Label::holding(bytes))
        } else {
            None
        }
    }

    /// The same label, without memory.
    pub fn copied(&self) -> Label
        ensures { label_bytes result ≡ label_bytes self.now }
    {
        Label::holding(self.as_slice())
    }

    pub fn as_slice(&self) -> &[u8]
        ensures bytes { result.now ≡ label_bytes self.now }
        ensures short { length result.now ≤ MOST_LABEL_BYTES }
    {
        self.bytes.as_slice()
    }

    pub fn is(&self, other: &Label) -> bool
        ensures { result ≡ bytes_eq (label_bytes self.now) (label_bytes other.now) }
    {
        self.as_slice() == other.as_slice()
    }

    /// The label of a caller that knows it to be short enough.
    pub fn holding(bytes: &[u8]) -> Label
        requires { length bytes.now ≤ MOST_LABEL_BYTES }
        ensures { label_bytes result ≡ bytes.now }
    {
        let mut held = ArrayVec::new();
        let _ = held.try_extend_from_slice(bytes);
        Label { bytes: held }
    }
}
