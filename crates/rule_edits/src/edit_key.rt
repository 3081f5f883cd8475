//! The key under which an edit acts once.

ghost use Rattle.std.specs.Prelude.{◌≡◌, ◌↔◌, IsTrue, true};
ghost use Rattle.std.specs.List.{list_all};
ghost use Rattle.policy_model.specs.Keys.{is_key};
ghost use Rattle.policy_model.specs.Keys as words;

use arrayvec::ArrayVec;
use policy_model::limits::MOST_KEY_BYTES;

/// 1 to 64 letters, digits, dots, underscores and dashes, held in place.
#[derive(Drop, PartialEq, Eq, PartialOrd, Ord)]
pub struct EditKey {
    bytes: ArrayVec<u8, MOST_KEY_BYTES>,
    pub ghost key: { is_key bytes.items ≡ true },
}

impl EditKey {
    ghost use Rattle.std.specs.Prelude.{◌≡◌, ◌↔◌, IsSome, IfSome, IsTrue};
    ghost use Rattle.rule_edits.specs.EditKey.{key_bytes};

    pub fn of(bytes: &[u8]) -> Option<EditKey>
        ensures fits { IsSome result ↔ IsTrue (is_key bytes.now) }
        ensures bytes { IfSome result (λ key. key_bytes key ≡ bytes.now) }
    {
        if is_edit_key(bytes) {
            Some(EditKey::held(bytes))
        } else {
            None
        }
    }

    /// The same key, without memory.
    pub fn copied(&self) -> EditKey
        ensures { key_bytes result ≡ key_bytes self.now }
    {
        EditKey::held(self.as_slice())
    }

    pub fn as_slice(&self) -> &[u8]
        ensures bytes { result.now ≡ key_bytes self.now }
        ensures key { IsTrue (is_key result.now) }
    {
        self.bytes.as_slice()
    }

    fn held(bytes: &[u8]) -> EditKey
        requires { IsTrue (is_key bytes.now) }
        ensures { key_bytes result ≡ bytes.now }
    {
        let mut held = ArrayVec::new();
        let _ = held.try_extend_from_slice(bytes);
        EditKey { bytes: held }
    }
}

fn is_edit_key(bytes: &[u8]) -> bool
    ensures { IsTrue result ↔ IsTrue (is_key bytes.now) }
{
    let some = 1 <= bytes.len();
    let short = bytes.len() <= MOST_KEY_BYTES;
    let plain = all_are_key_bytes(bytes);
    some && short && plain
}

fn all_are_key_bytes(bytes: &[u8]) -> bool
    ensures { result ≡ list_all words.is_key_byte bytes.now }
{
    bytes.iter().all(|byte| is_key_byte(*byte))
}

fn is_key_byte(byte: u8) -> bool
    ensures { result ≡ words.is_key_byte byte }
{
    byte.is_ascii_lowercase()
        || byte.is_ascii_uppercase()
        || byte.is_ascii_digit()
        || byte == b'.'
        || byte == b'_'
        || byte == b'-'
}
