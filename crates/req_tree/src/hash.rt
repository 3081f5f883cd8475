//! A digest of 20 bytes, by which code and certificates are named.

ghost use Rattle.std.specs.Prelude.{◌≡◌};
ghost use Rattle.std.specs.Option.{option_map};
ghost use Rattle.req_tree.specs.HashWord.{hash_word};

/// A digest cut to 20 bytes: a cdhash, or the hash of a certificate.
#[derive(Clone, Copy, Debug, Drop, PartialEq, Eq, Hash)]
pub struct Hash20 {
    pub bytes: [u8; 20],
}

/// Forty hexadecimal digits of either case.
pub fn read_hash(word: &[u8]) -> Option<Hash20>
    ensures { option_map (λ (hash : Hash20). hash.bytes) result ≡ hash_word word.now }
{
    let mut bytes = [0; 20];
    match hex::decode_to_slice(word, &mut bytes) {
        Ok(()) => Some(Hash20 { bytes }),
        Err(_) => None,
    }
}
