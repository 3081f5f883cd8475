//! Reserved words.

ghost use Rattle.std.specs.Prelude.{◌≡◌, ◌∷◌, [], codes, not, length};
ghost use Rattle.std.specs.Str.{bytes_eq};
ghost use Rattle.dumped_text.specs.Dumped as spec;
ghost use Rattle.req_dumper.specs.ReservedWords.{is_one_of};

/// Whether bytes are no reserved word. Only words of their length are looked at.
pub(crate) fn is_free(bytes: &[u8]) -> bool
    ensures { result ≡ spec.is_free bytes.now }
{
    !is_reserved_word(bytes)
}

fn is_reserved_word(bytes: &[u8]) -> bool
    ensures { spec.is_free bytes.now ≡ not result }
{
    let size = bytes.len();
    if size == 2 {
        is_same(b"or", bytes)
    } else if size == 3 {
        is_same(b"and", bytes)
    } else if size == 4 {
        is_one_of_four(bytes)
    } else if size == 5 {
        is_one_of_five(bytes)
    } else if size == 6 {
        is_one_of_six(bytes)
    } else if size == 7 {
        is_one_of_seven(bytes)
    } else if size == 8 {
        is_same(b"platform", bytes)
    } else if size == 9 {
        is_same(b"notarized", bytes)
    } else if size == 10 {
        is_same(b"identifier", bytes) | is_same(b"designated", bytes)
    } else if size == 11 {
        is_same(b"certificate", bytes) | is_same(b"entitlement", bytes)
    } else {
        false
    }
}

fn is_same(word: &[u8], bytes: &[u8]) -> bool
    ensures { result ≡ bytes_eq word.now bytes.now }
{
    word == bytes
}

fn is_one_of_four(bytes: &[u8]) -> bool
    ensures { result ≡ is_one_of bytes.now (codes "true" ∷ codes "cert" ∷ codes "leaf" ∷ codes "root" ∷ codes "info" ∷ codes "host" ∷ []) }
{
    is_same(b"true", bytes)
        | (is_same(b"cert", bytes)
            | (is_same(b"leaf", bytes)
                | (is_same(b"root", bytes)
                    | (is_same(b"info", bytes) | (is_same(b"host", bytes))))))
}

fn is_one_of_five(bytes: &[u8]) -> bool
    ensures { result ≡ is_one_of bytes.now (codes "never" ∷ codes "false" ∷ codes "apple" ∷ codes "guest" ∷ []) }
{
    is_same(b"never", bytes)
        | (is_same(b"false", bytes) | (is_same(b"apple", bytes) | (is_same(b"guest", bytes))))
}

fn is_one_of_six(bytes: &[u8]) -> bool
    ensures { result ≡ is_one_of bytes.now (codes "always" ∷ codes "cdhash" ∷ codes "anchor" ∷ codes "legacy" ∷ codes "exists" ∷ codes "absent" ∷ codes "plugin" ∷ []) }
{
    is_same(b"always", bytes)
        | (is_same(b"cdhash", bytes)
            | (is_same(b"anchor", bytes)
                | (is_same(b"legacy", bytes)
                    | (is_same(b"exists", bytes)
                        | (is_same(b"absent", bytes) | (is_same(b"plugin", bytes)))))))
}

fn is_one_of_seven(bytes: &[u8]) -> bool
    ensures { result ≡ is_one_of bytes.now (codes "generic" ∷ codes "trusted" ∷ codes "library" ∷ []) }
{
    is_same(b"generic", bytes) | (is_same(b"trusted", bytes) | (is_same(b"library", bytes)))
}
