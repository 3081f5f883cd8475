//! Symbols and reserved words.

ghost use Rattle.std.specs.Prelude.{◌≡◌};
ghost use Rattle.std.specs.Option.{option_map};
ghost use Rattle.req_grammar.specs.Words.{signs, reserved, under};
ghost use Rattle.req_tokens.specs.Words.{plain_sign, plain_word, early, late};

/// A symbol.
#[derive(Clone, Copy, Drop)]
pub enum Sign {
    LeftParen,
    RightParen,
    LeftBracket,
    RightBracket,
    Bang,
    Equal,
    Arrow,
    Less,
    LessEqual,
    Greater,
    GreaterEqual,
    Tilde,
    Star,
    Dash,
}

/// A reserved word. `True` and `False` are other words for `Always` and `Never`, as `Cert` is for `Certificate`.
#[derive(Clone, Copy, Drop)]
pub enum Word {
    Always,
    True,
    Never,
    False,
    Identifier,
    Cdhash,
    Anchor,
    Apple,
    Generic,
    Trusted,
    Certificate,
    Cert,
    Leaf,
    Root,
    Info,
    Entitlement,
    Platform,
    Notarized,
    Legacy,
    Exists,
    Absent,
    And,
    Or,
    Host,
    Guest,
    Designated,
    Library,
    Plugin,
}

/// The symbol with these bytes.
pub(crate) fn sign_of(text: &[u8]) -> Option<Sign>
    ensures { option_map plain_sign result ≡ under text.now signs }
{
    if b"(".as_slice() == text {
        Some(Sign::LeftParen)
    } else if b")".as_slice() == text {
        Some(Sign::RightParen)
    } else if b"[".as_slice() == text {
        Some(Sign::LeftBracket)
    } else if b"]".as_slice() == text {
        Some(Sign::RightBracket)
    } else if b"!".as_slice() == text {
        Some(Sign::Bang)
    } else if b"=".as_slice() == text {
        Some(Sign::Equal)
    } else if b"=>".as_slice() == text {
        Some(Sign::Arrow)
    } else if b"<".as_slice() == text {
        Some(Sign::Less)
    } else if b"<=".as_slice() == text {
        Some(Sign::LessEqual)
    } else if b">".as_slice() == text {
        Some(Sign::Greater)
    } else if b">=".as_slice() == text {
        Some(Sign::GreaterEqual)
    } else if b"~".as_slice() == text {
        Some(Sign::Tilde)
    } else if b"*".as_slice() == text {
        Some(Sign::Star)
    } else if b"-".as_slice() == text {
        Some(Sign::Dash)
    } else {
        None
    }
}

/// The reserved word with these bytes.
pub(crate) fn word_of(text: &[u8]) -> Option<Word>
    ensures { option_map plain_word result ≡ under text.now reserved }
{
    match early_word(text) {
        Some(word) => Some(word),
        None => late_word(text),
    }
}

/// One of the first half.
fn early_word(text: &[u8]) -> Option<Word>
    ensures { option_map plain_word result ≡ under text.now early }
{
    if b"always".as_slice() == text {
        Some(Word::Always)
    } else if b"true".as_slice() == text {
        Some(Word::True)
    } else if b"never".as_slice() == text {
        Some(Word::Never)
    } else if b"false".as_slice() == text {
        Some(Word::False)
    } else if b"identifier".as_slice() == text {
        Some(Word::Identifier)
    } else if b"cdhash".as_slice() == text {
        Some(Word::Cdhash)
    } else if b"anchor".as_slice() == text {
        Some(Word::Anchor)
    } else if b"apple".as_slice() == text {
        Some(Word::Apple)
    } else if b"generic".as_slice() == text {
        Some(Word::Generic)
    } else if b"trusted".as_slice() == text {
        Some(Word::Trusted)
    } else if b"certificate".as_slice() == text {
        Some(Word::Certificate)
    } else if b"cert".as_slice() == text {
        Some(Word::Cert)
    } else if b"leaf".as_slice() == text {
        Some(Word::Leaf)
    } else if b"root".as_slice() == text {
        Some(Word::Root)
    } else {
        None
    }
}

/// One of the second half.
fn late_word(text: &[u8]) -> Option<Word>
    ensures { option_map plain_word result ≡ under text.now late }
{
    if b"info".as_slice() == text {
        Some(Word::Info)
    } else if b"entitlement".as_slice() == text {
        Some(Word::Entitlement)
    } else if b"platform".as_slice() == text {
        Some(Word::Platform)
    } else if b"notarized".as_slice() == text {
        Some(Word::Notarized)
    } else if b"legacy".as_slice() == text {
        Some(Word::Legacy)
    } else if b"exists".as_slice() == text {
        Some(Word::Exists)
    } else if b"absent".as_slice() == text {
        Some(Word::Absent)
    } else if b"and".as_slice() == text {
        Some(Word::And)
    } else if b"or".as_slice() == text {
        Some(Word::Or)
    } else if b"host".as_slice() == text {
        Some(Word::Host)
    } else if b"guest".as_slice() == text {
        Some(Word::Guest)
    } else if b"designated".as_slice() == text {
        Some(Word::Designated)
    } else if b"library".as_slice() == text {
        Some(Word::Library)
    } else if b"plugin".as_slice() == text {
        Some(Word::Plugin)
    } else {
        None
    }
}
