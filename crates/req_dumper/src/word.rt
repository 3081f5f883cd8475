//! How the bytes of a string may be written.

ghost use Rattle.std.specs.Prelude.{◌≡◌, false, ◌==◌, ◌&&◌, length};
ghost use Rattle.std.specs.List.{list_all};
ghost use Rattle.req_grammar.specs.Tokens.{goes_on, is_letter, is_letter_or_digit, is_run};
ghost use Rattle.req_grammar.specs.Tokens as token;
ghost use Rattle.dumped_text.specs.Dumped as spec;
ghost use Rattle.req_dumper.specs.Runs as runs;

use crate::reserved::is_free;

/// Whether a string stands bare: a letter, then letters and digits, and no reserved word.
pub(crate) fn is_bare(bytes: &[u8]) -> bool
    ensures { result ≡ spec.is_bare bytes.now }
{
    begins_with_letter(bytes) && all_letters_or_digits(bytes) && is_free(bytes)
}

/// Whether bytes are a word: a letter first, and letters and digits between the dots.
pub(crate) fn is_word(bytes: &[u8]) -> bool
    ensures { result ≡ token.is_word bytes.now }
{
    begins_with_letter(bytes) && are_runs(bytes)
}

/// Whether bytes are runs of letters and digits with dots between them.
fn are_runs(bytes: &[u8]) -> bool
    ensures { result ≡ runs.runs_on (Some false) bytes.now }
{
    let mut begun = false;
    for byte in bytes {
        match run_step(begun, *byte) {
            Some(now) => begun = now,
            None => return false,
        }
    }
    begun
}

/// Whether the run so far has a byte, after one more byte, and `None` where the byte can't stand there.
fn run_step(begun: bool, byte: u8) -> Option<bool>
    ensures { result ≡ runs.run_step begun byte }
{
    if byte == b'.' {
        if begun {
            return Some(false);
        }
        return None;
    }
    if is_letter_or_digit(byte) {
        return Some(true);
    }
    None
}

fn begins_with_letter(bytes: &[u8]) -> bool
    ensures { result ≡ goes_on is_letter bytes.now }
{
    match bytes {
        [] => false,
        [first, ..] => first.is_ascii_alphabetic(),
    }
}

fn all_letters_or_digits(bytes: &[u8]) -> bool
    ensures { result ≡ list_all is_letter_or_digit bytes.now }
{
    bytes.iter().all(|byte| is_letter_or_digit(*byte))
}

fn is_letter_or_digit(byte: u8) -> bool
    ensures { result ≡ token.is_letter_or_digit byte }
{
    byte.is_ascii_alphanumeric()
}

/// Whether every byte can stand between quotes.
pub(crate) fn is_printed_text(bytes: &[u8]) -> bool
    ensures { result ≡ list_all spec.is_printed bytes.now }
{
    bytes.iter().all(|byte| is_printed(*byte))
}

fn is_printed(byte: u8) -> bool
    ensures { result ≡ spec.is_printed byte }
{
    0x20 <= byte && byte <= 0x7e && byte != b'\\'
}
