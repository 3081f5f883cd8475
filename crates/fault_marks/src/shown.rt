//! Words and bytes as they may be shown on a terminal.

use std::alloc::{AllocError, Global};

/// A word between quotes: its first 200 letters, with `?` for each that isn't printed.
pub(crate) fn quoted(alloc: Global, word: &str) -> Result<String, AllocError> {
    let mut out = String::from_str(alloc, "'")?;
    for letter in word.chars().take(200) {
        let code = u32::from(letter);
        let printed = code >= 0x20 && !(0x7f..0xa0).contains(&code);
        out.push(if printed { letter } else { '?' })?;
    }
    out.push('\'')?;
    Ok(out)
}

/// A byte as one letter, so that a mark below it stands at its place.
pub(crate) fn letter_of(byte: u8) -> char {
    match byte {
        0x20..=0x7e => char::from(byte),
        b'\t' => ' ',
        _ => '?',
    }
}
