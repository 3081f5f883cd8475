//! Strings as their tokens write them.

ghost use Rattle.std.specs.Prelude.{◌≡◌, ◌==◌, ◌-◌, not, length, take, drop, filter, true, IfOk};
ghost use Rattle.req_grammar.specs.Terminals.{hex_bytes};
ghost use Rattle.req_grammar.specs.Tokens.{is_hex, quoted_value};
ghost use Rattle.req_tokens.specs.Forms.{is_form};

use crate::part::{behind, first};
use line_text::Bytes;
use std::alloc::{AllocError, Global};

/// How a token writes the bytes of a string.
#[derive(Clone, Copy, Drop)]
pub(crate) enum Form {
    /// They are the token's own bytes.
    Bare,
    /// Between quotes, with a backslash before each quote.
    Quoted,
    /// Behind `0x`, as hexadecimal digits.
    Hex,
}

/// A string of a text. Its bytes are copied only where somebody keeps them.
#[derive(Clone, Copy, Drop)]
pub struct StrToken<'a> {
    form: Form,
    text: &'a [u8],
    ghost fits: { is_form form text.now ≡ true },
}

impl<'a> StrToken<'a> {
    ghost use Rattle.std.specs.Prelude.{◌≡◌, true, IfOk};
    ghost use Rattle.req_tokens.specs.Forms.{is_form};
    ghost use Rattle.req_tokens.specs.Strings.{str_value};

    pub(crate) fn of(form: Form, text: &'a [u8]) -> StrToken<'a>
        requires { is_form form text.now ≡ true }
        ensures form { result.form ≡ form }
        ensures text { result.text.now ≡ text.now }
    {
        StrToken { form, text }
    }

    /// The bytes that the string stands for.
    pub fn value(&self, alloc: Global) -> Result<Bytes, AllocError>
        ensures { IfOk result (λ bytes. bytes ≡ str_value self.now) }
    {
        match self.form {
            Form::Bare => Bytes::copy_of(alloc, self.text),
            Form::Quoted => quoted_value(alloc, self.text),
            Form::Hex => hex_value(alloc, self.text),
        }
    }
}

/// The bytes between the quotes, without the backslashes.
fn quoted_value(alloc: Global, text: &[u8]) -> Result<Bytes, AllocError>
    ensures { IfOk result (λ bytes. bytes ≡ quoted_value text.now) }
{
    let inside = first(behind(text, 1), text.len().saturating_sub(2));
    let mut bytes = Vec::new(alloc);
    for byte in inside {
        if *byte != b'\\' {
            bytes.push(*byte)?;
        }
    }
    Ok(Bytes::from_vec(bytes))
}

/// The bytes behind `0x`, two digits each.
fn hex_value(alloc: Global, text: &[u8]) -> Result<Bytes, AllocError>
    requires { is_hex text.now ≡ true }
    ensures { IfOk result (λ bytes. bytes ≡ hex_bytes (drop 2 text.now)) }
{
    match hex::decode(alloc, behind(text, 2)) {
        Ok(bytes) => Ok(Bytes::from_vec(bytes)),
        Err(_) => Err(AllocError),
    }
}
