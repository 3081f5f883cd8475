//! The line in a form.

ghost use Rattle.std.specs.Prelude.{◌≡◌, Some, None, MatchOption, IfOk, option_map, bytes_eq, codes};
ghost use Rattle.std.specs.Cow.{cow_str_bytes};
ghost use Rattle.form_urlencoded.specs.Form as form;
ghost use Rattle.http_model.specs.Forms.{only, text_of, form_line};

use form_urlencoded::{decode, raw_pairs};
use std::alloc::{AllocError, Global};
use std::borrow::CowStr;

/// The line in a form of just one pair, whose name is `line`.
pub fn read_form_line(alloc: Global, body: &[u8]) -> Result<Option<CowStr<'_, Global>>, AllocError>
    ensures { IfOk result (λ line. option_map cow_str_bytes line ≡ form_line body.now) }
{
    let Some((name, value)) = only_pair(body) else {
        return Ok(None);
    };
    if !is_line(alloc, name)? {
        return Ok(None);
    }
    Ok(Some(decode(alloc, value)?))
}

// The name and the value of a form's pair, still encoded, where it has just one.
fn only_pair(body: &[u8]) -> Option<(&[u8], &[u8])>
    ensures { MatchOption result (only (form.raw_pairs body.now) ≡ None)
        (λ pair. only (form.raw_pairs body.now) ≡ Some (pair.0.now, pair.1.now)) }
{
    let mut pairs = raw_pairs(body);
    let first = pairs.next()?;
    if pairs.next().is_some() {
        return None;
    }
    Some(first)
}

// Whether the name of a pair is `line`, once it is decoded.
fn is_line(alloc: Global, name: &[u8]) -> Result<bool, AllocError>
    ensures { IfOk result (λ is. is ≡ bytes_eq (text_of name.now) (codes "line")) }
{
    let text = decode(alloc, name)?;
    Ok(text.as_bytes() == b"line".as_slice())
}
