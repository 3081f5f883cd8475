//! What is cut off the front of a text.

ghost use Rattle.std.specs.Prelude.{◌≡◌, ◌≤◌, ◌<◌, ◌+◌, length, IfOk, IfErr};
ghost use Rattle.req_grammar.specs.declared.limits.TheConstants.{MOST_TEXT_BYTES};
ghost use Rattle.req_tokens.specs.Cuts.{Cuts};
ghost use Rattle.req_tokens.specs.Sorts.{plain_sort};
ghost use Rattle.req_tokens.specs.Failures.{FailsAt};

use crate::cutting::length_of;
use crate::fault::TextFault;
use crate::part::split;
use crate::sort::{Sort, sort_of};

/// What stands at the front of a text that begins at a place, its bytes, and what follows them.
pub(crate) fn cut_front(at: u32, text: &[u8]) -> Result<(Sort, &[u8], &[u8]), TextFault>
    requires some { 0 < length text.now }
    requires within { at + length text.now ≤ MOST_TEXT_BYTES }
    ensures cut { IfOk result (λ c. Cuts (plain_sort c.0) text.now c.1.now c.2.now) }
    ensures fault { IfErr result (FailsAt at text.now) }
{
    let sort = sort_of(text);
    match length_of(sort, at, text) {
        Ok(length) => {
            let (front, rest) = split(text, length);
            Ok((sort, front, rest))
        }
        Err(fault) => Err(fault),
    }
}
