//! How early a rule is tried.

ghost use Rattle.std.specs.Prelude.{◌≡◌, ◌+◌, ◌*◌, ◌^◌, ◌<◌, ◌≤◌, ◌≤ℤ◌, ◌↔◌, ◌++◌, [], ◌∷◌, length, if◌then◌else◌, IsSome, IfSome};

use policy_model::limits::{GREATEST_PRIORITY, LEAST_PRIORITY, UNIT};
use req_tree::LineText;
use std::marker::Model;

/// A priority in millionths, from -10^12 to 10^12; the higher one comes first.
#[derive(Clone, Copy, Drop, PartialEq, PartialOrd)]
pub struct Priority {
    millionths: i64,
}

ghost use Rattle.line_text.specs.LineText.{line_bytes};
ghost use Rattle.line_text.specs.declared.limits.TheConstants.{LINE_ROOM};
ghost use Rattle.policy_model.specs.declared.limits.TheConstants.{GREATEST_PRIORITY, LEAST_PRIORITY, UNIT};
ghost use Rattle.policy_model.specs.Texts.{places, fraction_text, priority_text};

impl Model for Priority {
    ghost use Rattle.std.specs.Prelude.{ℤ, ◌≤ℤ◌};
    ghost use Rattle.policy_model.specs.declared.limits.TheConstants.{GREATEST_PRIORITY, LEAST_PRIORITY};

    ghost Value = { ℤ };

    ghost view = { λ p. p.millionths };

    ghost invariant = { λ p. (LEAST_PRIORITY ≤ℤ p.millionths) × (p.millionths ≤ℤ GREATEST_PRIORITY) };

    ghost inverse = { λ z. record { millionths = z } };
}

impl Priority {
    pub fn of(millionths: i64) -> Option<Priority>
        ensures fits { IsSome result ↔ ((LEAST_PRIORITY ≤ℤ millionths) × (millionths ≤ℤ GREATEST_PRIORITY)) }
        ensures value { IfSome result (λ priority. priority ≡ millionths) }
    {
        if LEAST_PRIORITY <= millionths && millionths <= GREATEST_PRIORITY {
            Some(Priority { millionths })
        } else {
            None
        }
    }

    pub fn get(self) -> i64
        ensures value { result ≡ self }
        ensures least { LEAST_PRIORITY ≤ℤ result }
        ensures greatest { result ≤ℤ GREATEST_PRIORITY }
    {
        self.millionths
    }

    /// Appends the priority in whole units, with as many decimal places as it needs.
    pub fn line_into(self, out: &mut LineText)
        requires { length (line_bytes out.old) + 28 ≤ LINE_ROOM }
        ensures text { line_bytes out.new ≡ line_bytes out.old ++ priority_text self }
        ensures length { length (line_bytes out.new) ≤ length (line_bytes out.old) + 28 }
    {
        let size = self.millionths.unsigned_abs();
        sign_into(self.millionths < 0, out);
        out.push_number(size / UNIT);
        fraction_into((size % UNIT) as u32, out);
    }
}

fn sign_into(negative: bool, out: &mut LineText)
    requires { length (line_bytes out.old) + 1 ≤ LINE_ROOM }
    ensures text { line_bytes out.new ≡ line_bytes out.old ++ (if negative then 45 ∷ [] else []) }
    ensures length { length (line_bytes out.new) ≤ length (line_bytes out.old) + 1 }
{
    if negative {
        out.push(b'-');
    }
}

/// Appends millionths behind a dot, where there are some.
fn fraction_into(part: u32, out: &mut LineText)
    requires part { part < UNIT }
    requires room { length (line_bytes out.old) + 7 ≤ LINE_ROOM }
    ensures text { line_bytes out.new ≡ line_bytes out.old ++ fraction_text part }
    ensures length { length (line_bytes out.new) ≤ length (line_bytes out.old) + 7 }
{
    if part > 0 {
        out.push(b'.');
        places_into(6, part, out);
    }
}

/// Appends decimal places from the highest on, until nothing is left of the part.
fn places_into(count: u32, part: u32, out: &mut LineText)
    requires count { count ≤ 6 }
    requires part { part < 10 ^ count }
    requires room { length (line_bytes out.old) + count ≤ LINE_ROOM }
    ensures text { line_bytes out.new ≡ line_bytes out.old ++ places count part }
    ensures length { length (line_bytes out.new) ≤ length (line_bytes out.old) + count }
{
    if count > 0 && part > 0 {
        let scale = 10u32.pow(count - 1);
        out.push(b'0' + (part / scale) as u8);
        places_into(count - 1, part % scale, out);
    }
}
