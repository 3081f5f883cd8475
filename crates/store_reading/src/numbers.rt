//! The numbers of stored rows, and what each stands for.

ghost use Rattle.std.specs.Prelude.{◌≡◌, pos, IfSome, option_map};
ghost use Rattle.policy_model.specs.declared.limits.TheConstants.{GREATEST_MOMENT};
ghost use Rattle.store_model.specs.Accepted.{IsWithin, AreFlags};
ghost use Rattle.store_model.specs.Stored.{kind_number, bool_number, flags_number};
ghost use Rattle.rule_values.specs.Kind.{kind_of};
ghost use Rattle.store_reading.specs.Readings.{Reads};

use line_words::Flags;
use rule_values::{Kind, Moment};

/// 0 for no, 1 for yes.
pub(crate) fn read_bool(number: i64) -> Option<bool>
    ensures { Reads (IsWithin 0 1 number) (λ is. bool_number is ≡ number) result }
{
    match number {
        0 => Some(false),
        1 => Some(true),
        _ => None,
    }
}

/// Kinds are numbered from 1.
pub(crate) fn read_kind(number: i64) -> Option<Kind>
    ensures { Reads (IsWithin 1 3 number) (λ kind. kind_number (kind_of kind) ≡ number) result }
{
    match number {
        1 => Some(Kind::Execute),
        2 => Some(Kind::Install),
        3 => Some(Kind::Document),
        _ => None,
    }
}

/// A count up to the most that there may be.
pub(crate) fn read_count(number: i64, most: u32) -> Option<u32>
    ensures { Reads (IsWithin 0 most number) (λ count. pos count ≡ number) result }
{
    if 0 <= number && number <= most as i64 {
        Some(number as u32)
    } else {
        None
    }
}

/// A moment, or none for never.
pub(crate) fn read_expiry(number: Option<i64>) -> Option<Option<Moment>>
    ensures { Reads (IfSome number (IsWithin 0 GREATEST_MOMENT)) (λ end. option_map pos end ≡ number) result }
{
    match number {
        None => Some(None),
        Some(seconds) => read_moment(seconds).map(Some),
    }
}

fn read_moment(number: i64) -> Option<Moment>
    ensures { Reads (IsWithin 0 GREATEST_MOMENT number) (λ moment. pos moment ≡ number) result }
{
    if 0 <= number {
        Moment::of(number as u64)
    } else {
        None
    }
}

/// 2 for a default rule, 4 for one whose outcomes aren't kept, or their sum.
pub(crate) fn read_flags(number: i64) -> Option<Flags>
    ensures { Reads (AreFlags number) (λ flags. flags_number flags.is_default flags.inhibit ≡ number) result }
{
    let (is_default, inhibit) = match number {
        0 => (false, false),
        2 => (true, false),
        4 => (false, true),
        6 => (true, true),
        _ => return None,
    };
    Some(Flags {
        is_default,
        inhibit,
    })
}
