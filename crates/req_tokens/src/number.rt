//! The number that digits write.

ghost use Rattle.std.specs.Prelude.{◌≡◌, min};
ghost use Rattle.req_tree.specs.NumericOrder as spec;

/// The least number that is too large for an integer.
pub(crate) const TOO_LARGE: u64 = 2_147_483_649;

/// The number, or `TOO_LARGE` where it is larger.
pub(crate) fn number_of(digits: &[u8]) -> u64
    ensures { result ≡ min (spec.number_of digits.now) 2147483649 }
{
    let mut number: u64 = 0;
    for digit in digits {
        number = (10 * number + u64::from(digit.saturating_sub(b'0'))).min(TOO_LARGE);
    }
    number
}
