//! How texts stand to one another by the numbers in them.

use fact_values::numeric_cmp;
use std::cmp::Ordering;

#[rattlefmt::skip]
const ROWS: [(&[u8], &[u8], Ordering); 16] = [
    (b"",         b"",          Ordering::Equal),
    (b"",         b"0",         Ordering::Less),
    (b"10.9",     b"10.10",     Ordering::Less),
    (b"10.10",    b"10.9",      Ordering::Greater),
    (b"10",       b"10.0",      Ordering::Less),
    (b"007",      b"7",         Ordering::Equal),
    (b"0",        b"000",       Ordering::Equal),
    (b"000",      b"1",         Ordering::Less),
    (b"7a",       b"07b",       Ordering::Less),
    (b"9",        b":",         Ordering::Less),
    (b"/",        b"0",         Ordering::Less),
    (b"12",       b"1a",        Ordering::Greater),
    (b"a2",       b"a10",       Ordering::Less),
    (b"a10b",     b"a10",       Ordering::Greater),
    (b"1234567890123456789012345678901234567890", b"1234567890123456789012345678901234567891", Ordering::Less),
    (b"0001234567890123456789012345678901234567890", b"999999999999999999999999999999999999999", Ordering::Greater),
];

fn are_in_order() -> bool {
    for (one, other, order) in ROWS {
        if numeric_cmp(one, other) != order || numeric_cmp(other, one) != order.reverse() {
            return false;
        }
    }
    true
}

#[test]
fn texts_stand_by_the_numbers_in_them(rt: HostRuntime) {
    assert!(rt; are_in_order());
}
