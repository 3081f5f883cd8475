//! The order of two texts by the numbers in them, over the bytes as they stand.

ghost use Rattle.std.specs.Prelude.{◌≡◌, ◌≢◌, ◌<◌, ◌∷◌, ◌==◌, [], length, true, false, slice_index};
ghost use Rattle.std.specs.List.{list_all};
ghost use Rattle.std.specs.Ordering.{nat_cmp};
ghost use Rattle.req_tree.specs.NumericOrder.{numeric_order, items, item_cmp, is_digit, number_of};
ghost use Rattle.fact_values.specs.Pieces.{piece_item, IsPiece};

use std::cmp::Ordering;

/// How one text stands to another: runs of digits by their numbers, other bytes as bytes. No number is
/// formed, so runs may be of any length.
pub fn numeric_cmp(a: &[u8], b: &[u8]) -> Ordering
    ensures { result ≡ numeric_order a.now b.now }
{
    let mut left = a;
    let mut right = b;
    while !left.is_empty() && !right.is_empty() {
        let (left_item, left_rest) = cut_item(left);
        let (right_item, right_rest) = cut_item(right);
        let order = item_order(left_item, right_item);
        if order != Ordering::Equal {
            return order;
        }
        left = left_rest;
        right = right_rest;
    }
    left.len().min(1).cmp(&right.len().min(1))
}

/// The item at the front, as bytes, and what follows it.
fn cut_item(text: &[u8]) -> (&[u8], &[u8])
    requires { 0 < length text.now }
    ensures items { items text.now ≡ piece_item result.0.now ∷ items result.1.now }
    ensures piece { IsPiece result.0.now }
    ensures shorter { length result.1.now < length text.now }
{
    if !text[0].is_ascii_digit() {
        return text.split_at(1);
    }
    for (at, byte) in text.iter().enumerate() {
        if !byte.is_ascii_digit() {
            return text.split_at(at);
        }
    }
    text.split_at(text.len())
}

/// How one item stands to another.
fn item_order(a: &[u8], b: &[u8]) -> Ordering
    requires a { IsPiece a.now }
    requires b { IsPiece b.now }
    ensures { result ≡ item_cmp (piece_item a.now) (piece_item b.now) }
{
    if a[0].is_ascii_digit() && b[0].is_ascii_digit() {
        return run_order(a, b);
    }
    a[0].cmp(&b[0])
}

/// How one run of digits stands to another: the longer number is the greater, and of numbers of one
/// length the first digit that differs decides.
fn run_order(a: &[u8], b: &[u8]) -> Ordering
    requires a { list_all is_digit a.now ≡ true }
    requires b { list_all is_digit b.now ≡ true }
    ensures { result ≡ nat_cmp (number_of a.now) (number_of b.now) }
{
    let a = without_zeros(a);
    let b = without_zeros(b);
    match a.len().cmp(&b.len()) {
        Ordering::Equal => a.cmp(b),
        order => order,
    }
}

/// The digits of the same number without zeros in front.
fn without_zeros(digits: &[u8]) -> &[u8]
    requires { list_all is_digit digits.now ≡ true }
    ensures digits { list_all is_digit result.now ≡ true }
    ensures number { number_of result.now ≡ number_of digits.now }
    ensures front { slice_index result.now 0 ≢ 48 }
{
    for (at, byte) in digits.iter().enumerate() {
        if *byte != b'0' {
            return digits.split_at(at).1;
        }
    }
    &[]
}
