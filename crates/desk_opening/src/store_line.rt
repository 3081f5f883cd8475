//! The line that tells of a bad row of a store.

ghost use Rattle.std.specs.Prelude.{◌≡◌, ◌+◌, ◌≤◌, ◌++◌, length};
ghost use Rattle.line_text.specs.LineText.{line_bytes};
ghost use Rattle.line_text.specs.declared.limits.TheConstants.{FRONT_LIMIT};
ghost use Rattle.desk_opening.specs.StoreTexts.{int_text, row_text};
ghost use Rattle.store_reading.specs.Fault.{place_of};

use line_text::LineText;
use store_reading::StoreRow;

/// Appends the place in the store.
pub(crate) fn push_row(row: &StoreRow, out: &mut LineText)
    requires { length (line_bytes out.old) ≤ FRONT_LIMIT }
    ensures text { line_bytes out.new ≡ line_bytes out.old ++ row_text (place_of row.now) }
    ensures length { length (line_bytes out.new) ≤ length (line_bytes out.old) + 40 }
{
    match row {
        StoreRow::Format => out.push_all(b"format"),
        StoreRow::Switch => out.push_all(b"switch"),
        StoreRow::Receipt { num } => push_place(b"receipt=", *num, out),
        StoreRow::Rule { id } => push_place(b"rule=", *id, out),
    }
}

fn push_place(name: &[u8], number: i64, out: &mut LineText)
    requires room { length (line_bytes out.old) ≤ FRONT_LIMIT }
    requires name { length name.now ≤ 10 }
    ensures text { line_bytes out.new ≡ line_bytes out.old ++ (name.now ++ int_text number) }
    ensures length { length (line_bytes out.new) ≤ length (line_bytes out.old) + 40 }
{
    out.push_all(name);
    if number < 0 {
        out.push(b'-');
    }
    out.push_number(number.unsigned_abs());
}
