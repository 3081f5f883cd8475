//! One record of a facts file, read as a row.

ghost use Rattle.std.specs.Prelude.{◌≡◌, ℕ, option_map, IfOk, bytes_eq};
ghost use Rattle.csv.specs.Records.{fields_of, field_at};
ghost use Rattle.req_tree.specs.HashWord.{hash_word};
ghost use Rattle.code_facts.specs.Rows as spec;
ghost use Rattle.code_facts.specs.FactsFile as file;
ghost use Rattle.code_facts.specs.RowCode.{row_of_code, field_or_none};

use crate::row::Row;
use crate::scope::read_scope;
use crate::words::read_fact;
use csv::ByteRecord;
use req_tree::read_hash;
use std::alloc::{AllocError, Global};

/// The row of a record, or `None` where the record has no form of the table.
pub(crate) fn read_row(alloc: Global, fields: &ByteRecord) -> Result<Option<Row<'_>>, AllocError>
    ensures { IfOk result (λ row. option_map row_of_code row ≡ spec.row_of (fields_of fields.now)) }
{
    if fields.len() != 6 {
        return Ok(None);
    }
    let hash = field(fields, 0);
    let scope = field(fields, 1);
    let slot = field(fields, 2);
    let key = field(fields, 3);
    let kind = field(fields, 4);
    let value = field(fields, 5);
    read_fields(alloc, hash, scope, slot, key, kind, value)
}

/// A field of a record, and no bytes where there are fewer fields.
fn field(fields: &ByteRecord, place: usize) -> &[u8]
    ensures { result.now ≡ field_or_none (field_at (fields_of fields.now) place) }
{
    match fields.get(place) {
        Some(bytes) => bytes,
        None => &[],
    }
}

fn read_fields<'a>(
    alloc: Global,
    hash: &[u8],
    scope: &[u8],
    slot: &[u8],
    key: &'a [u8],
    kind: &[u8],
    value: &'a [u8],
) -> Result<Option<Row<'a>>, AllocError>
    ensures { IfOk result (λ row. option_map row_of_code row ≡ spec.row_words (hash_word hash.now) (spec.scope_word scope.now) slot.now key.now kind.now value.now) }
{
    let Some(hash) = read_hash(hash) else {
        return Ok(None);
    };
    let Some(scope) = read_scope(scope) else {
        return Ok(None);
    };
    match read_fact(alloc, scope, slot, key, kind, value)? {
        Some(fact) => Ok(Some(Row { hash, fact })),
        None => Ok(None),
    }
}

/// Whether a record is the header.
pub(crate) fn is_header(fields: &ByteRecord) -> bool
    ensures { result ≡ file.same_fields (fields_of fields.now) file.header }
{
    if fields.len() != 6 {
        return false;
    }
    is_field(fields, 0, b"cdhash")
        & is_field(fields, 1, b"scope")
        & is_field(fields, 2, b"slot")
        & is_field(fields, 3, b"key")
        & is_field(fields, 4, b"kind")
        & is_field(fields, 5, b"value")
}

fn is_field(fields: &ByteRecord, place: usize, word: &[u8]) -> bool
    ensures { result ≡ bytes_eq (field_or_none (field_at (fields_of fields.now) place)) word.now }
{
    field(fields, place) == word
}
