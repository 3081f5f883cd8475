//! One record of an import file, read as the edit that it asks for.

ghost use Rattle.std.specs.Prelude.{◌≡◌, ◌↔◌, ◌==◌, ℕ, ℤ, Bool, List, Option, not, Ok, IfOk, IfSome, IsTrue, option_map, bytes_eq};
ghost use Rattle.std.specs.Borrow.{Bor};
ghost use Rattle.std.specs.List.{list_all};
ghost use Rattle.csv.specs.Records.{fields_of, field_at};
ghost use Rattle.policy_model.specs.Contents.{IsRuleText};
ghost use Rattle.line_model.specs.Words.{kind_word, allow_word, priority_word, expiry_word, flags_word, key_word};
ghost use Rattle.rule_values.specs.Kind.{kind_of};
ghost use Rattle.rule_values.specs.Label.{label_bytes};
ghost use Rattle.line_words.specs.Flags.{flags_of};
ghost use Rattle.rule_edits.specs.EditKey.{key_bytes};
ghost use Rattle.rule_edits.specs.NewFront.{added_front, terms_of};
ghost use Rattle.import_csv.specs.ImportRows as rows;
ghost use Rattle.import_csv.specs.ImportFile.{header};
ghost use Rattle.import_csv.specs.RowCode.{asked_of, refused_by, Gives, Answers};

use crate::fault::ImportFault;
use crate::limits::COLUMNS;
use csv::ByteRecord;
use line_words::{Flags, read_allow, read_expiry, read_flags, read_kind, read_priority};
use policy_model::limits::MOST_TEXT_BYTES;
use rule_edits::{Content, Edit, EditKey, Front, LineFault, Terms, read_requirement};
use rule_values::{Kind, Label, Moment, Priority};
use std::alloc::Global;

/// What a row asks for, before its requirement is read.
#[derive(Drop)]
pub(crate) struct Asked<'a> {
    pub key: EditKey,
    pub front: Front,
    pub text: &'a [u8],
}

/// The edit of the row of this number, or the first column that doesn't fit.
pub(crate) fn read_row(alloc: Global, row: u32, fields: &ByteRecord) -> Result<Edit, ImportFault>
    ensures { Answers row (rows.IsRow (fields_of fields.now)) result }
{
    match read_asked(fields) {
        Ok(asked) => asked.with_requirement(alloc, row),
        Err(column) => Err(ImportFault::BadRow { row, column }),
    }
}

impl<'a> Asked<'a> {
    /// The edit of the row of this number, where its text is a requirement.
    fn with_requirement(self, alloc: Global, row: u32) -> Result<Edit, ImportFault>
        requires { IsRuleText self.text.now }
        ensures { Answers row (rows.Makes (Ok (asked_of self.entry))) result }
    {
        match read_requirement(alloc, self.text) {
            Ok(req) => {
                let rule = self.front.with_requirement(alloc, self.text, req)?;
                Ok(Edit {
                    key: self.key,
                    content: Content::Add(rule),
                })
            }
            Err(fault) => Err(refused(row, &fault)),
        }
    }
}

/// A text that is no requirement doesn't fit the last column.
fn refused(row: u32, fault: &LineFault) -> ImportFault
    ensures { result ≡ refused_by row fault.now }
{
    match fault {
        LineFault::OutOfMemory => ImportFault::OutOfMemory,
        _ => ImportFault::BadRow {
            row,
            column: COLUMNS as u32,
        },
    }
}

/// What a row asks for, or the first column that doesn't fit.
fn read_asked(fields: &ByteRecord) -> Result<Asked<'_>, u32>
    ensures asked { Gives asked_of result (rows.asked_in (fields_of fields.now)) }
    ensures rule_text { IfOk result (λ asked. IsRuleText asked.text.now) }
{
    if fields.len() != COLUMNS {
        return Err(COLUMNS as u32 + 1);
    }
    read_eight(fields)
}

fn read_eight(fields: &ByteRecord) -> Result<Asked<'_>, u32>
    ensures asked { Gives asked_of result (rows.eight_fields (fields_of fields.now)) }
    ensures rule_text { IfOk result (λ asked. IsRuleText asked.text.now) }
{
    let key = key_in(fields)?;
    let front = read_front(fields)?;
    let text = text_in(fields)?;
    Ok(Asked { key, front, text })
}

/// Type, verdict, priority, expires, label and flags.
fn read_front(fields: &ByteRecord) -> Result<Front, u32>
    ensures { Gives added_front result (rows.front_in (fields_of fields.now)) }
{
    let kind = kind_in(fields)?;
    let allow = allow_in(fields)?;
    let terms = read_terms(fields)?;
    Ok(Front { kind, allow, terms })
}

/// Priority, expires, label and flags.
fn read_terms(fields: &ByteRecord) -> Result<Terms, u32>
    ensures { Gives terms_of result (rows.terms_in (fields_of fields.now)) }
{
    let priority = priority_in(fields)?;
    let expires = expiry_in(fields)?;
    let label = label_in(fields)?;
    let flags = flags_in(fields)?;
    Ok(Terms {
        priority,
        expires,
        label,
        flags,
    })
}

// Each column, which is named where it doesn't fit.

fn key_in(fields: &ByteRecord) -> Result<EditKey, u32>
    ensures { Gives key_bytes result (rows.value_in key_word 0 (fields_of fields.now)) }
{
    EditKey::of(field(fields, 0)).ok_or(1)
}

fn kind_in(fields: &ByteRecord) -> Result<Kind, u32>
    ensures { Gives kind_of result (rows.value_in kind_word 1 (fields_of fields.now)) }
{
    read_kind(field(fields, 1)).ok_or(2)
}

fn allow_in(fields: &ByteRecord) -> Result<bool, u32>
    ensures { Gives (λ (allow : Bool). allow) result (rows.value_in allow_word 2 (fields_of fields.now)) }
{
    read_allow(field(fields, 2)).ok_or(3)
}

fn priority_in(fields: &ByteRecord) -> Result<Priority, u32>
    ensures { Gives (λ (priority : ℤ). priority) result (rows.value_in priority_word 3 (fields_of fields.now)) }
{
    read_priority(field(fields, 3)).ok_or(4)
}

fn expiry_in(fields: &ByteRecord) -> Result<Option<Moment>, u32>
    ensures { Gives (λ (expires : Option ℕ). expires) result (rows.value_in expiry_word 4 (fields_of fields.now)) }
{
    read_expiry(field(fields, 4)).ok_or(5)
}

fn label_in(fields: &ByteRecord) -> Result<Label, u32>
    ensures { Gives label_bytes result (rows.value_in rows.label_field 5 (fields_of fields.now)) }
{
    read_label(field(fields, 5)).ok_or(6)
}

fn flags_in(fields: &ByteRecord) -> Result<Flags, u32>
    ensures { Gives flags_of result (rows.value_in flags_word 6 (fields_of fields.now)) }
{
    read_flags(field(fields, 6)).ok_or(7)
}

fn text_in(fields: &ByteRecord) -> Result<&[u8], u32>
    ensures text { Gives (λ (text : Bor (List ℕ)). text.now) result (rows.value_in rows.text_field 7 (fields_of fields.now)) }
    ensures rule_text { IfOk result (λ text. IsRuleText text.now) }
{
    read_text(field(fields, 7)).ok_or(8)
}

/// A label as plain bytes.
fn read_label(bytes: &[u8]) -> Option<Label>
    ensures { option_map label_bytes result ≡ rows.label_field bytes.now }
{
    Label::of(bytes)
}

/// The text of a requirement: it isn't too long, and has no LF.
fn read_text(text: &[u8]) -> Option<&[u8]>
    ensures text { option_map (λ (text : Bor (List ℕ)). text.now) result ≡ rows.text_field text.now }
    ensures rule_text { IfSome result (λ text. IsRuleText text.now) }
{
    if text.len() <= MOST_TEXT_BYTES && has_no_lf(text) {
        Some(text)
    } else {
        None
    }
}

fn has_no_lf(text: &[u8]) -> bool
    ensures { result ≡ list_all (λ b. not (b == 10)) text.now }
{
    text.iter().all(|byte| *byte != b'\n')
}

/// A field of a record, and no bytes where there are fewer fields.
fn field(fields: &ByteRecord, place: usize) -> &[u8]
    ensures { result.now ≡ rows.field_or_none (field_at (fields_of fields.now) place) }
{
    match fields.get(place) {
        Some(bytes) => bytes,
        None => &[],
    }
}

/// Whether a record is the header.
pub(crate) fn is_header(fields: &ByteRecord) -> bool
    ensures { IsTrue result ↔ (fields_of fields.now ≡ header) }
{
    if fields.len() != COLUMNS {
        return false;
    }
    is_field(fields, 0, b"key")
        & is_field(fields, 1, b"type")
        & is_field(fields, 2, b"verdict")
        & is_field(fields, 3, b"priority")
        & is_field(fields, 4, b"expires")
        & is_field(fields, 5, b"label")
        & is_field(fields, 6, b"flags")
        & is_field(fields, 7, b"requirement")
}

fn is_field(fields: &ByteRecord, place: usize, word: &[u8]) -> bool
    ensures { result ≡ bytes_eq (rows.field_or_none (field_at (fields_of fields.now) place)) word.now }
{
    field(fields, place) == word
}
