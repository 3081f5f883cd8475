//! What a stored rule says beside its number and its requirement.

ghost use Rattle.raw_tables.specs.Raw.{plain_rule};
ghost use Rattle.store_reading.specs.Readings.{Reads};
ghost use Rattle.store_reading.specs.Fields.{HasFields, Says};

use crate::numbers::{read_bool, read_count, read_expiry, read_flags, read_kind};
use line_words::Flags;
use policy_model::limits::MOST_DISABLES;
use raw_tables::RawRule;
use rule_values::{Kind, Label, Moment, Priority};

/// The fields of a rule whose number and requirement aren't read yet.
#[derive(Drop)]
pub(crate) struct Fields {
    pub kind: Kind,
    pub allow: bool,
    pub disabled: u32,
    pub expires: Option<Moment>,
    pub priority: Priority,
    pub flags: Flags,
    pub label: Label,
}

/// The fields of a stored rule.
pub(crate) fn read_fields(row: &RawRule) -> Option<Fields>
    ensures { Reads (HasFields (plain_rule row.now)) (Says (plain_rule row.now)) result }
{
    let kind = read_kind(row.kind)?;
    let allow = read_bool(row.allow)?;
    let disabled = read_count(row.disabled, MOST_DISABLES)?;
    let expires = read_expiry(row.expires)?;
    let priority = Priority::of(row.priority)?;
    let flags = read_flags(row.flags)?;
    let label = Label::of(row.label.as_slice())?;
    Some(Fields {
        kind,
        allow,
        disabled,
        expires,
        priority,
        flags,
        label,
    })
}
