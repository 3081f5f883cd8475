//! The limits, by what they are limits of: functions that do nothing and whose contracts are the numbers.

ghost use Rattle.std.specs.Prelude.{◌≡◌, pos, neg_ℤ};
ghost use Rattle.line_text.specs.declared.limits.TheConstants.{LINE_LIMIT, LINE_HELD, LINE_ROOM, FRONT_LIMIT};
ghost use Rattle.req_tree.specs.declared.limits.TheConstants.{MOST_DEPTH, MOST_IDENTIFIER_BYTES};
ghost use Rattle.req_grammar.specs.declared.limits.TheConstants as text;
ghost use Rattle.req_blob.specs.declared.limits.TheConstants as blob;
ghost use Rattle.cs_blob.specs.declared.limits.TheConstants.{MOST_PARTS, GREATEST_SIZE};
ghost use Rattle.fact_values.specs.declared.limits.TheConstants.{MOST_CERTIFICATES};
ghost use Rattle.code_facts.specs.declared.limits.TheConstants.{MOST_ROWS};
ghost use Rattle.policy_model.specs.declared.limits.TheConstants as policy;
ghost use Rattle.policy_model.specs.declared.limits.TheConstants.{MOST_RULES, MOST_RECEIPTS, MOST_DISABLES, GREATEST_MOMENT, DEFAULT_SECONDS, UNIT, GREATEST_PRIORITY, LEAST_PRIORITY, MOST_LABEL_BYTES, MOST_KEY_BYTES};
ghost use Rattle.object_model.specs.declared.limits.TheConstants.{MOST_ENTRIES, LATE_EDITS};
ghost use Rattle.line_model.specs.declared.limits.TheConstants.{MOMENT_DIGITS, RULE_DIGITS, PRIORITY_DIGITS, FRACTION_DIGITS, GREATEST_UNITS, PLATFORM_DIGITS, GREATEST_PLATFORM};
ghost use Rattle.session_model.specs.declared.limits.TheConstants.{MOST_SLOTS, SLOT_DIGITS, GREATEST_SLOT};
ghost use Rattle.store_model.specs.declared.limits.TheConstants.{STORE_FORMAT};
ghost use Rattle.line_reader.specs.declared.limits.TheConstants.{SESSION_LINES, SESSION_BYTES};
ghost use Rattle.line_session.specs.declared.limits.TheConstants.{REPLY_LIMIT};
ghost use Rattle.import_csv.specs.declared.limits.TheConstants.{MOST_IMPORTED, COLUMNS};
ghost use Rattle.table_commands.specs.declared.limits.TheConstants.{MOST_IMPORT_BYTES};
ghost use Rattle.file_assessment.specs.declared.limits.TheConstants.{MOST_SIGNATURE_BYTES, MOST_CODE_BYTES};
ghost use Rattle.desk_opening.specs.declared.limits.TheConstants.{MOST_FACTS_BYTES};
ghost use Rattle.command_words.specs.declared.limits.TheConstants.{MOST_STEPS};

/// Requirements, their texts and their blobs.
pub fn limits_of_requirements()
    ensures text_bytes { text.MOST_TEXT_BYTES ≡ 65_536 }
    ensures open_parentheses { text.MOST_OPEN_PARENTHESES ≡ 256 }
    ensures depth { MOST_DEPTH ≡ 256 }
    ensures identifier_bytes { MOST_IDENTIFIER_BYTES ≡ 256 }
    ensures blob_bytes { blob.MOST_BYTES ≡ 1_048_576 }
    ensures parts { MOST_PARTS ≡ 64 }
    ensures written_bytes { GREATEST_SIZE ≡ 16_777_216 }
{}

/// Code that is assessed, and what is known of code.
pub fn limits_of_code()
    ensures signature_bytes { MOST_SIGNATURE_BYTES ≡ 16_777_216 }
    ensures code_bytes { MOST_CODE_BYTES ≡ 268_435_456 }
    ensures facts_bytes { MOST_FACTS_BYTES ≡ 67_108_864 }
    ensures facts_rows { MOST_ROWS ≡ 100_000 }
    ensures certificates { MOST_CERTIFICATES ≡ 100_000 }
{}

/// Rules and edits.
pub fn limits_of_rules()
    ensures rules { MOST_RULES ≡ 10_000 }
    ensures receipts { MOST_RECEIPTS ≡ 100_000 }
    ensures disables { MOST_DISABLES ≡ 1_000 }
    ensures label_bytes { MOST_LABEL_BYTES ≡ 128 }
    ensures key_bytes { MOST_KEY_BYTES ≡ 64 }
    ensures text_bytes { policy.MOST_TEXT_BYTES ≡ 4_096 }
    ensures millionths { UNIT ≡ 1_000_000 }
    ensures greatest_priority { GREATEST_PRIORITY ≡ pos 1_000_000_000_000 }
    ensures least_priority { LEAST_PRIORITY ≡ neg_ℤ (pos 1_000_000_000_000) }
    ensures moment { GREATEST_MOMENT ≡ 253_402_300_799 }
{}

/// Outcomes that are kept.
pub fn limits_of_outcomes()
    ensures entries { MOST_ENTRIES ≡ 16_384 }
    ensures late_edits { LATE_EDITS ≡ 64 }
    ensures default_seconds { DEFAULT_SECONDS ≡ 60 }
{}

/// The words of a line.
pub fn limits_of_words()
    ensures moment_digits { MOMENT_DIGITS ≡ 12 }
    ensures rule_digits { RULE_DIGITS ≡ 6 }
    ensures priority_digits { PRIORITY_DIGITS ≡ 7 }
    ensures fraction_digits { FRACTION_DIGITS ≡ 6 }
    ensures units { GREATEST_UNITS ≡ 1_000_000 }
    ensures platform_digits { PLATFORM_DIGITS ≡ 3 }
    ensures platform { GREATEST_PLATFORM ≡ 255 }
    ensures slot_digits { SLOT_DIGITS ≡ 6 }
    ensures slot { GREATEST_SLOT ≡ 999_999 }
{}

/// Sessions: their lines, their replies, and what is begun in them.
pub fn limits_of_sessions()
    ensures line_bytes { LINE_LIMIT ≡ 8_192 }
    ensures held_bytes { LINE_HELD ≡ 8_193 }
    ensures lines { SESSION_LINES ≡ 1_000_000 }
    ensures bytes { SESSION_BYTES ≡ 268_435_456 }
    ensures slots { MOST_SLOTS ≡ 50 }
    ensures reply_bytes { REPLY_LIMIT ≡ 1_000 }
    ensures room { LINE_ROOM ≡ 1_024 }
    ensures front_bytes { FRONT_LIMIT ≡ 400 }
{}

/// Imports, rehearsals and stores.
pub fn limits_of_commands()
    ensures import_bytes { MOST_IMPORT_BYTES ≡ 67_108_864 }
    ensures import_rows { MOST_IMPORTED ≡ 10_000 }
    ensures import_columns { COLUMNS ≡ 8 }
    ensures steps { MOST_STEPS ≡ 10_000 }
    ensures store_format { STORE_FORMAT ≡ pos 1 }
{}
