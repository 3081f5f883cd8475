//! Edits and contents as they are read from the words of a line.

ghost use Rattle.std.specs.Prelude.{◌≡◌};
ghost use Rattle.std.specs.Option.{ok_or};
ghost use Rattle.line_text.specs.declared.limits.TheConstants.{LINE_HELD};
ghost use Rattle.line_model.specs.Forms.{key_at};
ghost use Rattle.line_model.specs.Contents.{verb_word, content_at};
ghost use Rattle.line_model.specs.Edits.{edit_at, by_words};
ghost use Rattle.line_model.specs.LineFaults.{bad_line};
ghost use Rattle.line_words.specs.Faults.{fault_of};
ghost use Rattle.line_words.specs.Left.{left, Takes, Gives};
ghost use Rattle.rule_edits.specs.EditKey.{key_bytes};
ghost use Rattle.rule_edits.specs.Reads.{ReadsContent, ReadsEdit};
ghost use Rattle.rule_edits.specs.Verb.{verb_of};

use crate::edit::{Content, Edit};
use crate::edit_key::EditKey;
use crate::operands::read_operands;
use crate::verb::{Verb, read_verb};
use line_text::{LINE_HELD, LINE_LIMIT};
use line_words::{Cursor, LineFault};
use std::alloc::Global;

/// The edit of a line. A longer line than may be is refused in the first column past the limit.
pub fn read_edit_line(alloc: Global, line: &[u8]) -> Result<Edit, LineFault>
    ensures { ReadsEdit result (by_words edit_at line.now) }
{
    if line.len() > LINE_LIMIT {
        return Err(too_long());
    }
    let mut words = Cursor::of(line);
    let first = words.next()?;
    read_edit(alloc, first, &mut words)
}

/// The content of a text, which is a line without the edit's key.
pub fn read_content(alloc: Global, text: &[u8]) -> Result<Content, LineFault>
    ensures { ReadsContent result (by_words content_at text.now) }
{
    if text.len() > LINE_LIMIT {
        return Err(too_long());
    }
    let mut words = Cursor::of(text);
    let first = words.next()?;
    let verb = read_first(first)?;
    read_operands(alloc, verb, &mut words)
}

/// The edit of a line's first word and the words behind it.
pub fn read_edit(alloc: Global, first: &[u8], words: &mut Cursor) -> Result<Edit, LineFault>
    ensures { ReadsEdit result (edit_at first.now (left words.old)) }
{
    let verb = read_first(first)?;
    let key = read_key(words)?;
    let content = read_operands(alloc, verb, words)?;
    Ok(Edit { key, content })
}

/// The verb of a line's first word.
fn read_first(word: &[u8]) -> Result<Verb, LineFault>
    ensures { Gives verb_of result (ok_or (verb_word word.now) (bad_line 1)) }
{
    read_verb(word).ok_or(LineFault::BadLine { column: 1 })
}

/// The next word as an edit's key.
fn read_key(words: &mut Cursor) -> Result<EditKey, LineFault>
    ensures { Takes key_bytes (left words.new) result (key_at (left words.old)) }
{
    EditKey::of(words.next()?).ok_or(LineFault::BadKey)
}

fn too_long() -> LineFault
    ensures { fault_of result ≡ bad_line LINE_HELD }
{
    LineFault::BadLine {
        column: LINE_HELD as u32,
    }
}
