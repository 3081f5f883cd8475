//! What a line of a session asks for.

ghost use Rattle.std.specs.Prelude.{◌≡◌, Bool, ℕ, MatchResult};
ghost use Rattle.session_model.specs.Lines as model;
ghost use Rattle.session_model.specs.Lines.{lined, lined_at, tick_at, keep_at, ask_at, begin_at, finish_at, slot_at, slot_word, as_lined};
ghost use Rattle.policy_model.specs.Outcomes as policy;
ghost use Rattle.line_model.specs.Edits.{edit_at};
ghost use Rattle.line_words.specs.Left.{left, Gives, Takes};
ghost use Rattle.assess.specs.Ask.{ask_of};
ghost use Rattle.desk_lines.specs.Memory.{MayTake, TakesMemory, TakesRoom};
ghost use Rattle.desk_lines.specs.Requests.{Tells};

use assess::Ask;
use line_text::{LINE_HELD, LINE_LIMIT};
use line_words::{Cursor, LineFault, read_number};
use rule_edits::{Edit, read_edit};
use rule_values::Moment;
use session_model::limits::{GREATEST_SLOT, SLOT_DIGITS};
use std::alloc::Global;

/// What a line asks for.
#[derive(Drop)]
pub enum Request {
    Tick(Moment),
    Assess(Ask),
    Begin(u32, Ask),
    Finish(u32),
    Status,
    Edit(Edit),
}

/// What the line asks for. A longer line than may be is refused in the first column past the limit.
pub fn read_request(alloc: Global, line: &[u8]) -> Result<Request, LineFault>
    ensures tells { Tells result (lined line.now) }
    ensures memory { MatchResult result (λ request. TakesRoom request → TakesMemory line.now) (λ fault. fault ≡ LineFault.OutOfMemory → TakesMemory line.now) }
{
    if line.len() <= LINE_LIMIT {
        read_form(alloc, &mut Cursor::of(line))
    } else {
        Err(LineFault::BadLine {
            column: LINE_HELD as u32,
        })
    }
}

/// A line by its first word.
fn read_form(alloc: Global, words: &mut Cursor) -> Result<Request, LineFault>
    ensures tells { Tells result (lined_at (left words.old)) }
    ensures memory { MatchResult result (λ request. TakesRoom request → MayTake (left words.old).words) (λ fault. fault ≡ LineFault.OutOfMemory → MayTake (left words.old).words) }
{
    let form = words.next()?;
    if form == b"tick".as_slice() {
        Ok(Request::Tick(read_tick(words)?))
    } else if form == b"assess".as_slice() {
        Ok(Request::Assess(read_ask(words)?))
    } else if form == b"begin".as_slice() {
        read_begin(words)
    } else if form == b"finish".as_slice() {
        Ok(Request::Finish(read_finish(words)?))
    } else if form == b"status".as_slice() {
        words.end()?;
        Ok(Request::Status)
    } else {
        read_other(alloc, form, words)
    }
}

/// An edit, by its first word.
fn read_other(alloc: Global, form: &[u8], words: &mut Cursor) -> Result<Request, LineFault>
    ensures { Tells result (as_lined model.edits (edit_at form.now (left words.old))) }
{
    match read_edit(alloc, form, words) {
        Ok(edit) => Ok(Request::Edit(edit)),
        Err(fault) => Err(fault),
    }
}

/// MOMENT
fn read_tick(words: &mut Cursor) -> Result<Moment, LineFault>
    ensures { Gives (λ (moment : ℕ). moment) result (tick_at (left words.old)) }
{
    let at = words.moment()?;
    words.end()?;
    Ok(at)
}

/// N, KIND, the subject, and `nocache` or nothing
fn read_begin(words: &mut Cursor) -> Result<Request, LineFault>
    ensures { Tells result (as_lined (λ (slot : ℕ × policy.Ask). model.asks (model.begin slot.0 slot.1)) (begin_at (left words.old))) }
{
    let number = read_slot(words)?;
    let ask = read_ask(words)?;
    Ok(Request::Begin(number, ask))
}

/// N
fn read_finish(words: &mut Cursor) -> Result<u32, LineFault>
    ensures { Gives (λ (n : ℕ). n) result (finish_at (left words.old)) }
{
    let number = read_slot(words)?;
    words.end()?;
    Ok(number)
}

/// The next word as the number of a begun assessment.
fn read_slot(words: &mut Cursor) -> Result<u32, LineFault>
    ensures { Takes (λ (n : ℕ). n) (left words.new) result (slot_at (left words.old)) }
{
    let column = words.column();
    slot_number(words.next()?).ok_or(LineFault::BadLine { column })
}

/// The number of a begun assessment.
fn slot_number(word: &[u8]) -> Option<u32>
    ensures { result ≡ slot_word word.now }
{
    let number = read_number(word, SLOT_DIGITS, GREATEST_SLOT)?;
    if number == 0 {
        None
    } else {
        Some(number as u32)
    }
}

/// KIND, the subject, and `nocache` or nothing
fn read_ask(words: &mut Cursor) -> Result<Ask, LineFault>
    ensures { Gives ask_of result (ask_at (left words.old)) }
{
    let kind = words.kind()?;
    let subject = words.subject()?;
    let keep = read_keep(words)?;
    Ok(Ask {
        kind,
        subject,
        keep,
    })
}

/// Whether the outcome may be kept: the line's end, or `nocache` and the end.
fn read_keep(words: &mut Cursor) -> Result<bool, LineFault>
    ensures { Gives (λ (keep : Bool). keep) result (keep_at (left words.old)) }
{
    let Err(misfit) = words.end() else {
        return Ok(true);
    };
    if words.next()? != b"nocache".as_slice() {
        return Err(misfit);
    }
    words.end()?;
    Ok(false)
}
