//! Laws over the definitions: functions that do nothing and whose contracts are the laws.

ghost use Rattle.session_laws.specs.Asks.{EachLineAsks, SomeContentIsAsked, SomeEditIsAsked};
ghost use Rattle.session_laws.specs.Laws.{AsksByItsLine, SessionGoesOn, SessionWasAsked, SessionStaysKept, SessionIsReadAgain, LineAsksForOne, SessionIsOne, SessionIsThere};

use asked_edits::laws::asked_histories_stay_kept;
use line_laws::laws::one_thing_is_asked;
use req_parser::laws::no_text_is_neither;
use store_model::laws::{stored_rows_mean_tables, stores_are_read_again};

/// What has happened in a session stays so.
pub fn sessions_go_on()
    ensures { SessionGoesOn }
{}

/// The edits of a session were asked for by its lines.
pub fn sessions_were_asked()
    ensures line { AsksByItsLine }
    ensures edits { SessionWasAsked }
{}

/// The store that a session left is accepted by the next run, which has the session's tables.
pub fn sessions_are_read_again()
    ensures kept { SessionStaysKept }
    ensures again { SessionIsReadAgain }
{
    sessions_were_asked();
    asked_histories_stay_kept();
    stored_rows_mean_tables();
    stores_are_read_again();
}

/// The words of a content, of an edit and of a session's line ask for something, or have a fault.
pub fn lines_ask_for_something()
    ensures content { SomeContentIsAsked }
    ensures edit { SomeEditIsAsked }
    ensures session { EachLineAsks }
{
    no_text_is_neither();
}

/// A line asks for one thing, or has one fault: so lines have one list of replies, where no edit fails.
pub fn sessions_are_one()
    ensures line { LineAsksForOne }
    ensures session { SessionIsOne }
    ensures some { SessionIsThere }
{
    sessions_go_on();
    one_thing_is_asked();
    lines_ask_for_something();
}
