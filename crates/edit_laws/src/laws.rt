//! Laws over the program's edits: functions that change nothing and whose contracts are the laws.

ghost use Rattle.std.specs.Prelude.{◌≡◌};
ghost use Rattle.policy_model.specs.Texts.{content_text};
ghost use Rattle.line_laws.specs.Limits.{FitsLine};
ghost use Rattle.rule_edits.specs.Edit.{content_of};
ghost use Rattle.edit_laws.specs.Laws.{ContentComesBack, EditComesBack};

use crate::fits::{end_fits, name_fits, rule_fits};
use line_laws::laws::{
    contents_read_back, texts_are_of_one_content, texts_ask_for_one_content,
    what_is_asked_has_no_fault,
};
use rule_edits::{Content, Edit};

/// Each content that the program holds fits a line, so it is read back from its text.
pub fn a_content_fits_a_line(content: &Content)
    ensures { ∥ FitsLine (content_of content.now) ∥₁ }
{
    match content {
        Content::Add(rule) => rule_fits(rule),
        Content::Remove(selector) | Content::Enable(selector) | Content::Disable(selector) => {
            name_fits(selector)
        }
        Content::Expire(selector, expires) => {
            name_fits(selector);
            end_fits(*expires)
        }
        Content::Switch(_) => (),
    }
}

/// Two contents of one text are one: what repeats an edit by its text is that edit.
pub fn a_text_is_of_one_content(first: &Content, second: &Content)
    ensures { content_text (content_of first.now) ≡ content_text (content_of second.now)
        → ∥ content_of first.now ≡ content_of second.now ∥₁ }
{
    a_content_fits_a_line(first);
    a_content_fits_a_line(second);
    texts_are_of_one_content();
}

/// What is read of a content's text is that content.
pub fn a_content_comes_back(content: &Content)
    ensures { ContentComesBack content.now }
{
    a_content_fits_a_line(content);
    contents_read_back();
    texts_ask_for_one_content();
    what_is_asked_has_no_fault();
}

/// What is read of an edit's line is that edit.
pub fn an_edit_comes_back(edit: &Edit)
    ensures { EditComesBack edit.now }
{
    a_content_fits_a_line(&edit.content);
    contents_read_back();
    texts_ask_for_one_content();
    what_is_asked_has_no_fault();
}
