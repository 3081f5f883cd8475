//! Laws over the definitions: functions that do nothing and whose contracts are the laws.

ghost use Rattle.line_laws.specs.WordLaws.{BytesReadBack, LabelReadsBack, NameReadsBack, MomentReadsBack, ExpiryReadsBack, NumberReadsBack, PriorityReadsBack, KindReadsBack, AnyKindReadsBack, VerdictReadsBack, FlagsReadBack, BytesPrintAsWord, ExpiryPrintsAsWord, PriorityPrintsAsWord, KindPrintsAsWord, VerdictPrintsAsWord, FlagsPrintAsWord};
ghost use Rattle.line_laws.specs.Laws.{WordsReadBack, ContentReadsBack, EditReadsBack, TextAsksForOneContent, LineAsksForOneEdit, TextIsOfOneContent, ContentHasNoFault, EditHasNoFault, ContentIsAskedOnce, EditIsAskedOnce};

use policy_model::laws::places_are_the_fraction;
use req_grammar::laws::texts_say_one_tree;
use req_parser::laws::{a_failing_text_is_no_requirement, a_text_has_one_fault};

/// Bytes and labels are read back from the words that they print as.
pub fn labels_read_back()
    ensures bytes { BytesReadBack }
    ensures label { LabelReadsBack }
    ensures name { NameReadsBack }
{}

/// Moments and numbers of rules are read back.
pub fn numbers_read_back()
    ensures moment { MomentReadsBack }
    ensures expiry { ExpiryReadsBack }
    ensures number { NumberReadsBack }
{}

/// Priorities are read back.
pub fn priorities_read_back()
    ensures { PriorityReadsBack }
{
    places_are_the_fraction();
}

/// Kinds, verdicts and flags are read back.
pub fn plain_words_read_back()
    ensures kind { KindReadsBack }
    ensures any { AnyKindReadsBack }
    ensures verdict { VerdictReadsBack }
    ensures flags { FlagsReadBack }
{}

/// What is printed for a word is a word: it isn't empty, and has no space in it.
pub fn printed_words_are_words()
    ensures bytes { BytesPrintAsWord }
    ensures expiry { ExpiryPrintsAsWord }
    ensures priority { PriorityPrintsAsWord }
    ensures kind { KindPrintsAsWord }
    ensures verdict { VerdictPrintsAsWord }
    ensures flags { FlagsPrintAsWord }
{
    places_are_the_fraction();
}

/// Words are read back from the line that they make.
pub fn words_read_back()
    ensures { WordsReadBack }
{}

/// A content is read back from its text, and an edit from its line.
pub fn contents_read_back()
    ensures content { ContentReadsBack }
    ensures edit { EditReadsBack }
{
    places_are_the_fraction();
}

/// What a text or a line asks for is one thing.
pub fn texts_ask_for_one_content()
    ensures content { TextAsksForOneContent }
    ensures edit { LineAsksForOneEdit }
{
    texts_say_one_tree();
}

/// What asks for a content or an edit has no fault.
pub fn what_is_asked_has_no_fault()
    ensures content { ContentHasNoFault }
    ensures edit { EditHasNoFault }
{
    a_failing_text_is_no_requirement();
}

/// What the words of a content or of an edit ask for is one thing, or their fault is one.
pub fn one_thing_is_asked()
    ensures content { ContentIsAskedOnce }
    ensures edit { EditIsAskedOnce }
{
    a_failing_text_is_no_requirement();
    a_text_has_one_fault();
    texts_say_one_tree();
}

/// A canonical text is that of one content.
pub fn texts_are_of_one_content()
    ensures { TextIsOfOneContent }
{
    contents_read_back();
    texts_ask_for_one_content();
}
