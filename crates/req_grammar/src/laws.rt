//! Laws over the definitions: functions that do nothing and whose contracts are the laws.

ghost use Rattle.req_grammar.specs.Laws.{FaultyTextsHaveNoTokens, FrontsAreViable, FrontsAreViableSets, FrontsTellTheirSort, GoodKeysAreRead, GoodSetsAreRead, OneFirstFault, OneReading, OneSet, OneTokenList, OneTree, OneTreeSet, ParenthesesBalance, ParenthesesOfSetsBalance, ReadingsHaveNoBadKey, ReadingsHaveShapes, SetShapesAreRead, SetTextsAreEncodable, SetsHaveNoBadKey, SetsHaveShapes, SetsRepeatNoKind, ShapesAreRead, TerminalsFitTheirKind, TextsAreEncodable, TokensArePlaced};

use req_tree::laws::a_text_has_one_oid;

/// The first byte or two of a text tell what its front is.
pub fn fronts_tell_their_sort()
    ensures { FrontsTellTheirSort }
{}

/// A text has one list of tokens at most, whatever place it begins at.
pub fn texts_have_one_token_list()
    ensures { OneTokenList }
{}

/// A text has one first fault at most, and no tokens where it has one.
pub fn texts_have_one_first_fault()
    ensures one { OneFirstFault }
    ensures none { FaultyTextsHaveNoTokens }
{}

/// A list of terminals is read as one tree at most, and as one set at most.
pub fn terminals_have_one_reading()
    ensures tree { OneReading }
    ensures set { OneSet }
{
    a_text_has_one_oid();
}

/// What is read as a tree or a set has a shape.
pub fn readings_have_shapes()
    ensures tree { ReadingsHaveShapes }
    ensures set { SetsHaveShapes }
{}

/// Each front of a viable list is viable.
pub fn fronts_of_viable_lists_are_viable()
    ensures tree { FrontsAreViable }
    ensures set { FrontsAreViableSets }
{}

/// A text says one tree at most, and one set at most.
pub fn texts_say_one_tree()
    ensures tree { OneTree }
    ensures set { OneTreeSet }
{
    a_text_has_one_oid();
}

/// The reader of terminals tells whether a list has a shape, and whether it has that of a set.
pub fn shapes_are_read()
    ensures tree { ShapesAreRead }
    ensures set { SetShapesAreRead }
{}

/// The tree of a requirement's text can be written as a blob, and so can each tree of a set's text.
pub fn texts_are_encodable()
    ensures tree { TextsAreEncodable }
    ensures set { SetTextsAreEncodable }
{}

/// Each token of a text stands at its place, and what the grammar sees of it is one of its kind.
pub fn tokens_have_terminals_of_their_kind()
    ensures one { TerminalsFitTheirKind }
    ensures all { TokensArePlaced }
{}

/// What has a shape holds as many left parentheses as right ones.
pub fn parentheses_balance()
    ensures tree { ParenthesesBalance }
    ensures set { ParenthesesOfSetsBalance }
{}

/// No key of a certificate's test is bad in what is read.
pub fn readings_have_no_bad_key()
    ensures tree { ReadingsHaveNoBadKey }
    ensures set { SetsHaveNoBadKey }
{}

/// No word for a kind stands twice in what is read as a set.
pub fn sets_repeat_no_kind()
    ensures { SetsRepeatNoKind }
{}

/// A list that has a shape is read where each key is good, and as a set where besides no word for a kind
/// stands twice.
pub fn good_shapes_are_read()
    ensures tree { GoodKeysAreRead }
    ensures set { GoodSetsAreRead }
{}
