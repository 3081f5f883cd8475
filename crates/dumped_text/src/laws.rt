//! Laws over the definitions: functions that do nothing and whose contracts are the laws.

ghost use Rattle.dumped_text.specs.Laws.{OidsHaveTexts, ReadBackNormal, SetReadBackNormal, TextsSayTheirTrees, TextsSayTheirSets, FewAreOpen, FewAreOpenInSets, TextsAreNormalForms, SetTextsAreNormalForms};

/// The text of an object identifier is its arcs in decimal, with dots between them.
pub fn oids_have_texts()
    ensures { OidsHaveTexts }
{}

/// The terminals of a text are read as the normal form of its tree or set.
pub fn texts_are_read_as_normal_forms()
    ensures tree { ReadBackNormal }
    ensures set { SetReadBackNormal }
{}

/// A text has tokens, and their terminals are those of its tree or set.
pub fn texts_have_their_terminals()
    ensures tree { TextsSayTheirTrees }
    ensures set { TextsSayTheirSets }
{}

/// Where the normal form isn't too deep, no more parentheses are open in the text than may be.
pub fn few_parentheses_are_open()
    ensures tree { FewAreOpen }
    ensures set { FewAreOpenInSets }
{}

/// A text that isn't too long is that of the normal form of its tree or set, where that isn't too deep.
pub fn texts_are_normal_forms()
    ensures tree { TextsAreNormalForms }
    ensures set { SetTextsAreNormalForms }
{}
