//! Laws over the definitions: functions that do nothing and whose contracts are the laws.

ghost use Rattle.req_tokens.specs.Laws.{TextsAreCutOrStop, TextsHaveTokensOrFail};

/// Each text has tokens or a first fault, whatever place it begins at; so each text is cut, or has a refusal
/// other than that of memory.
pub fn a_text_has_tokens_or_a_first_fault()
    ensures either { TextsAreCutOrStop }
    ensures refusal { TextsHaveTokensOrFail }
{}
