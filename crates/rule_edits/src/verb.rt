//! The first word of an edit.

ghost use Rattle.std.specs.Prelude.{◌≡◌};
ghost use Rattle.std.specs.Option.{option_map};
ghost use Rattle.line_model.specs.Contents.{verb_word};
ghost use Rattle.rule_edits.specs.Verb.{verb_of};

/// What is done to rules, or to the switch.
#[derive(Clone, Copy, Drop)]
pub enum Verb {
    Add,
    Remove,
    Enable,
    Disable,
    Expire,
    Switch,
}

/// The verb of a word.
pub fn read_verb(word: &[u8]) -> Option<Verb>
    ensures { option_map verb_of result ≡ verb_word word.now }
{
    if word == b"add".as_slice() {
        Some(Verb::Add)
    } else if word == b"remove".as_slice() {
        Some(Verb::Remove)
    } else if word == b"enable".as_slice() {
        Some(Verb::Enable)
    } else if word == b"disable".as_slice() {
        Some(Verb::Disable)
    } else if word == b"expire".as_slice() {
        Some(Verb::Expire)
    } else if word == b"switch".as_slice() {
        Some(Verb::Switch)
    } else {
        None
    }
}
