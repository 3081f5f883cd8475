//! Laws over the definitions: functions that do nothing and whose contracts are the laws.

ghost use Rattle.session_model.specs.Laws.{FrontAsksTheSame};

/// The front of a line that is held asks for what the whole line asks for.
pub fn the_front_asks_the_same()
    ensures { FrontAsksTheSame }
{}
