//! Laws over the definitions: functions that do nothing and whose contracts are the laws.

ghost use Rattle.req_machine.specs.Laws.{TakesLongest, TakesLongestOfSets, TakesOnce, TakesSetShapes, TakesShapes, TakesSome, WaysAreBalanced};

/// A list has a shape exactly where the machine takes all of it off and no symbol is open then.
pub fn shapes_are_taken()
    ensures tree { TakesShapes }
    ensures set { TakesSetShapes }
{}

/// What the machine takes off is the longest front that can go on.
pub fn longest_fronts_are_taken()
    ensures tree { TakesLongest }
    ensures set { TakesLongestOfSets }
{}

/// One number of terminals is taken off, whatever symbol is open.
pub fn one_number_is_taken()
    ensures { TakesOnce }
{}

/// The machine stops at every list.
pub fn the_machine_stops()
    ensures { TakesSome }
{}

/// The parentheses that were taken off, and those that are still to come, are even.
pub fn ways_are_balanced()
    ensures { WaysAreBalanced }
{}
