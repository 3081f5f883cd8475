//! Laws over the definitions: functions that do nothing and whose contracts are the laws.

ghost use Rattle.policy_model.specs.History.{HasOwnIds, HasOwnKeys, empty_tables};
ghost use Rattle.policy_model.specs.Laws.{IdsStayOwn, KeysStayOwn, KeptKeyChangesNothing, MomentNeverStepsBack, GovernsOnce, LatentOnce, OutcomeIsRight, OutcomeIsOne, FindsNext, PassesOver, PassesOverLater, TablesGoOn, MomentGoesOn, PlacesStand, NoOthersStand, PriorityTextIsItsOwn};

/// The outcome that the definitions compute is that of the rule that governs.
pub fn outcome_is_right()
    ensures { OutcomeIsRight }
{}

/// Rules have ids of their own in all tables that a history gives.
pub fn ids_stay_own()
    ensures empty { HasOwnIds empty_tables }
    ensures kept { IdsStayOwn }
{}

/// A key acts once: the keys of receipts differ in all tables that a history gives, and an edit
/// under a key that is kept changes nothing.
pub fn keys_stay_own()
    ensures empty { HasOwnKeys empty_tables }
    ensures kept { KeysStayOwn }
    ensures unchanged { KeptKeyChangesNothing }
{}

/// The moment of a desk never steps back.
pub fn moment_never_steps_back()
    ensures { MomentNeverStepsBack }
{}

/// At most one rule governs and at most one is latent, so there is one outcome.
pub fn one_outcome()
    ensures governs { GovernsOnce }
    ensures latent { LatentOnce }
    ensures outcome { OutcomeIsOne }
{}

/// What a search of the rules finds that looks at one rule more.
pub fn search_goes_on()
    ensures finds { FindsNext }
    ensures passes { PassesOver }
    ensures later { PassesOverLater }
{}

/// Where a history leads that goes on by one event.
pub fn history_goes_on()
    ensures tables { TablesGoOn }
    ensures moment { MomentGoesOn }
{}

/// The places that a priority prints are the one row of digits that stands for its fraction.
pub fn places_are_the_fraction()
    ensures stand { PlacesStand }
    ensures only { NoOthersStand }
{}

/// A priority within its limits prints as no other does.
pub fn priority_texts_are_their_own()
    ensures { PriorityTextIsItsOwn }
{}
