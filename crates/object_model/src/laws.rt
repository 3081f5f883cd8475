//! Laws over the definitions: functions that do nothing and whose contracts are the laws.

ghost use Rattle.object_model.specs.StandsLaws.{KnownAnswers, BeginGives, OpeningStands, TickStands, QuietStands, FailedStands, StarvedStands, EditStands, FinishStands, TickKeepsFresh, EditKeepsFresh, StandsFresh, MarksStayBelow};
ghost use Rattle.object_model.specs.OfDeskLaws.{BeginsOfDesk, TickKeepsOf, EditKeepsOf, EntriesKeepOf, OfferKeepsFresh, FinishKeepsFresh, HistoryTicketsAreOf};
ghost use Rattle.object_model.specs.Laws.{StaysSound, FreshIsSound, HoldsUntil, FoundAnswers, TickKeeps, EditKeeps, OfferKeeps, TicketStays, TicketJudges, TicketAnswers, TicketDecides};
ghost use Rattle.object_model.specs.DropLaws.{MovedByCounts, MovedByRing, GovernedOutlasts, DefaultOutlasts, TickPassesOver, EditPassesOver, EditPurges, CountsPurges, MarksPurge, RingsPurge};

/// What is kept stays right through any history: although it was judged over rules that edits have since passed.
pub fn kept_stays_right()
    ensures fresh { FreshIsSound }
    ensures sound { StaysSound }
    ensures until { HoldsUntil }
    ensures answers { FoundAnswers }
{}

/// Counts of edits decide whether an outcome has moved, with a ring of first ranks where some edits are forgiven.
pub fn counts_decide()
    ensures counts { MovedByCounts }
    ensures ring { MovedByRing }
{}

/// An edit drops what a rule decided that isn't before all touched rules of the kind, and each default of a kind that it touches.
pub fn outlasting_is_being_before()
    ensures governed { GovernedOutlasts }
    ensures default { DefaultOutlasts }
{}

/// Each event keeps what is kept right, from any state.
pub fn each_event_keeps_it_right()
    ensures tick { TickKeeps }
    ensures edit { EditKeeps }
    ensures offer { OfferKeeps }
{}

/// What a ticket holds is enough for its outcome, its verdict and its offer.
pub fn a_ticket_is_enough()
    ensures stays { TicketStays }
    ensures judges { TicketJudges }
    ensures answers { TicketAnswers }
    ensures decides { TicketDecides }
{}

/// Entries that have ended may stay in a list that is read past them.
pub fn ended_entries_may_stay()
    ensures tick { TickPassesOver }
    ensures edit { EditPassesOver }
{}

/// An edit is known to the entries by the first rank that it touches in each kind.
pub fn first_ranks_purge()
    ensures entries { EditPurges }
    ensures counts { CountsPurges }
    ensures marks { MarksPurge }
    ensures rings { RingsPurge }
{}

/// Each call leaves a desk standing for the history with its event added.
pub fn a_desk_goes_on_standing()
    ensures opening { OpeningStands }
    ensures known { KnownAnswers }
    ensures begin { BeginGives }
    ensures tick { TickStands }
    ensures quiet { QuietStands }
    ensures failed { FailedStands }
    ensures starved { StarvedStands }
    ensures edit { EditStands }
    ensures finish { FinishStands }
{}

/// Each kept outcome of a desk is what its rules say now.
pub fn a_desk_is_fresh()
    ensures tick { TickKeepsFresh }
    ensures edit { EditKeepsFresh }
    ensures stands { StandsFresh }
    ensures offer { OfferKeepsFresh }
    ensures finish { FinishKeepsFresh }
{}

/// What is judged on a desk is of that desk, and stays so through all that happens on it.
pub fn what_was_judged_is_of_the_desk()
    ensures begin { BeginsOfDesk }
    ensures tick { TickKeepsOf }
    ensures edit { EditKeepsOf }
    ensures entries { EntriesKeepOf }
    ensures ticket { HistoryTicketsAreOf }
{}

/// No mark passes the number of receipts.
pub fn marks_stay_below()
    ensures { MarksStayBelow }
{}
