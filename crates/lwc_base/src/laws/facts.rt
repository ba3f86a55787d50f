ghost use Rattle.lwc_base.specs.Facts.{ChangeFacts, CountFacts, FreshFacts, OrderFacts};

/// The orders of names and of tags are total, and only equal ones tie.
pub fn names_are_ordered()
    ensures { OrderFacts }
{}

/// What each change of a world makes, and what it leaves as it was.
pub fn changes_leave_the_rest()
    ensures { ChangeFacts }
{}

/// The number of live names stays where the same names live, and rises by one with each new name of a fresh
/// world.
pub fn live_names_are_counted()
    ensures { CountFacts }
{}

/// The next names of a fresh world are new, and each change of it keeps it fresh.
pub fn names_stay_old()
    ensures { FreshFacts }
{}
