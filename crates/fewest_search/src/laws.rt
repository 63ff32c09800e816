//! The laws of the fewest NENs of a contest. Each holds of every value that it names, and has no code.
ghost use Rattle.fewest_search.specs.Laws.{SetsAreFew, NeverBoth, AllAreNeeded, NensAreNeeded, GapIsRoundedUp, NoGapIsBest, BestIsReached};

/// No contest needs more sets than there are, less three. So a budget of that many never runs out.
pub fn sets_are_few()
    ensures { SetsAreFew }
{}

/// No budget has both answers.
pub fn never_both()
    ensures { NeverBoth }
{}

/// With a budget of that many, each assertion is needed: without it, an order stands that elects another candidate.
pub fn all_are_needed()
    ensures { AllAreNeeded }
{}

/// With any budget, each NEN is needed.
pub fn nens_are_needed()
    ensures { NensAreNeeded }
{}

/// The smallest margin that a gap leaves is rounded up.
pub fn gap_is_rounded_up()
    ensures { GapIsRoundedUp }
{}

/// Without a gap, it is the best margin.
pub fn no_gap_is_best()
    ensures { NoGapIsBest }
{}

/// No margin is below it, and the smallest margin isn't above the best one.
pub fn best_is_reached()
    ensures { BestIsReached }
{}
