//! The laws of the commands: each holds of every value that it names, and has no code.
ghost use Rattle.search_commands.specs.Laws.{UndecidedHasTie, EndExists, UnspentEndExists, TieIffUndecided, TabulationExists, NoWinnerIffUndecided};
ghost use Rattle.search_commands.specs.Laws.{SpentWhereAbove, SpentBySetsExactly, TrialIsASearch, TrialIsComplete};

/// A contest that isn't decided has a first tie.
pub fn undecided_has_tie()
    ensures { UndecidedHasTie }
{}

/// A search has an end, whatever its budget and its floor.
pub fn end_exists()
    ensures { EndExists }
{}

/// If the budget is enough for the certificate, a search has an end at which it isn't out of budget.
pub fn unspent_end_exists()
    ensures { UnspentEndExists }
{}

/// A search that isn't out of budget ends with a tie exactly if its contest isn't decided.
pub fn tie_iff_undecided()
    ensures { TieIffUndecided }
{}

/// A tabulation has an end at which it isn't out of budget, whatever its number of nodes.
pub fn tabulation_exists()
    ensures { TabulationExists }
{}

/// A tabulation that isn't out of budget names no winner exactly if its contest isn't decided.
pub fn no_winner_iff_undecided()
    ensures { NoWinnerIffUndecided }
{}

/// A search of a decided contest whose certificate needs more nodes for a candidate runs out of budget.
pub fn spent_where_above()
    ensures { SpentWhereAbove }
{}

/// A search by sets runs out of budget exactly if it needs more sets, and the order that it starts with isn't of hardness 0.
pub fn spent_by_sets_exactly()
    ensures { SpentBySetsExactly }
{}

/// A trial is a search of its contest at floor 1.
pub fn trial_is_a_search()
    ensures { TrialIsASearch }
{}

/// A trial with enough nodes or sets doesn't run out of budget.
pub fn trial_is_complete()
    ensures { TrialIsComplete }
{}
