//! The laws of a search: each holds of every value that it names, and has no code.
ghost use Rattle.contest_search.specs.FewestLaws.{FewestIsAccepted, FewestSetsAreFew, NoGapIsBest, PlannedFewestIsAccepted, SpentFewestExactly};
ghost use Rattle.contest_search.specs.Laws.{FoundIsAccepted, NodesAreFew, PlannedIsAccepted, SetsAreFew, SpentBySetsExactly};

/// No search needs more nodes for a candidate than twice the factorial of the number of the other candidates.
pub fn nodes_are_few()
    ensures { NodesAreFew }
{}

/// No search needs more sets than the number of all sets minus three.
pub fn sets_are_few()
    ensures { SetsAreFew }
{}

/// A search by sets runs out of budget exactly if it needs more sets than the budget has and the order that it starts with doesn't have
/// hardness 0.
pub fn spent_by_sets_exactly()
    ensures { SpentBySetsExactly }
{}

/// What a search finds is the canonical certificate, can be read back from its text, and is accepted by the checker.
pub fn found_is_accepted()
    ensures { FoundIsAccepted }
{}

/// The same holds with the draws of a clean audit.
pub fn planned_is_accepted()
    ensures { PlannedIsAccepted }
{}

/// No search for the fewest NENs needs more sets than the number of all sets minus three.
pub fn fewest_sets_are_few()
    ensures { FewestSetsAreFew }
{}

/// If the contest is decided, a search for the fewest NENs runs out of budget exactly if it needs more sets than the budget has.
pub fn spent_fewest_exactly()
    ensures { SpentFewestExactly }
{}

/// What is printed for a search for the fewest NENs holds for the ballots, can be read back from its text, and is accepted by the checker.
pub fn fewest_is_accepted()
    ensures { FewestIsAccepted }
{}

/// The same holds with the draws of a clean audit.
pub fn planned_fewest_is_accepted()
    ensures { PlannedFewestIsAccepted }
{}

/// Without a gap, what is printed is what is found. It has the best margin and the order of the certificate.
pub fn no_gap_is_best()
    ensures { NoGapIsBest }
{}
