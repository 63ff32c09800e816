//! What the answers of `covered` and of `check` say. Each law holds of every value that it names, and has no code.
ghost use Rattle.cover_checker.specs.Laws.{CoveredIsSound, CoveredIffCovers, StandsIsLeast, CoveredIsNeverSpent, CoveredBySetsIsNeverSpent};
ghost use Rattle.cover_checker.specs.Laws.{AnswerIsOne, AnswerExists, AnswerIsNeverSpent, AnswerIsNeverFault, AcceptedIffHolds};
ghost use Rattle.cover_checker.specs.Laws.{AcceptedExactly, AcceptedIsCovered, AcceptedIsDecided, AcceptedMarginIsBest, AcceptedMarginIsReached, AcceptedWithoutOrder, CertificateIsAccepted, CoverIsAccepted};

/// `Covered` proves the winner by itself: for every list of records for which all assertions of the list are true, every possible order
/// elects the winner, however ties are broken. The assertions must be proper.
pub fn covered_is_sound()
    ensures { CoveredIsSound }
{}

/// If the budget doesn't run out, the answer is `Covered` exactly if the list refutes each alternative order.
pub fn covered_iff_covers()
    ensures { CoveredIffCovers }
{}

/// An order that stands is an alternative order that nothing refutes, and the least of these when read backwards.
pub fn stands_is_least()
    ensures { StandsIsLeast }
{}

/// A budget of `2 * (n - 1)!` nodes never runs out, whatever the list.
pub fn covered_is_never_spent()
    ensures { CoveredIsNeverSpent }
{}

/// A budget of `2^n - 3` sets never runs out either.
pub fn covered_by_sets_is_never_spent()
    ensures { CoveredBySetsIsNeverSpent }
{}

/// A file that could be read has an answer.
pub fn answer_exists()
    ensures { AnswerExists }
{}

/// With a budget of `2 * (n - 1)!` nodes, the answer is never that it ran out.
pub fn answer_is_never_spent()
    ensures { AnswerIsNeverSpent }
{}

/// With this many nodes, or with `2^n - 3` sets, a file that could be read has no fault except running out of memory.
pub fn answer_is_never_fault()
    ensures { AnswerIsNeverFault }
{}

/// A file has one answer.
pub fn answer_is_one()
    ensures { AnswerIsOne }
{}

/// If the budget doesn't run out, a file is accepted exactly if it holds of the ballots.
pub fn accepted_iff_holds()
    ensures { AcceptedIffHolds }
{}

/// A file is accepted exactly if it holds of the ballots, and either no more suffixes count for any candidate than there are nodes, or no
/// more sets count in total than there are sets.
pub fn accepted_exactly()
    ensures { AcceptedExactly }
{}

/// A file without an order is accepted exactly if it is about the contest and its winner, its claims have their margins and cover, the
/// smallest margin is the file's, its draws are right, and the budget is enough. So a `yes` says all of that, and nothing about a best
/// margin.
pub fn cover_is_accepted()
    ensures { CoverIsAccepted }
{}

/// The claims of an accepted file are called covered, so they prove the winner.
pub fn accepted_is_covered()
    ensures { AcceptedIsCovered }
{}

/// The contest of an accepted file is decided, whatever ties it has.
pub fn accepted_is_decided()
    ensures { AcceptedIsDecided }
{}

/// If an accepted file has an order, its margin is the best of the contest.
pub fn accepted_margin_is_best()
    ensures { AcceptedMarginIsBest }
{}

/// With or without an order, its margin is at most the best.
pub fn accepted_margin_is_reached()
    ensures { AcceptedMarginIsReached }
{}

/// An accepted file is also accepted without its order. It then says nothing about a best margin.
pub fn accepted_without_order()
    ensures { AcceptedWithoutOrder }
{}

/// The canonical certificate of the ballots is accepted within the nodes or sets that it took to find its claims.
pub fn certificate_is_accepted()
    ensures { CertificateIsAccepted }
{}
