//! What a poll promises: each law holds of every value that it names, and has no code.
ghost use Rattle.std.specs.Prelude.{ℕ};
ghost use Rattle.polling.specs.Laws.{FactorLaw, PollIsComparison, PolledIsCounted};
ghost use Rattle.polling.specs.EachLimit.{EachIsCounted, EachLimit, EachValuesLimit};
ghost use Rattle.polling.specs.PollLimit.{PollLimit, PollValuesLimit};

/// If the actual rankings of the cards may elect a candidate other than the one a set of assertions proves, the poll can confirm all of these
/// assertions on at most `limit` millionths of all sequences of `n` cards.
pub fn poll_limit()
    ensures { PollLimit }
{}

/// The same for any claims, if one isn't true of the actual rankings.
pub fn poll_values_limit()
    ensures { PollValuesLimit }
{}

/// A poll that confirms claims by the draws of a seed is among those that the limit counts.
pub fn polled_is_counted()
    ensures { PolledIsCounted }
{}

/// A poll prints the risk of a comparison at one card and a margin of one vote.
pub fn poll_is_comparison()
    ensures { PollIsComparison }
{}

/// The factor of a draw in that comparison.
pub fn factor()
    ensures { (gamma s : ℕ) → FactorLaw gamma s }
{}

/// If the actual rankings of the cards may elect a candidate other than the one a set of assertions proves, a poll that is looked at after
/// each draw can confirm all of these assertions on at most `limit` millionths of all sequences of `n` cards, whatever gamma each of them has.
pub fn each_limit()
    ensures { EachLimit }
{}

/// The same for any claims, if one isn't true of the actual rankings.
pub fn each_values_limit()
    ensures { EachValuesLimit }
{}

/// A poll like this that confirms claims by the draws of a seed is among those that the limit counts.
pub fn each_is_counted()
    ensures { EachIsCounted }
{}
