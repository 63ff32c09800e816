//! Laws of the risk, one for each function: its contract is the law, and its body is empty.
ghost use Rattle.km_risk.specs.Laws.{UnitsLaw, FactorLaw, OrderLaw, AllCountedLaw, LargerValuesLaw, LargerDiscrepanciesLaw, AtMostOneLaw, NotBelowLaw, NotFarAboveLaw, ConfirmedLaw, SequencesLaw, ListedLaw, ProductReachLaw, ReachLaw, ProductCountingLaw, CountingLaw, RiskLimitLaw, LeastLaw, MoreDrawsLaw, LargerMarginLaw, SameDrawsLaw};

/// The units of a risk.
pub fn units()
    ensures { UnitsLaw }
{}

/// A draw with d of 2 to 4 lowers the risk, and a draw with d of 0 or 1 doesn't.
pub fn factors()
    ensures { FactorLaw }
{}

/// The exact risk of draws doesn't depend on their order.
pub fn any_order()
    ensures { OrderLaw }
{}

/// The counts of draws count each draw once.
pub fn all_counted()
    ensures { AllCountedLaw }
{}

/// If a larger value never has a larger factor, the product of the same draws is no larger at larger values of the cards.
pub fn larger_values()
    ensures { LargerValuesLaw }
{}

/// At larger discrepancies of the cards, the exact risk of the same draws is no larger.
pub fn larger_discrepancies()
    ensures { LargerDiscrepanciesLaw }
{}

/// The printed risk is at most one.
pub fn at_most_one()
    ensures { AtMostOneLaw }
{}

/// The printed risk is at least the exact risk, or at least one if the exact risk is above one.
pub fn not_below()
    ensures { NotBelowLaw }
{}

/// The printed risk exceeds the smaller of the exact risk and one by at most one unit for each draw, times the factors of the draws with d
/// of 0 or 1.
pub fn not_far_above()
    ensures { NotFarAboveLaw }
{}

/// Draws whose printed risk is within a limit have an exact risk within it.
pub fn confirmed()
    ensures { ConfirmedLaw }
{}

/// There are `cards ^ n` sequences of `n` draws, one for each sequence of cards.
pub fn all_sequences()
    ensures { SequencesLaw }
{}

/// The listed sequences of draws are all of the sequences of cards, each once.
pub fn listed()
    ensures { ListedLaw }
{}

/// The quantity that the counting law for any factor bounds is a number of sequences of values.
pub fn reaching_of_any_factor()
    ensures { ProductReachLaw }
{}

/// If the inverses of the factors have a mean of at most one, at most `limit` millionths of all sequences of draws ever have a product
/// within the limit.
pub fn counting_of_any_factor()
    ensures { ProductCountingLaw }
{}

/// The quantity that the counting law bounds is a number of sequences of draws.
pub fn reaching()
    ensures { ReachLaw }
{}

/// If an assertion isn't true of the cards, at most `limit` millionths of all sequences of draws ever have an exact risk within the
/// limit.
pub fn counting()
    ensures { CountingLaw }
{}

/// If an assertion isn't true of the cards, at most `limit` millionths of all sequences of draws ever have a printed risk within the
/// limit.
pub fn risk_limit()
    ensures { RiskLimitLaw }
{}

/// The clean draws for a limit are the smallest number that is enough.
pub fn least()
    ensures { LeastLaw }
{}

/// The printed risk of clean draws never rises from one draw to the next.
pub fn more_draws()
    ensures { MoreDrawsLaw }
{}

/// A larger margin never needs more clean draws.
pub fn larger_margin()
    ensures { LargerMarginLaw }
{}

/// With a larger margin, the printed risk of the same clean draws is no larger.
pub fn same_draws()
    ensures { SameDrawsLaw }
{}
