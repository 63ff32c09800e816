//! Laws of the risk of draws in the order they come, one for each function: its contract is the law, and its body is empty.
ghost use Rattle.km_risk.specs.AsDrawnLaws.{AsDrawnLaw, CeilingLaw, FirstWithinLaw, WithinAsDrawnLaw, AsDrawnRiskLimitLaw};

/// Up to the ceiling, the printed risk is at least the exact one. It exceeds the exact one by at most one unit for each draw, times the
/// factors of the draws with d of 0 or 1.
/// draws with d of 0 or 1.
pub fn as_drawn()
    ensures { AsDrawnLaw }
{}

/// Above the ceiling, the printed risk is that of the first draws after which it was above the ceiling, and it stays so.
pub fn ceiling()
    ensures { CeilingLaw }
{}

/// The first draw after which the risk is within the limit.
pub fn first_within()
    ensures { FirstWithinLaw }
{}

/// Draws whose printed risk is within a limit have an exact risk within it.
pub fn within_as_drawn()
    ensures { WithinAsDrawnLaw }
{}

/// If an assertion isn't true of the cards, at most `limit` millionths of all sequences of draws ever have a printed risk within the
/// limit.
pub fn as_drawn_risk_limit()
    ensures { AsDrawnRiskLimitLaw }
{}
