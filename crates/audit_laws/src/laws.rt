//! What an audit promises: each law holds of every value that it names, and has no code.
ghost use Rattle.audit_laws.specs.CleanDraws.{FewestCleanDraws, NeedsNoMore};
ghost use Rattle.audit_laws.specs.Laws.{ClaimsRiskLimit, CountedRiskLimit, EachElectsAnother};
ghost use Rattle.audit_laws.specs.Laws.{HeldIsAuditable, HeldRiskLimit, OtherWinnerIsWrong, SomeIsUntrue};
ghost use Rattle.audit_laws.specs.RiskLimit.{RiskLimit};

/// If the actual rankings of the cards may elect a candidate other than the one the published file says, the audit can be signed off on at
/// most `limit` millionths of all sequences of `n` cards.
pub fn risk_limit()
    ensures { RiskLimit }
{}

/// The risk limit of a file that holds, no matter which check showed that it does.
pub fn held_risk_limit()
    ensures { HeldRiskLimit }
{}

/// The claims of a file that holds prove the winner if they are true, and have their margins over the linked records.
pub fn held_is_auditable()
    ensures { HeldIsAuditable }
{}

/// If the actual rankings may elect another candidate, each cover has an assertion that isn't true of them.
pub fn some_is_untrue()
    ensures { SomeIsUntrue }
{}

/// The risk limit of claims like these, however they were made.
pub fn claims_risk_limit()
    ensures { ClaimsRiskLimit }
{}

/// The same as a count of the listed sequences, if the readings of the cards don't depend on the draws.
pub fn counted_risk_limit()
    ensures { CountedRiskLimit }
{}

/// Actual rankings whose tabulation has another winner are among those that may elect another candidate.
pub fn other_winner_is_wrong()
    ensures { OtherWinnerIsWrong }
{}

/// So are actual rankings if every possible order of them elects another candidate, because there is always a possible order.
pub fn each_elects_another()
    ensures { EachElectsAnother }
{}

/// If a number of clean draws is enough for some true set of assertions that proves the winner, it is enough for the accepted file, provided
/// that the file has an order.
pub fn fewest_clean_draws()
    ensures { FewestCleanDraws }
{}

/// Some assertion of a set like this needs at least as many clean draws as any assertion of the accepted file.
pub fn needs_no_more()
    ensures { NeedsNoMore }
{}
