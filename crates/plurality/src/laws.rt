//! The laws of plurality contests: each holds of every value that it names, and has no code.
ghost use Rattle.plurality.specs.Laws.{ClaimsRiskLimit, CountedRiskLimit, LeadLaw, PublishedAreClaims};
ghost use Rattle.plurality.specs.Laws.{TieLaw, WinnerIsFirst, WonLaw, WonOrAnother};
ghost use Rattle.plurality.specs.RiskLimit.{PluralityRiskLimit};

/// If another candidate has as many first preferences on the cards as the winner, or more, the audit can be signed off on at most `limit`
/// millionths of all sequences of `n` cards.
pub fn plurality_risk_limit()
    ensures { PluralityRiskLimit }
{}

/// The risk limit of the claims by themselves, if each margin is that of its claim.
pub fn claims_risk_limit()
    ensures { ClaimsRiskLimit }
{}

/// The same as a count of the listed sequences, if the readings of the cards don't depend on the draws.
pub fn counted_risk_limit()
    ensures { CountedRiskLimit }
{}

/// The claims that follow from published ballots have their margins over the linked records.
pub fn published_are_claims()
    ensures { PublishedAreClaims }
{}

/// A contest has an outcome exactly if one candidate has more first preferences than every other.
pub fn won()
    ensures { WonLaw }
{}

/// A contest has no outcome exactly if two or more candidates share the greatest number. The tie is theirs.
pub fn tie()
    ensures { TieLaw }
{}

/// The values of a claim add up to the number of rankings plus the difference in first preferences.
pub fn lead()
    ensures { LeadLaw }
{}

/// All claims are true exactly if the winner has strictly more first preferences than each other candidate.
pub fn winner_is_first()
    ensures { WinnerIsFirst }
{}

/// For any rankings, either the winner has won, or another candidate has at least as many first preferences.
pub fn won_or_another()
    ensures { WonOrAnother }
{}
