//! The laws of sessions. Each holds of every value that it names, and has no code.
ghost use Rattle.session_state.specs.Laws.{SessionLaw, SignedOffLaw, EveryDrawLaw, PartlySeenLaw, FactsLaw};
ghost use Rattle.session_state.specs.RiskOfValues.{ValuesRiskLimit, CountedValuesRiskLimit};

/// A session is that of some draws exactly if it keeps the invariants of a session and its counts are those of the draws.
pub fn session()
    ensures { SessionLaw }
{}

/// If a session is signed off, each claim had an exact risk within the limit after some of the draws.
pub fn signed_off()
    ensures { SignedOffLaw }
{}

/// Some session of the draws is signed off exactly if the session with a round after each draw is.
pub fn every_draw()
    ensures { EveryDrawLaw }
{}

/// If only some cards were looked at, every other card counts as missing, and that is a reading of all cards.
pub fn partly_seen()
    ensures { PartlySeenLaw }
{}

/// A test decides whether a session has some facts.
pub fn facts()
    ensures { FactsLaw }
{}

/// The risk limit of any claims, whatever they are about: if a claim isn't true, few sequences are signed off.
pub fn values_risk_limit()
    ensures { ValuesRiskLimit }
{}

/// The same as a count of the listed sequences, at readings that don't depend on the draws.
pub fn counted_values_risk_limit()
    ensures { CountedValuesRiskLimit }
{}
