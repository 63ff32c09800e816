//! The laws of a trial, which have no code.
ghost use Rattle.trial.specs.Laws.{FirstDraws, OneBallot, HasBallots, RanksCandidates};

/// The first four draws of number 0.
pub fn first_draws()
    ensures { FirstDraws }
{}

/// The one ballot of number 0 over two candidates.
pub fn one_ballot()
    ensures { OneBallot }
{}

/// There are as many records as requested.
pub fn has_ballots()
    ensures { HasBallots }
{}

/// Every record ranks only candidates of the contest.
pub fn ranks_candidates()
    ensures { RanksCandidates }
{}
