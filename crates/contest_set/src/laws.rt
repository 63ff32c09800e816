//! The laws of several contests: each holds of every value that it names, and has no code.
ghost use Rattle.contest_set.specs.Laws.{EachRiskLimit, EndIsCounted, EndsAlone, OneEnd, SeenAlone, SeenIsEach};

/// What is seen for each contest is what its own records say, without the contest's id, in a seen file of one contest.
pub fn seen_is_each()
    ensures { SeenIsEach }
{}

/// What is seen for a contest among others is what is seen for it alone, by the records that are about it.
pub fn seen_alone()
    ensures { SeenAlone }
{}

/// A contest ends as it does if it is audited alone, by any number of workers: by its own ballots, and by what is seen for it.
pub fn ends_alone()
    ensures { EndsAlone }
{}

/// A contest has one end, unless its budget runs out.
pub fn one_end()
    ensures { OneEnd }
{}

/// A contest that is signed off is among those that its risk limit counts.
pub fn end_is_counted()
    ensures { EndIsCounted }
{}

/// Each contest has its own risk limit.
pub fn each_risk_limit()
    ensures { EachRiskLimit }
{}
