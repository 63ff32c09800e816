//! The laws of walks by sets: these walks give what the definitions over suffixes give.
ghost use Rattle.set_walk.specs.Laws.{LowBySteps, RefuterBySteps, BestBySets, OrderBySets, CertificateBySets, StandingBySets, CoversBySets, StandingIs, CertificateStands, StandingAreFew, WalkIs, CountedStand, NeverSpent, CertificateCovered, LeastIsBest, SearchCounts, SearchCountsAll};

/// One more candidate raises the low to the candidate's step, if the step is more.
pub fn low_by_steps()
    ensures { LowBySteps }
{}

/// If the candidate raises the low, the refuter is the step's.
pub fn refuter_by_steps()
    ensures { RefuterBySteps }
{}

/// The best margin is the smallest, over walks from set to set, of the walk's greatest step.
pub fn best_by_sets()
    ensures { BestBySets }
{}

/// A greedy search finds the certificate's order.
pub fn order_by_sets()
    ensures { OrderBySets }
{}

/// The certificate's assertions are those of the steps that go from below its margin to at least its margin.
pub fn certificate_by_sets()
    ensures { CertificateBySets }
{}

/// A greedy search finds the least order that a list of assertions doesn't refute.
pub fn standing_by_sets()
    ensures { StandingBySets }
{}

/// A list of assertions covers exactly if no walk gets past it.
pub fn covers_by_sets()
    ensures { CoversBySets }
{}

/// The sets that are reached are the sets of suffixes that aren't refuted.
pub fn standing_is()
    ensures { StandingIs }
{}

/// The sets that are reached past a certificate are the sets below its margin.
pub fn certificate_stands()
    ensures { CertificateStands }
{}

/// The number of sets that are reached is at most the number of sets of candidates, less three.
pub fn standing_are_few()
    ensures { StandingAreFew }
{}

/// The walk into each set once is `Spent` exactly if more sets count than the budget allows, and otherwise gives the first order.
pub fn walk_is()
    ensures { WalkIs }
{}

/// A set that counts is reached. If no order walks, a set that is reached counts.
pub fn counted_stand()
    ensures { CountedStand }
{}

/// A budget of three fewer sets than there are never runs out.
pub fn never_spent()
    ensures { NeverSpent }
{}

/// A certificate is found to be covered within the sets that are reached below its margin.
pub fn certificate_covered()
    ensures { CertificateCovered }
{}

/// The best margin is the smallest by whose steps an order walks.
pub fn least_is_best()
    ensures { LeastIsBest }
{}

/// A walk within a margin below the best counts at most the sets that are reached below the best.
pub fn search_counts()
    ensures { SearchCounts }
{}

/// If no step from these sets lies between the two margins, the walk counts exactly these sets.
pub fn search_counts_all()
    ensures { SearchCountsAll }
{}
