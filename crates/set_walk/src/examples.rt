//! Worked examples: the definitions for small contests, computed by the checker.
ghost use Rattle.std.specs.Prelude.{◌≡◌, [], ◌∷◌, Some, None, Ok, Err, length};
ghost use Rattle.assertions.specs.Contests as contests;
ghost use Rattle.assertions.specs.Steps.{step, step_refuter};
ghost use Rattle.set_walk.specs.Walks.{passes, standing, counted};
ghost use Rattle.set_walk.specs.Answers.{first_within};
ghost use Rattle.set_walk.specs.Bests.{best_by_sets, order_by_sets, assertions_by_sets};

use crate::WalkFault;
use assertions::Assertion;

/// Five ballots are 0, four are 1,2 and three are 2,1. The winner is 1.
pub fn three_candidates()
    ensures alone { step 3 contests.three_candidates 0 2 ≡ 1 }
    ensures by { step_refuter 3 contests.three_candidates 0 2 ≡ Some (Assertion.Neb 1 2) }
    ensures next { step 3 contests.three_candidates 1 1 ≡ 2 }
    ensures best { best_by_sets 3 1 (step 3 contests.three_candidates) ≡ 1 }
    ensures order { order_by_sets 3 1 (step 3 contests.three_candidates) 1 ≡ Some (1 ∷ 0 ∷ 2 ∷ []) }
    ensures claims { assertions_by_sets 3 contests.three_candidates 1
        ≡ Assertion.Neb 1 2 ∷ Assertion.Nen 1 0 3 ∷ Assertion.Nen 2 0 5 ∷ [] }
    ensures covered { first_within 3 1 1 (passes (assertions_by_sets 3 contests.three_candidates 1))
        ≡ Ok None }
    ensures spent { first_within 3 1 0 (passes (assertions_by_sets 3 contests.three_candidates 1))
        ≡ Err WalkFault.Spent }
    ensures stands { first_within 3 1 3 (passes (Assertion.Nen 1 0 3 ∷ Assertion.Nen 2 0 5 ∷ []))
        ≡ Ok (Some (1 ∷ 0 ∷ 2 ∷ [])) }
    ensures short { first_within 3 1 2 (passes (Assertion.Nen 1 0 3 ∷ Assertion.Nen 2 0 5 ∷ []))
        ≡ Err WalkFault.Spent }
    ensures sets { standing 3 1 (passes (Assertion.Nen 1 0 3 ∷ Assertion.Nen 2 0 5 ∷ []))
        ≡ 1 ∷ 4 ∷ 5 ∷ 6 ∷ [] }
    ensures before { counted 3 1 (passes (Assertion.Nen 1 0 3 ∷ Assertion.Nen 2 0 5 ∷ []))
        ≡ 1 ∷ 4 ∷ 5 ∷ [] }
{}

/// A county's contest of candidates 15 to 18, here 0 to 3: four ballots 16, three 17, and one each of 18,17, of 18
/// and of 15,16.
pub fn county_contest()
    ensures best { best_by_sets 4 1 (step 4 contests.county) ≡ 1 }
    ensures order { order_by_sets 4 1 (step 4 contests.county) 1 ≡ Some (3 ∷ 0 ∷ 1 ∷ 2 ∷ []) }
    ensures claims { assertions_by_sets 4 contests.county 1
        ≡ Assertion.Neb 1 0 ∷ Assertion.Neb 1 3 ∷ Assertion.Nen 1 2 6 ∷ [] }
{}
