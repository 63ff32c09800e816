//! Worked examples: the definitions for small contests, computed by the checker.
ghost use Rattle.std.specs.Prelude.{◌≡◌, [], ◌∷◌, Some};
ghost use Rattle.assertions.specs.Contests as contests;
ghost use Rattle.set_search.specs.Offers.{offers, step_score};
ghost use Rattle.set_search.specs.Sets.{cover_sets, order_sets, sets_for};

use assertions::Assertion;

/// Five ballots are 0, four are 1,2 and three are 2,1. The winner is 1. Below the best margin, 1, only the set of 0 is reached. Within it,
/// and before the certificate's order 1,0,2 read backwards, the sets of 0, of 2, and of 2 and 0 are reached.
pub fn three_candidates()
    ensures cover { cover_sets 3 contests.three_candidates 1 ≡ 1 }
    ensures order { order_sets 3 contests.three_candidates 1 ≡ 3 }
    ensures both { sets_for 3 contests.three_candidates 1 ≡ 3 }
    ensures offers { offers 3 1 1 ≡ Assertion.Nen 1 0 3 ∷ Assertion.Neb 2 1 ∷ [] }
    ensures step { step_score 3 contests.three_candidates 1 1
        ≡ record { low = 2; by = Some (Assertion.Nen 1 0 3) } }
{}

/// Three ballots are 0 and two are 1. No set is reached below the best margin, 1, and the order 0,1 is the first to be tried.
pub fn two_candidates()
    ensures cover { cover_sets 2 contests.two_candidates 0 ≡ 0 }
    ensures order { order_sets 2 contests.two_candidates 0 ≡ 1 }
{}
