//! Worked examples: the definitions at small contests, computed by the checker.
ghost use Rattle.std.specs.Prelude.{◌≡◌, [], ◌∷◌, true, false};
ghost use Rattle.assertions.specs.Contests as contests;
ghost use Rattle.assertions.specs.Refutation.{covers};
ghost use Rattle.fewest.specs.Examples.{eight_ballots, fewest_of_eight};
ghost use Rattle.cover_checker.specs.Covers.{stands};
ghost use Rattle.fewest_search.specs.Needed.{others};
ghost use Rattle.fewest_search.specs.Sets.{fewest_sets};

use assertions::Assertion;

/// Five ballots rank 0, four rank 1,2 and three rank 2,1. The winner is 1. The order takes three sets, and the one NEB lets two stand. The
/// order 1,0,2 stands without the NEB, and the order 2,1,0 stands without the NEN.
pub fn three_candidates()
    ensures sets { fewest_sets 3 contests.three_candidates 1 ≡ 3 }
    ensures others { others (Assertion.Neb 1 2) (Assertion.Neb 1 2 ∷ Assertion.Nen 1 0 3 ∷ [])
        ≡ Assertion.Nen 1 0 3 ∷ [] }
    ensures neb { stands (Assertion.Nen 1 0 3 ∷ []) (1 ∷ 0 ∷ 2 ∷ []) ≡ true }
    ensures nen { stands (Assertion.Neb 1 2 ∷ []) (2 ∷ 1 ∷ 0 ∷ []) ≡ true }
{}

/// There are eight ballots of four candidates. The one NEB lets eight sets stand, and each of the four assertions is needed.
pub fn four_candidates()
    ensures sets { fewest_sets 4 eight_ballots 2 ≡ 8 }
    ensures covered { covers 4 2 fewest_of_eight ≡ true }
    ensures neb { covers 4 2 (others (Assertion.Neb 2 3) fewest_of_eight) ≡ false }
    ensures first { covers 4 2 (others (Assertion.Nen 0 1 15) fewest_of_eight) ≡ false }
    ensures second { covers 4 2 (others (Assertion.Nen 3 1 15) fewest_of_eight) ≡ false }
    ensures third { covers 4 2 (others (Assertion.Nen 2 0 5) fewest_of_eight) ≡ false }
{}
