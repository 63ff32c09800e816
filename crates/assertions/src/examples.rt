//! Worked examples: the definitions applied to small contests, computed by the checker.
ghost use Rattle.std.specs.Prelude.{◌≡◌, ◌+◌, ◌*◌, [], ◌∷◌, Some, IsTrue};
ghost use Rattle.irv_base.specs.Tabulation.{is_tabulated, is_possible};
ghost use Rattle.assertions.specs.Contests as contests;
ghost use Rattle.assertions.specs.Refutation.{covers};
ghost use Rattle.assertions.specs.Hardness.{low, best_margin, start_order};
ghost use Rattle.assertions.specs.Certificate.{certificate_assertions, certificate_claims, certificate_order, cover_count, order_count};
ghost use Rattle.assertions.specs.Assorter.{assorter_value};
ghost use Rattle.assertions.specs.FixedOrder.{number_of};

use crate::Assertion;

/// Five ballots 0, four 1,2 and three 2,1. The order from which the search starts isn't the certificate's.
pub fn three_candidates()
    ensures tabulated { IsTrue (is_tabulated contests.three_candidates (2 ∷ 0 ∷ 1 ∷ [])) }
    ensures start { start_order (2 ∷ 0 ∷ 1 ∷ []) ≡ 2 ∷ 1 ∷ 0 ∷ [] }
    ensures first { low 3 contests.three_candidates (2 ∷ 1 ∷ 0 ∷ []) ≡ 2 }
    ensures best { best_margin 3 1 (low 3 contests.three_candidates) ≡ 1 }
    ensures order { certificate_order 3 1 (low 3 contests.three_candidates) 1
        ≡ Some (1 ∷ 0 ∷ 2 ∷ []) }
    ensures claims { certificate_claims 3 contests.three_candidates 1
        ≡ record { assertion = Assertion.Neb 1 2; margin = 1 }
        ∷ record { assertion = Assertion.Nen 1 0 3; margin = 2 }
        ∷ record { assertion = Assertion.Nen 2 0 5; margin = 2 }
        ∷ [] }
    ensures covered { IsTrue (covers 3 1 (certificate_assertions 3 contests.three_candidates 1)) }
    ensures possible { IsTrue (is_possible contests.three_candidates (2 ∷ 0 ∷ 1 ∷ [])) }
    ensures below_0 { cover_count 3 (low 3 contests.three_candidates) 1 0 ≡ 1 }
    ensures below_2 { cover_count 3 (low 3 contests.three_candidates) 1 2 ≡ 0 }
    ensures before_2 { order_count 3 (low 3 contests.three_candidates) 1 (1 ∷ 0 ∷ 2 ∷ []) 2 ≡ 2 }
{}

/// Three ballots 0 and two 1.
pub fn two_candidates()
    ensures best { best_margin 2 0 (low 2 contests.two_candidates) ≡ 1 }
    ensures order { certificate_order 2 0 (low 2 contests.two_candidates) 1 ≡ Some (0 ∷ 1 ∷ []) }
    ensures claims { certificate_claims 2 contests.two_candidates 0
        ≡ record { assertion = Assertion.Neb 0 1; margin = 1 }
        ∷ [] }
{}

/// A county's contest of candidates 15 to 18, here 0 to 3: four ballots 16, three 17, and one each of 18,17, of 18
/// and of 15,16.
pub fn county_contest()
    ensures best { best_margin 4 1 (low 4 contests.county) ≡ 1 }
    ensures order { certificate_order 4 1 (low 4 contests.county) 1 ≡ Some (3 ∷ 0 ∷ 1 ∷ 2 ∷ []) }
    ensures claims { certificate_claims 4 contests.county 1
        ≡ record { assertion = Assertion.Neb 1 0; margin = 3 }
        ∷ record { assertion = Assertion.Neb 1 3; margin = 2 }
        ∷ record { assertion = Assertion.Nen 1 2 6; margin = 1 }
        ∷ [] }
{}

/// NEB(1,2) and NEN(1,2,{1,2}) on ballots for the winner, for the loser, and for neither.
pub fn assorter_values()
    ensures winner_first { assorter_value (Assertion.Neb 1 2) (1 ∷ 2 ∷ []) ≡ 2 }
    ensures winner_later { assorter_value (Assertion.Neb 1 2) (0 ∷ 1 ∷ 2 ∷ []) ≡ 1 }
    ensures loser_ahead { assorter_value (Assertion.Neb 1 2) (0 ∷ 2 ∷ 1 ∷ []) ≡ 0 }
    ensures top_of_rest { assorter_value (Assertion.Nen 1 2 6) (0 ∷ 1 ∷ 2 ∷ []) ≡ 2 }
    ensures loser_of_rest { assorter_value (Assertion.Nen 1 2 6) (2 ∷ []) ≡ 0 }
    ensures none_of_rest { assorter_value (Assertion.Nen 1 2 6) (0 ∷ []) ≡ 1 }
{}

/// The numbers of NEB(1,2), which come before those of all NENs, and of NEN(1,2,{1,2}).
pub fn numbers()
    ensures neb { number_of (Assertion.Neb 1 2) ≡ 258 * 4294967296 }
    ensures nen { number_of (Assertion.Nen 1 2 6) ≡ 65794 * 4294967296 + 6 }
{}
