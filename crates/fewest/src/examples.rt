//! Worked examples: the definitions for small contests, computed by the checker.
ghost use Rattle.std.specs.Prelude.{◌≡◌, [], ◌∷◌, true, false, length};
ghost use Rattle.std.specs.List.{list_all};
ghost use Rattle.assertions.specs.Contests as contests;
ghost use Rattle.assertions.specs.Certificate.{certificate_assertions};
ghost use Rattle.assertions.specs.Refutation.{covers, refutes};
ghost use Rattle.fewest.specs.Nens.{nen_count, is_enough};
ghost use Rattle.fewest.specs.Cuts.{is_step, is_leaving};
ghost use Rattle.fewest.specs.Flows.{steps, is_cuttable, is_barred, leaving_count, value};
ghost use Rattle.fewest.specs.Examples.{nobody_and_one, one_path, eight_ballots, fewest_of_eight};

use assertions::Assertion;

/// A NEN counts once, and a NEB doesn't count.
pub fn counts()
    ensures { nen_count (Assertion.Nen 1 0 3 ∷ Assertion.Neb 1 2 ∷ Assertion.Nen 2 0 5 ∷ Assertion.Nen 1 0 3 ∷ [])
        ≡ 2 }
{}

/// Five ballots are 0, four are 1,2 and three are 2,1. The winner is 1, and the best margin is 1. The NEB of that margin bars 2 from a set
/// without 1, so one path is left, by 0, 1 and then 2. The NEN of its second step cuts it.
pub fn three_candidates()
    ensures first { is_step 3 1 0 1 ≡ false }
    ensures all { length (steps 3 1) ≡ 11 }
    ensures barred { is_barred 3 contests.three_candidates 1 0 2 ≡ true }
    ensures free { is_barred 3 contests.three_candidates 1 1 1 ≡ false }
    ensures cuttable { is_cuttable 3 contests.three_candidates 1 1 1 ≡ true }
    ensures last { is_cuttable 3 contests.three_candidates 1 3 2 ≡ false }
    ensures leaving { is_leaving nobody_and_one 1 1 ≡ true }
    ensures flows { value 3 1 one_path ≡ 1 }
    ensures full { leaving_count 3 1 contests.three_candidates 1 nobody_and_one ≡ 1 }
    ensures enough { list_all (is_enough 3 contests.three_candidates 1)
        (Assertion.Neb 1 2 ∷ Assertion.Nen 1 0 3 ∷ []) ≡ true }
    ensures covering { covers 3 1 (Assertion.Neb 1 2 ∷ Assertion.Nen 1 0 3 ∷ []) ≡ true }
{}

/// Eight ballots of four candidates. The certificate has seven assertions, but four are enough. Three orders each need a NEN of their own;
/// the only NEB of that margin refutes none of them.
pub fn four_candidates()
    ensures certificate { length (certificate_assertions 4 eight_ballots 2) ≡ 7 }
    ensures enough { list_all (is_enough 4 eight_ballots 1) fewest_of_eight ≡ true }
    ensures covering { covers 4 2 fewest_of_eight ≡ true }
    ensures nens { nen_count fewest_of_eight ≡ 3 }
    ensures first { refutes (Assertion.Neb 2 3) (0 ∷ 3 ∷ 2 ∷ 1 ∷ []) ≡ false }
    ensures second { refutes (Assertion.Neb 2 3) (1 ∷ 3 ∷ 2 ∷ 0 ∷ []) ≡ false }
    ensures third { refutes (Assertion.Neb 2 3) (3 ∷ 2 ∷ 1 ∷ 0 ∷ []) ≡ false }
    ensures by_one { refutes (Assertion.Nen 2 0 5) (1 ∷ 3 ∷ 2 ∷ 0 ∷ []) ≡ true }
    ensures by_no_other { is_cuttable 4 eight_ballots 1 5 1 ≡ false }
{}
