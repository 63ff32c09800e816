//! Worked examples: the definitions for small contests, computed by the checker.
ghost use Rattle.std.specs.Prelude.{◌≡◌, [], ◌∷◌, true, false};
ghost use Rattle.assertions.specs.Contests as contests;
ghost use Rattle.fewest.specs.Examples.{eight_ballots};
ghost use Rattle.nen_cut.specs.Cut.{cut_steps};
ghost use Rattle.nen_cut.specs.Floors.{escapes, nebs, sets_beside, stands};

use assertions::Assertion;

/// Five ballots are 0, four are 1,2 and three are 2,1. The winner is 1. The only NEB of margin 1 leaves two sets standing: that of 0, and
/// that of 0 and 1. The step of 1 from the set of 0 can be cut, and leaves the empty set and the set of 0. The step of 2 to the set of all
/// can't be cut.
pub fn three_candidates()
    ensures nebs { nebs 3 contests.three_candidates 1 ≡ Assertion.Neb 1 2 ∷ [] }
    ensures sets { sets_beside 3 contests.three_candidates 1 1 ≡ 2 }
    ensures stands { stands 3 1 contests.three_candidates 1 0 2 ≡ false }
    ensures steps { cut_steps 3 1 contests.three_candidates 1 (0 ∷ 1 ∷ []) ≡ (1, 1) ∷ [] }
    ensures escapes { escapes 3 1 contests.three_candidates 1 3 2 ≡ true }
{}

/// Eight ballots of four candidates. The only NEB of margin 1 leaves eight sets standing.
pub fn four_candidates()
    ensures nebs { nebs 4 eight_ballots 1 ≡ Assertion.Neb 2 3 ∷ [] }
    ensures sets { sets_beside 4 eight_ballots 2 1 ≡ 8 }
{}
