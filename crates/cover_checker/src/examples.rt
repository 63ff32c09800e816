//! Worked examples: the answers at three candidates, computed by the checker.
ghost use Rattle.std.specs.Prelude.{◌≡◌, [], ◌∷◌, Ok, Err, None, Some, drop};
ghost use Rattle.assertions.specs.Contests as contests;
ghost use Rattle.assertion_file.specs.Examples as files;
ghost use Rattle.cover_checker.specs.Covers.{covered_is};
ghost use Rattle.cover_checker.specs.Examples as own;
ghost use Rattle.cover_checker.specs.Checks.{checked_is};

use crate::{Checked, CoverFault, Verdict};
use assertions::Assertion;
use budget::Budget;

/// NEB(1,2), NEN(1,0,{0,1}) and NEN(2,0,{0,2}) prove the winner 1. Only the suffix 0 and its set count.
pub fn three_candidates()
    ensures covered { covered_is 3 1
        (Assertion.Neb 1 2 ∷ Assertion.Nen 1 0 3 ∷ Assertion.Nen 2 0 5 ∷ []) (Budget.Nodes 1)
        ≡ Ok Verdict.Covered }
    ensures spent { covered_is 3 1
        (Assertion.Neb 1 2 ∷ Assertion.Nen 1 0 3 ∷ Assertion.Nen 2 0 5 ∷ []) (Budget.Nodes 0)
        ≡ Err (CoverFault.Spent 0) }
    ensures within { covered_is 3 1
        (Assertion.Neb 1 2 ∷ Assertion.Nen 1 0 3 ∷ Assertion.Nen 2 0 5 ∷ []) (Budget.Sets 1)
        ≡ Ok Verdict.Covered }
    ensures short { covered_is 3 1
        (Assertion.Neb 1 2 ∷ Assertion.Nen 1 0 3 ∷ Assertion.Nen 2 0 5 ∷ []) (Budget.Sets 0)
        ≡ Err (CoverFault.SpentSets 0) }
{}

/// Without its NEB, the order 1,0,2 stands. The suffixes 2 and 0,2 count for its winner; with the suffix 0 there are three sets.
pub fn without_neb()
    ensures stands { covered_is 3 1 (Assertion.Nen 1 0 3 ∷ Assertion.Nen 2 0 5 ∷ []) (Budget.Nodes 2)
        ≡ Ok (Verdict.Stands (1 ∷ 0 ∷ 2 ∷ [])) }
    ensures spent { covered_is 3 1 (Assertion.Nen 1 0 3 ∷ Assertion.Nen 2 0 5 ∷ []) (Budget.Nodes 1)
        ≡ Err (CoverFault.Spent 2) }
    ensures within { covered_is 3 1 (Assertion.Nen 1 0 3 ∷ Assertion.Nen 2 0 5 ∷ []) (Budget.Sets 3)
        ≡ Ok (Verdict.Stands (1 ∷ 0 ∷ 2 ∷ [])) }
    ensures short { covered_is 3 1 (Assertion.Nen 1 0 3 ∷ Assertion.Nen 2 0 5 ∷ []) (Budget.Sets 2)
        ≡ Err (CoverFault.SpentSets 2) }
{}

/// If nothing is asserted, the order that is least when read backwards stands: 2,1,0.
pub fn nothing_asserted()
    ensures stands { covered_is 3 1 [] (Budget.Nodes 2) ≡ Ok (Verdict.Stands (2 ∷ 1 ∷ 0 ∷ [])) }
    ensures spent { covered_is 3 1 [] (Budget.Nodes 1) ≡ Err (CoverFault.Spent 0) }
{}

/// The certificate of three candidates is accepted within one node or one set. Without its NEB, the order 1,0,2 stands. The order 2,1,0
/// is refuted by more than the file's margin.
pub fn certificate()
    ensures accepted { checked_is (Budget.Nodes 1) contests.three_candidates files.three_candidates 1
        ≡ Ok Checked.Accepted }
    ensures by_sets { checked_is (Budget.Sets 1) contests.three_candidates files.three_candidates 1
        ≡ Ok Checked.Accepted }
    ensures without_neb { checked_is (Budget.Nodes 2) contests.three_candidates
        (record files.three_candidates { claims = drop 1 files.three_candidates.claims }) 1
        ≡ Ok (Checked.Stands (1 ∷ 0 ∷ 2 ∷ [])) }
    ensures other_order { checked_is (Budget.Nodes 1) contests.three_candidates
        (record files.three_candidates { order = Some (2 ∷ 1 ∷ 0 ∷ []) }) 1
        ≡ Ok (Checked.Harder (Assertion.Nen 1 0 3) 2) }
{}

/// The same claims are accepted without an order. Without their NEB, the same order stands. A file whose margin isn't their smallest isn't
/// accepted.
pub fn covered()
    ensures accepted { checked_is (Budget.Nodes 1) contests.three_candidates files.covered 1
        ≡ Ok Checked.Accepted }
    ensures without_neb { checked_is (Budget.Nodes 2) contests.three_candidates
        (record files.covered { claims = drop 1 files.covered.claims }) 1
        ≡ Ok (Checked.Stands (1 ∷ 0 ∷ 2 ∷ [])) }
    ensures other_margin { checked_is (Budget.Nodes 1) contests.three_candidates
        (record files.covered { margin = 2 }) 1
        ≡ Ok (Checked.NotLeast 1) }
{}

/// Five cards whose ballots are all for the first of two candidates take five clean draws. A file that plans four draws, or a full count,
/// isn't accepted.
pub fn planned()
    ensures accepted { checked_is (Budget.Nodes 1) own.five_ballots (own.planning (Some 5)) 0
        ≡ Ok Checked.Accepted }
    ensures too_few { checked_is (Budget.Nodes 1) own.five_ballots (own.planning (Some 4)) 0
        ≡ Ok (Checked.OtherDraws 1 (Some 5)) }
    ensures full_count { checked_is (Budget.Nodes 1) own.five_ballots (own.planning None) 0
        ≡ Ok (Checked.OtherDraws 1 (Some 5)) }
{}
