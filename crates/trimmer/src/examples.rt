//! Worked examples: what is left of three claims, computed by the checker.
ghost use Rattle.std.specs.Prelude.{◌≡◌, [], ◌∷◌, Ok, Err, None, Some, take};
ghost use Rattle.assertion_file.specs.Examples as files;
ghost use Rattle.trimmer.specs.Examples as own;
ghost use Rattle.trimmer.specs.Trimmed.{trimmed};

use crate::TrimFault;
use budget::Budget;

/// NEN(2,0,{0,2}) can be removed, since NEB(1,2) refutes everything that it refutes. The other two are needed: 2,1,0 stands with only the
/// NEB, and 1,0,2 stands with only the NEN. To see that, two suffixes count for a candidate, and two sets count in total.
pub fn three_candidates()
    ensures trimmed { trimmed (Budget.Nodes 2) files.three_candidates
        ≡ Ok (record files.three_candidates { claims = take 2 files.three_candidates.claims }) }
    ensures spent { trimmed (Budget.Nodes 1) files.three_candidates ≡ Err (TrimFault.Spent 2 0) }
    ensures by_sets { trimmed (Budget.Sets 2) files.three_candidates
        ≡ Ok (record files.three_candidates { claims = take 2 files.three_candidates.claims }) }
    ensures short { trimmed (Budget.Sets 1) files.three_candidates ≡ Err (TrimFault.SpentSets 2 1) }
{}

/// The one claim of two candidates is needed.
pub fn two_candidates()
    ensures { trimmed (Budget.Nodes 1) files.two_candidates ≡ Ok files.two_candidates }
{}

/// The claims that are left keep their draws.
pub fn planned()
    ensures { trimmed (Budget.Nodes 2) (own.planning (None ∷ Some 30 ∷ Some 31 ∷ []))
        ≡ Ok (record (own.planning (None ∷ Some 30 ∷ []))
        { claims = take 2 files.three_candidates.claims }) }
{}

/// A file without an order has the smallest margin of the claims that are left.
pub fn covered()
    ensures three_candidates { trimmed (Budget.Nodes 2) files.covered
        ≡ Ok (record files.covered { claims = take 2 files.covered.claims }) }
    ensures larger { trimmed (Budget.Nodes 1) (own.twice 1)
        ≡ Ok (record (own.twice 2) { claims = take 1 (own.twice 2).claims }) }
{}
