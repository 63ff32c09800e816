//! Worked examples: the definitions applied to a few cards, computed by the checker.
ghost use Rattle.std.specs.Prelude.{◌≡◌, [], ◌∷◌, sum, sum_by, pos};
ghost use Rattle.assertions.specs.Assorter.{assorter_value};
ghost use Rattle.assertions.specs.declared.assertion.Assertion.TheVariants.{Neb};
ghost use Rattle.manifest.specs.declared.recorded.Recorded.TheVariants.{Ranked, Without};
ghost use Rattle.assorters.specs.Cards.{discrepancy, discrepancies, margin_over, seen_value};
ghost use Rattle.assorters.specs.Examples as examples;

use crate::Seen;

/// NEB(1,2) at cards that are missing, have no record, agree with their record, or were recorded the other way round.
pub fn not_eliminated_before()
    ensures missing { discrepancy (assorter_value (Neb 1 2)) (Ranked (1 ∷ 2 ∷ [])) Seen.Missing
        ≡ 0 }
    ensures without { discrepancy (assorter_value (Neb 1 2)) Without Seen.Missing ≡ 1 }
    ensures alike { discrepancy (assorter_value (Neb 1 2)) (Ranked (1 ∷ 2 ∷ []))
        (Seen.Found (1 ∷ 2 ∷ [])) ≡ 2 }
    ensures reversed { discrepancy (assorter_value (Neb 1 2)) (Ranked (2 ∷ 1 ∷ []))
        (Seen.Found (1 ∷ 2 ∷ [])) ≡ 4 }
{}

/// Three cards, the last of which has no record and is missing. The first two are recorded alike, and the second is seen the other way
/// round. The discrepancies add up to 3 of 4, and the seen values to 2 of 3.
pub fn one_overstated()
    ensures margin { margin_over examples.lead examples.three_records ≡ pos 2 }
    ensures each { discrepancies examples.lead examples.three_records examples.one_other
        ≡ 2 ∷ 0 ∷ 1 ∷ [] }
    ensures seen { sum_by (seen_value examples.lead) examples.one_other ≡ 2 }
{}

/// The same cards, where the second is seen as recorded. The discrepancies add up to more than 4, and the seen values to more than 3.
pub fn as_recorded()
    ensures all { sum (discrepancies examples.lead examples.three_records examples.both_alike) ≡ 5 }
    ensures seen { sum_by (seen_value examples.lead) examples.both_alike ≡ 4 }
{}
