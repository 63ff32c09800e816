// The sets that a search may go into next. The one with the smallest margin comes first.
ghost use Rattle.std.specs.Prelude.{◌≡◌, ◌≤◌, ◌<◌, ◌+◌, ◌^◌, ◌∷◌, ℕ, false, All, List, IfNone, IfSome, OnOk, OnSome, IsPermutation};
ghost use Rattle.std.proofs.Common.{refl};
ghost use Rattle.std.specs.Cmp.{eq_by_cmp_equiv, partial_equiv_from_equiv, partial_order_from_agreeing_total};
ghost use Rattle.std.specs.Ordering.{as_partial_cmp, eq_by_cmp};
ghost use Rattle.std.specs.BinaryHeap.{heap_items, heap_len, IsHeap};
ghost use Rattle.irv_base.specs.Candidates.{has};
ghost use Rattle.set_tallies.specs.Bags.{IsOf};
ghost use Rattle.set_search.specs.Waits.{least_first, AreAdded, AreBelow};
ghost use Rattle.set_search.specs.Compared.{least_total};
ghost use Rattle.set_search.specs.declared.waiting.Waiting.{Waiting as WaitingSet};

use crate::steps::step_of;
use irv_base::{CandSet, Candidate, Memory};
use set_tallies::Tallies;
use std::cmp::Ordering;
use std::collections::BinaryHeap;

/// A set that a search may go into next, with the low at which it is reached, in votes, and its number of candidates.
#[derive(Clone, Copy)]
pub(crate) struct Waiting {
    pub margin: u32,
    pub set: CandSet,
    pub size: u32,
}

// The smallest margin compares as the greatest, so that it leaves a heap first. Of equal margins the larger set does, since it is nearer to
// one that has all candidates.
impl PartialEq for Waiting {
    ghost eq = { eq_by_cmp least_first };

    ghost laws = { partial_equiv_from_equiv (eq_by_cmp_equiv least_total) };

    fn eq(&self, other: &Waiting) -> bool {
        self.cmp(other) == Ordering::Equal
    }
}

impl Eq for Waiting {
    ghost laws = { eq_by_cmp_equiv least_total };
}

impl Ord for Waiting {
    ghost cmp = { least_first };

    ghost total = { least_total };

    ghost matches_partial_cmp = { λ x y. refl };

    ghost matches_eq = { λ x y. refl };

    fn cmp(&self, other: &Waiting) -> Ordering {
        other
            .margin
            .cmp(&self.margin)
            .then(self.size.cmp(&other.size))
    }
}

impl PartialOrd for Waiting {
    ghost partial_cmp = { as_partial_cmp least_first };

    ghost laws = { partial_order_from_agreeing_total least_first least_total
        (λ x y. refl) (λ x y. refl) };

    fn partial_cmp(&self, other: &Waiting) -> Option<Ordering> {
        Some(self.cmp(other))
    }
}

/// Takes the waiting set with the smallest margin. The others stay.
pub(crate) fn take_least(waiting: &mut BinaryHeap<Waiting>) -> Option<Waiting>
    requires heap { IsHeap least_first (heap_items waiting.old) }
    ensures heap { IsHeap least_first (heap_items waiting.new) }
    ensures rest { IfSome result (λ x. IsPermutation (heap_items waiting.old)
        (x ∷ heap_items waiting.new)) }
    ensures least { IfSome result (λ x. All (λ (y : WaitingSet). x.margin ≤ y.margin)
        (heap_items waiting.new)) }
    ensures fewer { OnSome result (heap_len waiting.new + 1 ≡ heap_len waiting.old) }
    ensures none { IfNone result (heap_len waiting.old ≡ 0) }
{
    waiting.pop()
}

/// Opens the sets that this set leads to by one more candidate, of those who aren't in `closed`. This set was reached with the low `low`.
pub(crate) fn put_next(
    waiting: &mut BinaryHeap<Waiting>,
    tallies: &mut Tallies<'_>,
    set: CandSet,
    closed: CandSet,
    low: u32,
) -> Result<(), Memory>
    requires below { set < 2 ^ tallies.old.bag.n }
    requires inside { (c : ℕ) → has closed c ≡ false → has set c ≡ false }
    requires heap { IsHeap least_first (heap_items waiting.old) }
    requires all_below { AreBelow tallies.old.bag.n (heap_items waiting.old) }
    ensures heap { OnOk result (IsHeap least_first (heap_items waiting.new)) }
    ensures all_below { OnOk result (AreBelow tallies.old.bag.n (heap_items waiting.new)) }
    ensures added { (records : List (List ℕ)) → IsOf tallies.old.bag records
        → OnOk result (AreAdded tallies.old.bag.n records low set closed
        (heap_items waiting.old) (heap_items waiting.new)) }
    ensures few { OnOk result (heap_len waiting.new ≤ heap_len waiting.old + tallies.old.bag.n) }
    ensures same { tallies.new ≡ tallies.old }
{
    let size = set.len() + 1;
    for c in 0..tallies.candidates() {
        let c = Candidate(c as u8);
        if !closed.has(c) {
            let step = step_of(tallies, set, c)?;
            waiting.push(Waiting {
                margin: step.low.max(low),
                set: set.with(c),
                size,
            })?;
        }
    }
    Ok(())
}
