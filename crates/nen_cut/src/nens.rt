// The NENs of a cut.
ghost use Rattle.std.specs.Prelude.{◌≡◌, ◌<◌, ◌≤◌, ◌^◌, ◌++◌, ℕ, List, true, IfOk, OnOk};
ghost use Rattle.irv_base.specs.declared.limits.TheConstants.{ROOM};
ghost use Rattle.set_tallies.specs.Bags.{IsOf};
ghost use Rattle.set_walk.specs.Dives.{is_seen};
ghost use Rattle.set_flow.specs.Seen.{AreLinked};
ghost use Rattle.nen_cut.specs.Cut.{cut_steps, cut_steps_from, AreCutters, IsAcross};

use crate::by_tallies::ByTallies;
use crate::strongest::Strongest;
use assertions::{Assertion, Claim};
use irv_base::{CandSet, Candidate, Memory};
use set_flow::Seen;
use std::alloc::Global;

// The strongest NEN that refutes the step, if the step leaves the seen sets and a NEN of the margin can cut it.
fn nen_across(
    steps: &mut ByTallies<'_>,
    n: u32,
    seen: &Seen,
    set: CandSet,
    c: Candidate,
) -> Result<Option<Strongest>, Memory>
    requires size { n ≡ steps.old.tallies.bag.n }
    requires set { set < 2 ^ n }
    requires below { c < n }
    requires seen { is_seen seen.now.sets.keys set ≡ true }
    ensures same { steps.new ≡ steps.old }
    ensures across { (records : List (List ℕ)) → IsOf steps.old.tallies.bag records
        → IfOk result (IsAcross n steps.old.winner records steps.old.least (is_seen seen.now.sets.keys) set c) }
{
    if set.has(c) {
        return Ok(None);
    }
    if seen.has(set.with(c)) || !steps.stands(set, c) {
        return Ok(None);
    }
    steps.cutter(set, c)
}

// Appends the strongest NEN of each step that leaves the seen sets from this one and that a NEN of the margin can cut.
fn put_nens(
    nens: &mut Vec<Claim>,
    steps: &mut ByTallies<'_>,
    n: u32,
    seen: &Seen,
    set: CandSet,
) -> Result<(), Memory>
    requires size { n ≡ steps.old.tallies.bag.n }
    requires room { n ≤ ROOM }
    requires set { set < 2 ^ n }
    requires seen { is_seen seen.now.sets.keys set ≡ true }
    ensures same { steps.new ≡ steps.old }
    ensures nens { (records : List (List ℕ)) (before : List (ℕ × ℕ)) → IsOf steps.old.tallies.bag records
        → AreCutters n records steps.old.least before nens.old.items
        → OnOk result (AreCutters n records steps.old.least
        (before ++ cut_steps_from n steps.old.winner records steps.old.least (is_seen seen.now.sets.keys) set)
        nens.new.items) }
{
    for c in 0..n as u8 {
        let c = Candidate(c);
        if let Some(nen) = nen_across(steps, n, seen, set, c)? {
            let assertion = Assertion::Nen {
                w: c,
                l: nen.loser,
                rest: set.with(c),
            };
            nens.push(Claim {
                assertion,
                margin: nen.margin,
            })?;
        }
    }
    Ok(())
}

/// The strongest NEN of each step that leaves the seen sets and that a NEN of the margin can cut.
pub(crate) fn nens_of(
    alloc: Global,
    steps: &mut ByTallies<'_>,
    n: u32,
    seen: &Seen,
) -> Result<Vec<Claim>, Memory>
    requires size { n ≡ steps.old.tallies.bag.n }
    requires room { n ≤ ROOM }
    requires linked { AreLinked n seen.now.sets.keys seen.now.from.items seen.now.by.items }
    ensures same { steps.new ≡ steps.old }
    ensures nens { (records : List (List ℕ)) → IsOf steps.old.tallies.bag records
        → IfOk result (λ nens. AreCutters n records steps.old.least
        (cut_steps n steps.old.winner records steps.old.least seen.now.sets.keys) nens.items) }
{
    let mut nens = Vec::new(alloc);
    for place in 0..seen.len() {
        put_nens(&mut nens, steps, n, seen, seen.at(place))?;
    }
    Ok(nens)
}
