// The claims that the steps from sets below the best margin give.
ghost use Rattle.std.specs.Prelude.{◌≡◌, ◌<◌, ◌≤◌, ◌^◌, ◌↔◌, ℕ, false, All, List, Contains, IfOk, OnOk};
ghost use Rattle.irv_base.specs.Candidates.{has};
ghost use Rattle.assertions.specs.Certificate.{certificate_claims};
ghost use Rattle.set_tallies.specs.Bags.{IsOf};
ghost use Rattle.set_walk.specs.Walks.{standing};
ghost use Rattle.set_search.specs.Sets.{best_of};
ghost use Rattle.set_search.specs.Limits.{within};
ghost use Rattle.set_search.specs.Given.{with_step, with_steps, AreCover};
ghost use Rattle.set_search.specs.declared.by_margin.Limit.TheVariants.{Below};

use crate::steps::step_of;
use assertions::{Assertion, Claim};
use certifier::listed;
use irv_base::{CandSet, Candidate, Memory};
use set_tallies::Tallies;
use std::alloc::Global;
use std::collections::BTreeMap;
use suffix_tree::Score;

// Puts the assertion of a step among the claims, if the step is at least the margin.
fn put_step(claims: &mut BTreeMap<Assertion, u32>, step: Score, margin: u32) -> Result<(), Memory>
    ensures { OnOk result (claims.new.entries
        ≡ with_step ⟦<Assertion as Ord>⟧.cmp margin claims.old.entries step) }
{
    let low = step.low;
    let by = step.by;
    if low >= margin {
        if let Some(by) = by {
            claims.insert(by, low)?;
        }
    }
    Ok(())
}

// Puts among the claims the assertions of the steps from this set that are at least the margin, by candidates who aren't in `closed`.
fn put_steps(
    claims: &mut BTreeMap<Assertion, u32>,
    tallies: &mut Tallies<'_>,
    set: CandSet,
    closed: CandSet,
    margin: u32,
) -> Result<(), Memory>
    requires below { set < 2 ^ tallies.old.bag.n }
    requires inside { (c : ℕ) → has closed c ≡ false → has set c ≡ false }
    ensures put { (records : List (List ℕ)) → IsOf tallies.old.bag records
        → OnOk result (claims.new.entries
        ≡ with_steps ⟦<Assertion as Ord>⟧.cmp tallies.old.bag.n records margin claims.old.entries
        set closed) }
    ensures same { tallies.new ≡ tallies.old }
{
    for c in 0..tallies.candidates() {
        let c = Candidate(c as u8);
        if !closed.has(c) {
            let step = step_of(tallies, set, c)?;
            put_step(claims, step, margin)?;
        }
    }
    Ok(())
}

/// The claims of the certificate, in the fixed order. `margin` is the best margin, above 0, and these are the sets that are reached below
/// it.
pub(crate) fn claims_of(
    alloc: Global,
    tallies: &mut Tallies<'_>,
    winner: Candidate,
    sets: &[CandSet],
    margin: u32,
) -> Result<Vec<Claim>, Memory>
    requires several { 1 < tallies.old.bag.n }
    requires winner { winner < tallies.old.bag.n }
    requires below { All (λ set. set < 2 ^ tallies.old.bag.n) sets.now }
    ensures claims { (records : List (List ℕ)) → IsOf tallies.old.bag records
        → margin ≡ best_of tallies.old.bag.n records winner
        → AreCover tallies.old.bag.n records winner margin sets.now
        → IfOk result (λ list. list.items ≡ certificate_claims tallies.old.bag.n records winner) }
    ensures same { tallies.new ≡ tallies.old }
{
    let nobody = CandSet::empty();
    let mut claims = BTreeMap::new(alloc);
    put_steps(&mut claims, tallies, nobody, nobody.with(winner), margin)?;
    for set in sets {
        put_steps(&mut claims, tallies, *set, *set, margin)?;
    }
    listed(alloc, &claims)
}
