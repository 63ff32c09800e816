// The NEBs of a margin.
ghost use Rattle.std.specs.Prelude.{◌≡◌, ◌<◌, ◌≤◌, ◌++◌, ℕ, List, map, IfOk, OnOk};
ghost use Rattle.irv_base.specs.declared.limits.TheConstants.{ROOM};
ghost use Rattle.assertions.specs.Certificate.{claim_of};
ghost use Rattle.set_tallies.specs.Bags.{AreOf};
ghost use Rattle.nen_cut.specs.Floors.{nebs, nebs_by};

use crate::barring::margin_of;
use assertions::{Assertion, Claim};
use irv_base::{Candidate, Memory};
use set_tallies::Ahead;
use std::alloc::Global;

// Appends the winner's true NEBs of at least this margin.
fn put_nebs(
    nebs: &mut Vec<Claim>,
    n: u32,
    ahead: &Ahead,
    w: Candidate,
    least: u32,
) -> Result<(), Memory>
    requires same { n ≡ ahead.now.n }
    requires room { n ≤ ROOM }
    requires below { w < n }
    ensures { (records : List (List ℕ)) → AreOf ahead.now records
        → OnOk result (nebs.new.items ≡ nebs.old.items ++ map (claim_of records) (nebs_by n records least w)) }
{
    for l in 0..n as u8 {
        let l = Candidate(l);
        if let Some(margin) = margin_of(ahead, w, l, least) {
            nebs.push(Claim {
                assertion: Assertion::Neb { w, l },
                margin,
            })?;
        }
    }
    Ok(())
}

/// All true NEBs of at least this margin, in the fixed order.
pub(crate) fn nebs_of(
    alloc: Global,
    n: u32,
    ahead: &Ahead,
    least: u32,
) -> Result<Vec<Claim>, Memory>
    requires same { n ≡ ahead.now.n }
    requires room { n ≤ ROOM }
    ensures { (records : List (List ℕ)) → AreOf ahead.now records
        → IfOk result (λ list. list.items ≡ map (claim_of records) (nebs n records least)) }
{
    let mut nebs = Vec::new(alloc);
    for w in 0..n as u8 {
        put_nebs(&mut nebs, n, ahead, Candidate(w), least)?;
    }
    Ok(nebs)
}
