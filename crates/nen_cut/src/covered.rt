// Whether the true assertions of a margin cover.
ghost use Rattle.std.specs.Prelude.{◌≡◌, ◌≤◌, ℕ, List, IfOk};
ghost use Rattle.irv_base.specs.declared.limits.TheConstants.{ROOM};
ghost use Rattle.set_tallies.specs.Bags.{IsOf};
ghost use Rattle.nen_cut.specs.Floors.{IsCoveredBy};

use crate::by_tallies::ByTallies;
use irv_base::{CandSet, Candidate, Memory};
use set_walk::{Goes, WalkEnd, walk_within};
use std::alloc::Global;

impl<'b> Goes for ByTallies<'b> {
    ghost use Rattle.std.specs.Prelude.{◌≡◌, ℕ, List};
    ghost use Rattle.set_tallies.specs.Bags.{IsOf};
    ghost use Rattle.nen_cut.specs.Floors.{escapes};

    ghost size = { λ s. s.tallies.bag.n };

    ghost is_by = { λ s may. (records : List (List ℕ)) × IsOf s.tallies.bag records
        × (may ≡ escapes s.tallies.bag.n s.winner records s.least) };

    fn goes(&mut self, set: CandSet, c: Candidate) -> Result<bool, Memory> {
        if !self.stands(set, c) {
            return Ok(false);
        }
        Ok(self.cutter(set, c)?.is_none())
    }
}

/// Whether a true assertion of at least the margin refutes each order that elects a candidate other than the winner. More than `u32::MAX`
/// sets give the error for lack of memory.
pub(crate) fn is_covered(alloc: Global, steps: &mut ByTallies<'_>, n: u32) -> Result<bool, Memory>
    requires size { n ≡ steps.old.tallies.bag.n }
    requires some { 1 ≤ n }
    requires room { n ≤ ROOM }
    ensures same { steps.new ≡ steps.old }
    ensures covered { (records : List (List ℕ)) → IsOf steps.old.tallies.bag records
        → IfOk result (IsCoveredBy n steps.old.winner records steps.old.least) }
{
    let winner = steps.winner;
    match walk_within(alloc, steps, n, winner, u32::MAX) {
        Ok(end) => match end {
            WalkEnd::Ended(_seen) => Ok(true),
            WalkEnd::Found(_order) => Ok(false),
        },
        Err(_fault) => Err(Memory),
    }
}
