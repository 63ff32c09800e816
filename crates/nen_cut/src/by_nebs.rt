// The sets that the NEBs leave standing.
ghost use Rattle.std.specs.Prelude.{◌≡◌, ◌<◌, ◌≤◌, ℕ, List, IfOk};
ghost use Rattle.irv_base.specs.Candidates.{candidates, set_of};
ghost use Rattle.set_tallies.specs.Bags.{IsOf};
ghost use Rattle.nen_cut.specs.Budgets.{IsWithin};

use crate::all::all_of;
use crate::barring::is_barred;
use irv_base::{CandSet, Candidate, Memory};
use set_tallies::{Counted, Tallies};
use set_walk::{Goes, WalkEnd, WalkFault, walk_within};
use std::alloc::Global;

/// The test of steps by the NEBs of at least a margin, up to sets that lack a candidate.
#[derive(Drop)]
pub(crate) struct ByNebs<'t, 'b> {
    pub tallies: &'t Tallies<'b>,
    pub all: CandSet,
    pub least: u32,
}

impl<'t, 'b> Goes for ByNebs<'t, 'b> {
    ghost use Rattle.std.specs.Prelude.{◌≡◌, ℕ, List};
    ghost use Rattle.set_tallies.specs.Bags.{IsOf};
    ghost use Rattle.nen_cut.specs.Budgets.{passes_short};

    ghost size = { λ t. t.tallies.now.bag.n };

    ghost is_by = { λ t may. (records : List (List ℕ)) × IsOf t.tallies.now.bag records
        × (may ≡ passes_short t.tallies.now.bag.n records t.least t.all) };

    fn goes(&mut self, set: CandSet, c: Candidate) -> Result<bool, Memory> {
        let barred = is_barred(self.tallies.ahead(), set, c, self.least);
        Ok(!barred && set.with(c) != self.all)
    }
}

/// Whether the NEBs of at least the margin leave at most this many sets standing.
pub(crate) fn is_within(
    alloc: Global,
    tallies: &Tallies<'_>,
    winner: Candidate,
    all: CandSet,
    least: u32,
    sets: u32,
) -> Result<bool, Memory>
    requires winner { winner < tallies.now.bag.n }
    requires all { all ≡ set_of (candidates tallies.now.bag.n) }
    ensures { (records : List (List ℕ)) → IsOf tallies.now.bag records
        → IfOk result (IsWithin tallies.now.bag.n records winner least sets) }
{
    let n = tallies.candidates();
    let mut test = ByNebs {
        tallies,
        all,
        least,
    };
    match walk_within(alloc, &mut test, n, winner, sets) {
        Ok(end) => match end {
            WalkEnd::Ended(_seen) => Ok(true),
            // No order walks, since no step leads to the set of all.
            WalkEnd::Found(_order) => Ok(true),
        },
        Err(fault) => match fault {
            WalkFault::Spent => Ok(false),
            WalkFault::Memory => Err(Memory),
        },
    }
}

/// Whether the NEBs of at least the margin `least` leave at most `sets` sets standing.
pub fn stand_within(
    alloc: Global,
    counted: &Counted,
    winner: Candidate,
    least: u32,
    sets: u32,
) -> Result<bool, Memory>
    requires { winner < counted.now.bag.n }
    ensures { (records : List (List ℕ)) → IsOf counted.now.bag records
        → IfOk result (IsWithin counted.now.bag.n records winner least sets) }
{
    let tallies = counted.tallies()?;
    let all = all_of(tallies.candidates());
    is_within(alloc, &tallies, winner, all, least, sets)
}
