// The records of a contest, counted.
ghost use Rattle.std.specs.Prelude.{◌≡◌, ◌<◌, ◌≤◌, length, All, IfOk, IfSome};
ghost use Rattle.irv_base.specs.declared.limits.TheConstants.{FEWEST_CANDIDATES, ROOM, MOST_RECORDS};
ghost use Rattle.set_tallies.specs.Bags.{IsOf};

use crate::ahead::Ahead;
use crate::bag::Bag;
use crate::counting::Counting;
use crate::tallies::Tallies;
use irv_base::{Memory, Rankings};
use std::alloc::Global;
use std::marker::Model;
use std::thread::Threads;

/// The records of a contest, counted: their bag, and the two numbers of NEB's margin over them.
///
/// In a contract, it is these two.
#[derive(Drop)]
pub struct Counted {
    alloc: Global,
    bag: Bag,
    ahead: Ahead,
}

impl Model for Counted {
    ghost use Rattle.set_tallies.specs.Bags.{Source, AreFilledFrom};

    ghost Value = { Source };

    ghost view = { λ c. record { bag = c.bag; counts = c.ahead } };

    ghost invariant = { λ c. AreFilledFrom c.bag c.ahead };
}

impl Counted {
    /// Counts the records of a contest with `n` candidates, with at most this many workers.
    pub fn of<R: AllocGlobal + Threads + Sync>(
        rt: &R,
        n: u32,
        rankings: &Rankings,
        workers: u32,
    ) -> Result<Counted, Memory>
        requires fewest { FEWEST_CANDIDATES ≤ n }
        requires room { n ≤ ROOM }
        requires most { length rankings.now ≤ MOST_RECORDS }
        requires below { All (λ ranking. All (λ c. c < n) ranking) rankings.now }
        requires workers { 1 ≤ workers }
        ensures candidates { IfOk result (λ counted. counted.bag.n ≡ n) }
        ensures records { IfOk result (λ counted. IsOf counted.bag rankings.now) }
    {
        let alloc = rt.alloc();
        let bag = Bag::of(rt, n, rankings, workers)?;
        let ahead = Ahead::fill(alloc, &bag)?;
        Ok(Counted { alloc, bag, ahead })
    }

    /// Takes the records that were counted as they came.
    pub fn of_counting(alloc: Global, counting: &Counting) -> Result<Counted, Memory>
        requires { FEWEST_CANDIDATES ≤ counting.now.n }
        ensures candidates { IfOk result (λ counted. counted.bag.n ≡ counting.now.n) }
        ensures records { IfOk result (λ counted. IsOf counted.bag counting.now.rankings) }
    {
        let bag = Bag::of_counting(alloc, counting)?;
        let ahead = Ahead::fill(alloc, &bag)?;
        Ok(Counted { alloc, bag, ahead })
    }

    /// The tallies of sets of candidates over the records. Once as many rows have been counted as are worth counting before the
    /// sums over all sets are made, the sums are made, for these tallies only.
    pub fn tallies(&self) -> Result<Tallies<'_>, Memory>
        ensures bag { IfOk result (λ tallies. tallies.bag ≡ self.now.bag) }
        ensures counts { IfOk result (λ tallies. tallies.counts ≡ self.now.counts) }
    {
        Tallies::new(self.alloc, &self.bag, &self.ahead, true)
    }

    /// The tallies for one of several workers. Once it has counted as many rows as pay before the sums over all sets are made, it
    /// ends as if memory had run out. The caller then has the workers begin again with what `summed` returns, and the sums are made
    /// once for all of them.
    pub fn tallies_for_worker(&self) -> Result<Tallies<'_>, Memory>
        ensures bag { IfOk result (λ tallies. tallies.bag ≡ self.now.bag) }
        ensures counts { IfOk result (λ tallies. tallies.counts ≡ self.now.counts) }
    {
        Tallies::new(self.alloc, &self.bag, &self.ahead, false)
    }

    /// Returns the same records with the sums over all sets, if they have no sums yet and there are few enough candidates for them.
    pub fn summed(&self) -> Result<Option<Counted>, Memory>
        ensures { IfOk result (λ summed. IfSome summed (λ counted. counted.bag ≡ self.now.bag)) }
    {
        let Some(bag) = self.bag.summed(self.alloc)? else {
            return Ok(None);
        };
        let ahead = Ahead::fill(self.alloc, &bag)?;
        Ok(Some(Counted {
            alloc: self.alloc,
            bag,
            ahead,
        }))
    }
}
