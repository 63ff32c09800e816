// The test of steps by their margins.
ghost use Rattle.std.specs.Prelude.{◌≡◌};
ghost use Rattle.set_search.specs.Limits.{lets};

use crate::steps::step_of;
use irv_base::{CandSet, Candidate, Memory};
use set_tallies::Tallies;
use set_walk::Goes;

/// How far a walk goes.
#[derive(Clone, Copy)]
pub(crate) enum Limit {
    /// The walk goes by steps below the margin.
    Below(u32),
    /// The walk goes by steps that are at most the margin.
    AtMost(u32),
}

impl Limit {
    fn lets(self, margin: u32) -> bool
        ensures { result ≡ lets self margin }
    {
        match self {
            Limit::Below(limit) => margin < limit,
            Limit::AtMost(limit) => margin <= limit,
        }
    }
}

/// The test of steps by their margins over the records of the tallies.
#[derive(Drop)]
pub(crate) struct ByMargin<'b> {
    pub tallies: Tallies<'b>,
    pub limit: Limit,
}

impl<'b> Goes for ByMargin<'b> {
    ghost use Rattle.std.specs.Prelude.{◌≡◌, ℕ, List};
    ghost use Rattle.set_tallies.specs.Bags.{IsOf};
    ghost use Rattle.set_search.specs.Limits.{within};

    ghost size = { λ t. t.tallies.bag.n };

    ghost is_by = { λ t may. (records : List (List ℕ)) × IsOf t.tallies.bag records
        × (may ≡ within t.limit t.tallies.bag.n records) };

    fn goes(&mut self, set: CandSet, c: Candidate) -> Result<bool, Memory> {
        let step = step_of(&mut self.tallies, set, c)?;
        Ok(self.limit.lets(step.low))
    }
}
