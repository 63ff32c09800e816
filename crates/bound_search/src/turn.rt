// Turns of a front.
ghost use Rattle.std.specs.Prelude.{◌≡◌, ◌+◌, ◌^◌, ◌<◌, ◌≤◌, IfOk, OnOk, OnErr, length, ◌==◌, true};
ghost use Rattle.bound_search.specs.Fronts.{IsFront, Grows, IsTurn};
ghost use Rattle.bound_search.specs.Sifted.{IsLook, IsExpanded};
ghost use Rattle.bound_search.specs.declared.limits.TheConstants.{MOST_EXPANDED};
ghost use Rattle.bound_search.specs.declared.front.Look.TheVariants.{Part};
ghost use Rattle.bound_search.specs.declared.turn.Turn.TheVariants.{Found};

use crate::MOST_EXPANDED;
use crate::front::{Front, Look};
use irv_base::{Memory, Order, Steps};
use set_tallies::Tallies;
use std::alloc::Global;
use std::sync::ledger::Ledger;
use suffix_tree::{Scored, expand_below};

/// How a turn ends.
#[derive(Clone, Copy)]
pub enum Turn {
    /// No open suffix is below the bound.
    Closed,
    /// An order of the piece was found below the bound. `margin` is its hardness, in votes.
    Found { order: Order, margin: u32 },
    /// The turn expanded as many suffixes as one turn does, and an open suffix below the bound is left.
    More,
    /// The turn expanded as many suffixes as it was allowed, and an open suffix below the bound is left.
    Spent,
}

// The result for a whole order.
fn found(order: &Scored) -> Turn
    requires { (length order.now.tail.list == order.now.tail.n) ≡ true }
    ensures { result ≡ Found order.now.tail.list order.now.low }
{
    match order.tail.whole() {
        Some(list) => Turn::Found {
            order: list,
            margin: order.low,
        },
        None => unreachable!(),
    }
}

impl Front {
    // Expands the first suffix, which isn't a whole order. This is one step.
    fn expand_first<L: Ledger>(
        &mut self,
        alloc: Global,
        tallies: &mut Tallies,
        steps: &mut Steps<L>,
    ) -> Result<Option<Scored>, Memory>
        requires front { IsFront tallies.old.bag self.old }
        requires part { IsLook self.old Part }
        requires room { self.old.expanded + 1 < 2 ^ 32 }
        ensures expanded { IfOk result (IsExpanded tallies.old.bag self.old self.new) }
        ensures err { OnErr result (self.new ≡ self.old) }
        ensures step { steps.new ≡ steps.old + 1 }
        ensures same { tallies.new ≡ tallies.old }
    {
        let children = expand_below(alloc, self.first(), self.bound(), tallies, steps)?;
        self.put(alloc, children)
    }

    /// Expands open suffixes that are below the bound, at most `MOST_EXPANDED` and at most `left`, until an order below the bound
    /// is found or no suffix below the bound is left. Each expansion is one step.
    ///
    /// The bound is at most that of the turn before. The only error is lack of memory, after which the front covers the same
    /// orders.
    pub fn turn<L: Ledger>(
        &mut self,
        alloc: Global,
        bound: u32,
        left: u32,
        tallies: &mut Tallies,
        steps: &mut Steps<L>,
    ) -> Result<Turn, Memory>
        requires front { IsFront tallies.old.bag self.old }
        requires falls { bound ≤ self.old.bound }
        requires room { self.old.expanded + left < 2 ^ 32 }
        ensures front { IsFront tallies.old.bag self.new }
        ensures piece { self.new.piece ≡ self.old.piece }
        ensures bound { self.new.bound ≡ bound }
        ensures grows { Grows tallies.old.bag bound self.old self.new }
        ensures most { self.new.expanded ≤ self.old.expanded + MOST_EXPANDED }
        ensures within { self.new.expanded ≤ self.old.expanded + left }
        ensures counted { OnOk result (steps.new + self.old.expanded
            ≡ steps.old + self.new.expanded) }
        ensures few_steps { (steps.new ≤ steps.old + MOST_EXPANDED)
            × (steps.new ≤ steps.old + left) }
        ensures turn { IfOk result (IsTurn tallies.old.bag left self.old self.new) }
        ensures refused { OnErr result (self.new.least ≡ self.old.least) }
        ensures same { tallies.new ≡ tallies.old }
    {
        self.lower(bound);
        let mut taken = 0u32;
        loop {
            match self.look() {
                Look::NoneLeft => return Ok(Turn::Closed),
                Look::Whole => {
                    let order = self.take_whole();
                    return Ok(found(&order));
                }
                Look::Part => {
                    if taken == MOST_EXPANDED {
                        return Ok(Turn::More);
                    }
                    if taken == left {
                        return Ok(Turn::Spent);
                    }
                    taken += 1;
                    if let Some(order) = self.expand_first(alloc, tallies, steps)? {
                        return Ok(found(&order));
                    }
                }
            }
        }
    }
}
