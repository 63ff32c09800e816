// What a race starts from: the pieces, and the tabulated order with its last two candidates exchanged.
ghost use Rattle.std.specs.Prelude.{◌≡◌, ◌≤◌, IfOk, IsTrue, length};
ghost use Rattle.irv_base.specs.declared.limits.TheConstants.{FEWEST_CANDIDATES, ROOM};
ghost use Rattle.irv_base.specs.Orders.{is_order, Elects};
ghost use Rattle.assertions.specs.Hardness.{start_order};
ghost use Rattle.bound_search.specs.Raced.{IsStart};
ghost use Rattle.bound_search.specs.Reached.{IsReached};
ghost use Rattle.bound_search.specs.declared.limits.TheConstants.{MOST_PIECES};

use crate::ends::Best;
use crate::pieces::tails_of;
use irv_base::{Memory, Order};
use irv_tabulator::Tabulated;
use set_tallies::{Counted, Tallies};
use std::alloc::Global;
use suffix_tree::{Tail, score};

/// What a race starts from.
#[derive(Drop)]
pub(crate) struct Start {
    /// An order that elects a candidate other than the winner.
    pub first: Best,
    /// The pieces in the order of their numbers, each given by the suffix in which its orders end.
    pub tails: Vec<Tail>,
}

// The order with its last two candidates exchanged.
fn start_tail(n: u32, order: &Order) -> Tail
    requires two { FEWEST_CANDIDATES ≤ n }
    requires room { n ≤ ROOM }
    requires order { IsTrue (is_order n order.now) }
    ensures number { result.n ≡ n }
    ensures list { result.list ≡ start_order order.now }
{
    let list = order.candidates();
    let mut at = n as usize - 2;
    let mut tail = Tail::last(n, list[at]).front(list[at + 1]);
    while at > 0 {
        at -= 1;
        tail = tail.front(list[at]);
    }
    tail
}

/// Returns the order from which a race starts, with its hardness.
pub fn first_order(tab: &Tabulated, tallies: &mut Tallies) -> Result<Best, Memory>
    requires order { IsTrue (is_order tallies.old.bag.n tab.now.order) }
    requires winner { Elects tab.now.order tab.now.winner }
    ensures order { IfOk result (λ best. best.order ≡ start_order tab.now.order) }
    ensures reached { IfOk result (IsReached tallies.old.bag tab.now.winner) }
    ensures same { tallies.new ≡ tallies.old }
{
    let tail = start_tail(tallies.candidates(), &tab.order);
    let scored = score(&tail, tallies)?;
    match scored.tail.whole() {
        Some(order) => Ok(Best {
            order,
            margin: scored.low,
        }),
        None => unreachable!(),
    }
}

/// What the race over these records starts from.
pub(crate) fn start_of(alloc: Global, counted: &Counted, tab: &Tabulated) -> Result<Start, Memory>
    requires order { IsTrue (is_order counted.now.bag.n tab.now.order) }
    requires winner { Elects tab.now.order tab.now.winner }
    ensures start { IfOk result (IsStart counted.now.bag tab.now) }
    ensures few { IfOk result (λ start. length start.tails.items ≤ MOST_PIECES) }
{
    let mut tallies = counted.tallies()?;
    let first = first_order(tab, &mut tallies)?;
    let tails = tails_of(alloc, tallies.candidates(), tab.winner)?;
    Ok(Start { first, tails })
}
