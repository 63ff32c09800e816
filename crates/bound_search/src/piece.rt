// The search of one piece by one worker.
ghost use Rattle.std.specs.Prelude.{◌≡◌, ◌<◌, IfOk, false};
ghost use Rattle.bound_search.specs.Reached.{HoldsPiece, IsPieceSearched};

use crate::ends::Best;
use crate::front::Front;
use crate::turn::Turn;
use irv_base::{Memory, Steps};
use set_tallies::Tallies;
use shared_witness::{Race, RaceSeat};
use std::alloc::Global;
use std::sync::ledger::{Blank, Ledger};
use suffix_tree::{Tail, score};

/// The result of searching a piece.
#[derive(Drop)]
pub struct Searched {
    /// The last order found. Each order found is less hard than any before.
    pub found: Option<Best>,
    /// The number of suffixes expanded.
    pub expanded: u32,
    /// The number of times the worker looked at the bound.
    pub looks: u64,
    /// Whether the piece was closed, as opposed to the budget being spent.
    pub closed: bool,
}

impl Searched {
    /// The result for a piece that is skipped.
    pub(crate) fn skipped() -> Searched
        ensures found { result.found ≡ None }
        ensures expanded { result.expanded ≡ 0 }
        ensures looks { result.looks ≡ 0 }
        ensures closed { result.closed ≡ false }
    {
        Searched {
            found: None,
            expanded: 0,
            looks: 0,
            closed: false,
        }
    }
}

/// Searches a piece that the seat took, turn by turn, each turn under the bound at that time, and posts each order found.
pub(crate) fn search<L: Ledger>(
    alloc: Global,
    blank: Blank,
    race: &Race,
    seat: &mut RaceSeat,
    piece: u32,
    tail: &Tail,
    nodes: u32,
    tallies: &mut Tallies,
) -> Result<Searched, Memory>
    requires name { blank.name ≡ L.name }
    requires parts { blank.parts ≡ L.parts }
    requires some { 0 < blank.parts }
    requires contest { tail.now.n ≡ tallies.old.bag.n }
    requires holds { HoldsPiece race.now seat.old piece }
    ensures race { seat.new.race ≡ race.now.id }
    ensures searched { IfOk result (IsPieceSearched tallies.old.bag race.now.terms.first nodes
        piece tail.now.list false seat.old.view seat.new.view) }
    ensures same { tallies.new ≡ tallies.old }
{
    let mut steps = Steps::<L>::new(blank);
    let mut front = Front::new(alloc, score(tail, tallies)?)?;
    let mut found: Option<Best> = None;
    let mut looks = 0u64;
    'turns: loop {
        let bound = race.look(seat);
        looks += 1;
        let left = nodes - front.expanded();
        match front.turn(alloc, bound, left, tallies, &mut steps)? {
            Turn::Closed => {
                race.close_piece(seat, piece);
                return Ok(Searched {
                    found,
                    expanded: front.expanded(),
                    looks: looks + 1,
                    closed: true,
                });
            }
            Turn::Found { order, margin } => {
                race.post(seat, margin);
                found = Some(Best { order, margin });
            }
            Turn::More => {}
            Turn::Spent => {
                return Ok(Searched {
                    found,
                    expanded: front.expanded(),
                    looks,
                    closed: false,
                });
            }
        }
    }
}
