// The pieces of a race.
ghost use Rattle.std.specs.Prelude.{◌≡◌, ◌+◌, ◌<◌, ◌≤◌, ◌++◌, IfOk, OnOk, length, map};
ghost use Rattle.irv_base.specs.declared.limits.TheConstants.{ROOM};
ghost use Rattle.bound_search.specs.Race.{pieces, pieces_electing, piece_of};
ghost use Rattle.bound_search.specs.declared.limits.TheConstants.{MOST_PIECES};

use irv_base::{Candidate, Memory};
use std::alloc::Global;
use suffix_tree::Tail;

/// Returns the pieces of a race in the order of their numbers, each given by the suffix of two candidates in which its orders end.
/// The last of these candidates isn't the winner.
pub fn tails_of(alloc: Global, n: u32, winner: Candidate) -> Result<Vec<Tail>, Memory>
    requires room { n ≤ ROOM }
    ensures pieces { IfOk result (λ tails. tails.items ≡ map (piece_of n) (pieces n winner)) }
    ensures few { IfOk result (λ tails. length tails.items ≤ MOST_PIECES) }
{
    let won = u32::from(winner.0);
    let mut tails = Vec::new(alloc);
    for last in 0..n {
        if last == won {
            continue;
        }
        add_pieces(&mut tails, n, Candidate(last as u8))?;
    }
    Ok(tails)
}

// Adds the pieces of the orders that elect `last`.
fn add_pieces(tails: &mut Vec<Tail>, n: u32, last: Candidate) -> Result<(), Memory>
    requires room { n ≤ ROOM }
    requires below { last < n }
    ensures added { OnOk result (tails.new.items
        ≡ tails.old.items ++ map (piece_of n) (pieces_electing n last)) }
    ensures few { OnOk result (length tails.new.items ≤ length tails.old.items + n) }
{
    let own = u32::from(last.0);
    let end = Tail::last(n, last);
    for other in 0..n {
        if other == own {
            continue;
        }
        tails.push(end.front(Candidate(other as u8)))?;
    }
    Ok(())
}
