// Drawn cards that are seen as recorded.
ghost use Rattle.std.specs.Prelude.{◌≡◌, filter, IfOk};
ghost use Rattle.audit_session.specs.Alike.{is_found_as, is_odd, is_seen_as};

use crate::compared::Drawn;
use assorters::Seen;
use irv_base::{Memory, Ranking};
use manifest::Recorded;
use std::alloc::Global;

fn is_found_as(ranking: &Ranking, seen: &Seen) -> bool
    ensures { result ≡ is_found_as ranking.now seen.now }
{
    match seen {
        Seen::Found(found) => ranking == found,
        Seen::Missing => false,
    }
}

fn is_seen_as(recorded: &Recorded, seen: &Seen) -> bool
    ensures { result ≡ is_seen_as recorded.now seen.now }
{
    match recorded {
        Recorded::Ranked(ranking) => is_found_as(ranking, seen),
        Recorded::Without => false,
    }
}

fn is_odd(drawn: &Drawn) -> bool
    ensures { result ≡ is_odd drawn.now }
{
    !is_seen_as(&drawn.recorded, &drawn.seen)
}

/// Returns the cards that aren't seen as recorded, in order. Every other card is clean for every claim.
pub fn odd_among(alloc: Global, drawn: &[Drawn]) -> Result<Vec<Drawn>, Memory>
    ensures { IfOk result (λ odd. odd.items ≡ filter is_odd drawn.now) }
{
    let odd = drawn
        .iter()
        .copied()
        .filter(|card| is_odd(card))
        .collect(alloc)?;
    Ok(odd)
}
