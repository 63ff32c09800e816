// The outcome of a plurality contest, from its ballots.
ghost use Rattle.std.specs.Prelude.{◌≡◌, ◌<◌, ◌≤◌, ◌-◌, All, IfOk, IfErr, length, map, Ok, slice_index};
ghost use Rattle.plurality.specs.Plural.{outcome_of};
ghost use Rattle.plurality.specs.Faults.{Refuses};

use crate::fault::PluralFault;
use crate::firsts::{all_but, first_preferences, greatest, set_of, with_number};
use crate::plural::Plural;
use ballots::Ballots;
use irv_base::{Candidate, Memory};
use std::alloc::Global;

// By how many votes, according to these numbers, the winner leads each loser.
fn margins(
    alloc: Global,
    firsts: &[u32],
    winner: Candidate,
    losers: &[Candidate],
) -> Result<Vec<u32>, Memory>
    requires winner { winner < length firsts.now }
    requires losers { All (λ loser. loser < length firsts.now) losers.now }
    requires most { All (λ number. number ≤ slice_index firsts.now winner) firsts.now }
    ensures { IfOk result (λ margins. margins.items
        ≡ map (λ loser. slice_index firsts.now winner - slice_index firsts.now loser) losers.now) }
{
    let mut margins = Vec::new(alloc);
    for loser in losers {
        margins.push(firsts[winner.index()] - firsts[loser.index()])?;
    }
    Ok(margins)
}

/// Returns the winner of the contest, if one candidate has more first preferences than every other, with the losers and the margins.
///
/// The contest is refused if two or more candidates share the greatest number, even if no ballot has a preference.
pub fn plurality(alloc: Global, b: &Ballots) -> Result<Plural, PluralFault>
    ensures outcome { IfOk result (λ plural.
        outcome_of (length b.now.candidates) b.now.rankings ≡ Ok plural) }
    ensures refused { IfErr result
        (Refuses (outcome_of (length b.now.candidates) b.now.rankings)) }
{
    let n = b.candidates().len() as u32;
    let firsts = first_preferences(alloc, n, b.rankings())?;
    let tally = greatest(&firsts);
    let leaders = with_number(alloc, &firsts, tally)?;
    if leaders.len() != 1 {
        let tied = set_of(&leaders);
        return Err(PluralFault::Tie { tied, tally });
    }
    let winner = leaders[0];
    let losers = all_but(alloc, n, winner)?;
    let margins = margins(alloc, &firsts, winner, &losers)?;
    Ok(Plural::new(winner, losers, margins))
}
