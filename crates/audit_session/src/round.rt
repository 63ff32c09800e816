// A round over drawn cards.
ghost use Rattle.std.specs.Prelude.{◌≡◌, ◌≤◌, None, All, length, take, IfOk, IfErr};
ghost use Rattle.irv_base.specs.declared.limits.TheConstants.{MOST_DRAWS};
ghost use Rattle.km_risk.specs.Factor.{IsSetting};
ghost use Rattle.session_state.specs.Claims.{audited_by};
ghost use Rattle.session_state.specs.Draws.{round_to};
ghost use Rattle.session_state.specs.Sessions.{risks_of};
ghost use Rattle.audit_session.specs.Going.{all_counts, all_seen, drawn_cards};
ghost use Rattle.audit_session.specs.Refusals.{Refuses, without_record};

use crate::claims::Claims;
use crate::compared::Drawn;
use crate::counting::{all_counts, none_counted};
use crate::drawn::drawn_cards;
use crate::fault::AdvanceFault;
use crate::risks::risks_of;
use irv_base::Memory;
use km_risk::Counts;
use manifest::Linked;
use sampler::Seed;
use seen_file::SeenCards;
use session_state::DoneRound;
use std::alloc::Global;

/// Makes the round over all these cards, of this many in total, if the first `had` of them are already counted.
pub fn round_over<T: Claims>(
    alloc: Global,
    cards: u32,
    gamma: u32,
    margins: &[u32],
    claims: &T,
    drawn: &[Drawn],
    had: usize,
    before: &[Counts],
) -> Result<DoneRound, Memory>
    requires each { length margins.now ≡ length (T.values claims.now) }
    requires settings { All (λ margin. IsSetting cards margin gamma) margins.now }
    requires most { length drawn.now ≤ MOST_DRAWS }
    requires had { had ≤ length drawn.now }
    requires before { before.now ≡ all_counts (T.values claims.now) (take had drawn.now) }
    ensures { IfOk result (λ round. round ≡ record {
      draws = length drawn.now;
      counts = all_counts (T.values claims.now) drawn.now;
      risks = risks_of cards gamma margins.now (all_counts (T.values claims.now) drawn.now);
    }) }
{
    // Calls this for what its contract says: the values of the claims are 0, 1 and 2.
    let _count = claims.count();
    let (_, rest) = drawn.split_at(had);
    let counts = all_counts(alloc, claims, before, rest)?;
    let risks = risks_of(alloc, cards, gamma, margins, &counts)?;
    Ok(DoneRound::new(drawn.len() as u32, counts, risks))
}

/// Makes the first round of an audit of claims with these margins, up to this number of draws, or returns the first draw whose card has no
/// record of what is seen.
pub fn first_round<T: Claims>(
    alloc: Global,
    margins: &[u32],
    gamma: u32,
    seed: &Seed,
    l: &Linked,
    claims: &T,
    seen: &SeenCards,
    draws: u32,
) -> Result<DoneRound, AdvanceFault>
    requires each { length margins.now ≡ length (T.values claims.now) }
    requires card { 1 ≤ length l.now }
    requires settings { All (λ margin. IsSetting (length l.now) margin gamma) margins.now }
    requires most { draws ≤ MOST_DRAWS }
    ensures seen { IfOk result (λ _.
        without_record seed.now (length l.now) seen.now draws ≡ None) }
    ensures round { IfOk result (λ round. round
        ≡ round_to gamma (audited_by (T.values claims.now) margins.now) l.now
        (all_seen seen.now (length l.now)) (drawn_cards seed.now (length l.now) draws) draws) }
    ensures refused { IfErr result
        (Refuses (without_record seed.now (length l.now) seen.now draws)) }
{
    let drawn = drawn_cards(alloc, seed, l, seen, draws)?;
    let before = none_counted(alloc, claims)?;
    let round = round_over(alloc, l.cards(), gamma, margins, claims, &drawn, 0, &before)?;
    Ok(round)
}
