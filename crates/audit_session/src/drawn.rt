// The cards that are drawn.
ghost use Rattle.std.specs.Prelude.{◌≡◌, ◌≤◌, None, map, length, IfOk, IfErr};
ghost use Rattle.audit_session.specs.Going.{all_seen, drawn_at, drawn_cards};
ghost use Rattle.audit_session.specs.Refusals.{Refuses, without_record};

use crate::compared::Drawn;
use crate::fault::AdvanceFault;
use crate::seen::drawn_seen;
use manifest::Linked;
use sampler::Seed;
use seen_file::SeenCards;
use std::alloc::Global;

/// Returns the cards of the first draws, with what is compared for them, or the first draw whose card has no record.
pub fn drawn_cards(
    alloc: Global,
    seed: &Seed,
    l: &Linked,
    seen: &SeenCards,
    draws: u32,
) -> Result<Vec<Drawn>, AdvanceFault>
    requires { 1 ≤ length l.now }
    ensures cards { IfOk result (λ all. all.items
        ≡ map (drawn_at l.now (all_seen seen.now (length l.now)))
        (drawn_cards seed.now (length l.now) draws)) }
    ensures seen { IfOk result (λ _.
        without_record seed.now (length l.now) seen.now draws ≡ None) }
    ensures refused { IfErr result
        (Refuses (without_record seed.now (length l.now) seen.now draws)) }
{
    let seen = drawn_seen(alloc, seed, l.cards(), seen, draws)?;
    let mut all = Vec::new(alloc);
    for i in 0..seen.len() {
        let one = seen[i];
        all.push(Drawn {
            recorded: l.recorded(one.card),
            seen: one.seen,
        })?;
    }
    Ok(all)
}
