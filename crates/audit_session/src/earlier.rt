// The counts of earlier rounds, which are counted again.
ghost use Rattle.std.specs.Prelude.{◌≡◌, ◌<◌, ◌≤◌, None, All, AllPairs, take, length, IfOk, IfErr};
ghost use Rattle.irv_base.specs.declared.limits.TheConstants.{MOST_DRAWS};
ghost use Rattle.audit_session.specs.Going.{all_counts};
ghost use Rattle.audit_session.specs.Refusals.{Refuses, changed_from, changed_in, last_draws};

use crate::claims::Claims;
use crate::compared::Drawn;
use crate::counting::{all_counts, none_counted};
use crate::fault::AdvanceFault;
use km_risk::Counts;
use session_state::DoneRound;
use std::alloc::Global;

/// Returns the number of draws at the end of the last round.
pub fn last_draws(rounds: &[DoneRound]) -> u32
    ensures { result ≡ last_draws rounds.now }
{
    match rounds.last() {
        Some(round) => round.draws(),
        None => 0,
    }
}

// The first claim whose counts were different in the round.
fn first_changed(round: u32, expected: &[Counts], found: &[Counts]) -> Option<AdvanceFault>
    requires { length expected.now ≡ length found.now }
    ensures { result ≡ changed_in round 1 expected.now found.now }
{
    for j in 0..expected.len() {
        if expected[j] != found[j] {
            return Some(AdvanceFault::Changed {
                round,
                claim: j as u64 + 1,
                expected: expected[j],
                found: found[j],
            });
        }
    }
    None
}

/// Returns the counts of all claims at the end of the last round, or the first round and claim whose counts were different.
pub fn counts_before<T: Claims>(
    alloc: Global,
    rounds: &[DoneRound],
    claims: &T,
    drawn: &[Drawn],
) -> Result<Vec<Counts>, AdvanceFault>
    requires few { length drawn.now ≤ MOST_DRAWS }
    requires rising { AllPairs (λ round later. round.draws < later.draws) rounds.now }
    requires some { All (λ round. 1 ≤ round.draws) rounds.now }
    requires drawn { All (λ round. round.draws ≤ length drawn.now) rounds.now }
    requires each { All (λ round. length round.counts ≡ length (T.values claims.now)) rounds.now }
    ensures counts { IfOk result (λ counts. counts.items
        ≡ all_counts (T.values claims.now) (take (last_draws rounds.now) drawn.now)) }
    ensures same { IfOk result (λ _. changed_from (T.values claims.now) drawn.now 1 rounds.now ≡ None) }
    ensures refused { IfErr result (Refuses (changed_from (T.values claims.now) drawn.now 1 rounds.now)) }
{
    // Calls this for what its contract says: the values of the claims are 0, 1 and 2.
    let _count = claims.count();
    let mut counts = none_counted(alloc, claims)?;
    let mut from = 0;
    for i in 0..rounds.len() {
        let round = &rounds[i];
        let end = round.draws() as usize;
        let next = all_counts(alloc, claims, &counts, &drawn[from..end])?;
        if let Some(fault) = first_changed(i as u32 + 1, round.counts(), &next) {
            return Err(fault);
        }
        counts = next;
        from = end;
    }
    Ok(counts)
}
