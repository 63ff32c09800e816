// The printed risks of claims.
ghost use Rattle.std.specs.Prelude.{◌≡◌, ◌≤◌, All, length, IfOk};
ghost use Rattle.irv_base.specs.declared.limits.TheConstants.{MOST_DRAWS};
ghost use Rattle.km_risk.specs.Counts.{draws_in};
ghost use Rattle.km_risk.specs.Factor.{IsSetting};
ghost use Rattle.session_state.specs.Sessions.{risks_of};

use irv_base::Memory;
use km_risk::{Counts, risk};
use std::alloc::Global;

/// Returns the printed risk of each claim, from its margin and its counts.
pub fn risks_of(
    alloc: Global,
    cards: u32,
    gamma: u32,
    margins: &[u32],
    counts: &[Counts],
) -> Result<Vec<u64>, Memory>
    requires each { length counts.now ≡ length margins.now }
    requires settings { All (λ margin. IsSetting cards margin gamma) margins.now }
    requires few { All (λ c. draws_in c ≤ MOST_DRAWS) counts.now }
    ensures { IfOk result (λ risks. risks.items ≡ risks_of cards gamma margins.now counts.now) }
{
    let mut risks = Vec::new(alloc);
    for j in 0..counts.len() {
        risks.push(risk(&counts[j], cards, margins[j], gamma))?;
    }
    Ok(risks)
}
