// A certificate with the draws of a clean audit.
ghost use Rattle.std.specs.Prelude.{◌≡◌, ◌≤◌, IfOk};
ghost use Rattle.irv_base.specs.declared.limits.TheConstants.{GREATEST_GAMMA, GREATEST_LIMIT, MOST_CARDS};
ghost use Rattle.cover_checker.specs.Draws.{clean_draws_for};
ghost use Rattle.contest_search.specs.Planned.{planned};

use assertion_file::{AssertionFile, PlanFacts};
use irv_base::Memory;
use km_risk::clean_draws;
use std::alloc::Global;

// The number of draws that confirm each assertion if no card shows a discrepancy.
fn draws_of(
    alloc: Global,
    file: &AssertionFile,
    cards: u32,
    gamma: u32,
    limit: u32,
) -> Result<Vec<Option<u32>>, Memory>
    requires records { file.now.records ≤ cards }
    requires cards { cards ≤ MOST_CARDS }
    requires gamma { (1 ≤ gamma) × (gamma ≤ GREATEST_GAMMA) }
    requires limit { (1 ≤ limit) × (limit ≤ GREATEST_LIMIT) }
    ensures { IfOk result (λ draws.
        draws.items ≡ clean_draws_for cards gamma limit file.now.claims) }
{
    let mut draws = Vec::new(alloc);
    for claim in file.claims() {
        draws.push(clean_draws(cards, claim.margin, gamma, limit))?;
    }
    Ok(draws)
}

/// Adds to the file the number of draws that confirm each of its assertions if no card shows a discrepancy, over a manifest of this many
/// cards, with gamma in thousandths and the risk limit in millionths.
pub fn planned(
    alloc: Global,
    file: AssertionFile,
    cards: u32,
    gamma: u32,
    limit: u32,
) -> Result<AssertionFile, Memory>
    requires records { file.records ≤ cards }
    requires cards { cards ≤ MOST_CARDS }
    requires gamma { (1 ≤ gamma) × (gamma ≤ GREATEST_GAMMA) }
    requires limit { (1 ≤ limit) × (limit ≤ GREATEST_LIMIT) }
    ensures { IfOk result (λ new. new ≡ planned cards gamma limit file) }
{
    let draws = draws_of(alloc, &file, cards, gamma, limit)?;
    Ok(file.with_plan(PlanFacts {
        cards,
        gamma,
        limit,
        draws,
    }))
}
