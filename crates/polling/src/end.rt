// The poll of drawn cards.
ghost use Rattle.std.specs.Prelude.{◌≡◌, ◌+◌, ◌≤◌, None, All, map, length, IfOk, IfErr};
ghost use Rattle.std.specs.List.{list_all};
ghost use Rattle.irv_base.specs.declared.limits.TheConstants.{GREATEST_GAMMA, GREATEST_LIMIT, MOST_DRAWS};
ghost use Rattle.assertions.specs.Assorter.{assorter_value};
ghost use Rattle.manifest.specs.Cards.{cards_of};
ghost use Rattle.session_state.specs.Claims.{values_of};
ghost use Rattle.audit_session.specs.Going.{all_seen, drawn_cards};
ghost use Rattle.audit_session.specs.Refusals.{unseen_draw};
ghost use Rattle.polling.specs.Polls.{IsPollFault, counted, is_risk_within, poll_counts, poll_risk, polled};

use crate::counts::{PollCounts, counts_over, poll_risk};
use crate::fault::PollFault;
use assertion_file::AssertionFile;
use assertions::Claim;
use audit_session::{SeenCard, SeenCards, drawn_seen};
use irv_base::Memory;
use km_risk::is_confirmed;
use manifest::Manifest;
use sampler::Seed;
use std::alloc::Global;

/// How a poll ends: for each assertion, the counts of its seen values and the printed risk, in units of 10^-18, and
/// whether each risk is within the limit.
#[derive(Drop)]
pub struct PollEnd {
    /// The counts of each assertion, over all draws.
    pub counts: Vec<PollCounts>,
    /// The printed risk of each assertion.
    pub risks: Vec<u64>,
    /// Whether each risk is within the limit.
    pub confirmed: bool,
}

// The counts of each claim.
fn all_counts(
    alloc: Global,
    claims: &[Claim],
    drawn: &[SeenCard],
) -> Result<Vec<PollCounts>, Memory>
    requires { length drawn.now ≤ MOST_DRAWS }
    ensures counts { IfOk result (λ all. all.items
        ≡ map (λ claim. counted (map (polled (assorter_value claim.assertion)) drawn.now))
        claims.now) }
    ensures draws { IfOk result (λ all. All (λ c. c.n0 + c.n1 + c.n2 ≤ MOST_DRAWS) all.items) }
{
    let mut all = Vec::new(alloc);
    for j in 0..claims.len() {
        all.push(counts_over(&claims[j].assertion, drawn))?;
    }
    Ok(all)
}

// The risk of each claim.
fn risks_of(alloc: Global, counts: &[PollCounts], gamma: u32) -> Result<Vec<u64>, Memory>
    requires draws { All (λ c. c.n0 + c.n1 + c.n2 ≤ MOST_DRAWS) counts.now }
    requires some_gamma { 1 ≤ gamma }
    requires most_gamma { gamma ≤ GREATEST_GAMMA }
    ensures { IfOk result (λ risks. risks.items ≡ map (poll_risk gamma) counts.now) }
{
    let mut risks = Vec::new(alloc);
    for j in 0..counts.len() {
        risks.push(poll_risk(&counts[j], gamma))?;
    }
    Ok(risks)
}

fn are_confirmed(risks: &[u64], limit: u32) -> bool
    requires { limit ≤ GREATEST_LIMIT }
    ensures { result ≡ list_all (is_risk_within limit) risks.now }
{
    risks.iter().all(|risk| is_confirmed(*risk, limit))
}

/// Polls the cards of a manifest: this many draws with the seed, given what people saw of each drawn card. The result has the number of
/// draws with each seen value for each assertion of the file, and the risk. The margins of the file aren't used.
///
/// The poll is refused exactly if the card of some draw has no record among the seen. It is refused at the first draw like this.
pub fn poll(
    alloc: Global,
    m: &Manifest,
    f: &AssertionFile,
    seen: &SeenCards,
    seed: &Seed,
    draws: u32,
    limit: u32,
    gamma: u32,
) -> Result<PollEnd, PollFault>
    requires most_draws { draws ≤ MOST_DRAWS }
    requires most_limit { limit ≤ GREATEST_LIMIT }
    requires some_gamma { 1 ≤ gamma }
    requires most_gamma { gamma ≤ GREATEST_GAMMA }
    ensures counts { let cards = length (cards_of m.now) in
        IfOk result (λ end. end.counts.items
        ≡ map (λ value. poll_counts value (all_seen seen.now cards)
        (drawn_cards seed.now cards draws)) (values_of f.now)) }
    ensures risks { IfOk result (λ end. end.risks.items ≡ map (poll_risk gamma) end.counts.items) }
    ensures confirmed { IfOk result (λ end.
        end.confirmed ≡ list_all (is_risk_within limit) end.risks.items) }
    ensures all_seen { IfOk result (λ _.
        unseen_draw seed.now (length (cards_of m.now)) seen.now draws ≡ None) }
    ensures refused { IfErr result
        (IsPollFault seed.now (length (cards_of m.now)) seen.now draws) }
{
    let drawn = drawn_seen(alloc, seed, m.cards(), seen, draws)?;
    let counts = all_counts(alloc, f.claims(), &drawn)?;
    let risks = risks_of(alloc, &counts, gamma)?;
    let confirmed = are_confirmed(&risks, limit);
    Ok(PollEnd {
        counts,
        risks,
        confirmed,
    })
}
