// The poll of drawn cards that is looked at after each draw.
ghost use Rattle.std.specs.Prelude.{◌≡◌, ◌≤◌, ◌<◌, None, All, map, length, IfOk, IfErr, IfSome, unwrap_or};
ghost use Rattle.std.specs.List.{list_all};
ghost use Rattle.irv_base.specs.declared.limits.TheConstants.{GREATEST_LIMIT, MOST_CARDS, MOST_DRAWS};
ghost use Rattle.assertions.specs.Assorter.{assorter_value};
ghost use Rattle.manifest.specs.Cards.{cards_of};
ghost use Rattle.km_risk.specs.declared.limits.TheConstants.{GREATEST_EACH_GAMMA};
ghost use Rattle.audit_session.specs.Going.{all_seen, drawn_cards};
ghost use Rattle.audit_session.specs.Refusals.{unseen_draw};
ghost use Rattle.polling.specs.Polls.{IsPollFault, polled};
ghost use Rattle.polling.specs.Each.{IsGamma, IsMarginOf, asked, best_gamma, end_of, ends_of, gamma_of, has_confirmed, is_each_confirmed, polled_of};

use crate::counts::{PollCounts, seen_value, with_value};
use crate::fault::PollFault;
use assertion_file::AssertionFile;
use assertions::{Assertion, Claim};
use audit_session::{SeenCard, SeenCards, Unseen, drawn_seen};
use irv_base::Memory;
use km_risk::{GREATEST_EACH_GAMMA, ONE, is_within, next_risk};
use manifest::Manifest;
use sampler::Seed;
use std::alloc::Global;

/// How the poll of a claim ends: after the first draw that brings its printed risk within the limit, or after all draws.
#[derive(Clone, Copy, Debug, PartialEq, Eq)]
pub struct ClaimEnd {
    /// The gamma of the claim, in thousandths.
    pub gamma: u32,
    /// The counts of its seen values over these draws.
    pub counts: PollCounts,
    /// The printed risk after them, in units of 10^-18.
    pub risk: u128,
    /// The draw that confirms the claim, counted from 1, if there is one.
    pub confirmed: Option<u32>,
}

/// How a poll that is looked at after each draw ends.
#[derive(Drop)]
pub struct EachEnd {
    /// The end of each claim.
    pub claims: Vec<ClaimEnd>,
    /// Whether each of them is confirmed.
    pub confirmed: bool,
}

/// The gamma that fits a margin of this many votes among this many cards, in thousandths: 500 (cards / margin - 1), rounded to the
/// nearest whole number, from 1 to `GREATEST_EACH_GAMMA`.
pub fn best_gamma(cards: u32, margin: u32) -> u32
    requires some { 1 ≤ margin }
    requires few { cards ≤ MOST_CARDS }
    ensures value { result ≡ best_gamma cards margin }
    ensures within { IsGamma result }
{
    let against = u64::from(cards.saturating_sub(margin));
    let margin = u64::from(margin);
    let fitting = (1000 * against + margin) / (2 * margin);
    fitting.clamp(1, u64::from(GREATEST_EACH_GAMMA)) as u32
}

// The poll of an assertion over drawn cards, up to the first draw after which its printed risk is within the limit.
fn claim_end(assertion: &Assertion, drawn: &[SeenCard], limit: u32, gamma: u32) -> ClaimEnd
    requires draws { length drawn.now ≤ MOST_DRAWS }
    requires limit { limit ≤ GREATEST_LIMIT }
    requires gamma { IsGamma gamma }
    ensures { result ≡ end_of limit gamma (map (polled (assorter_value assertion.now)) drawn.now) }
{
    let mut counts = PollCounts::default();
    let mut risk = u128::from(ONE);
    for i in 0..drawn.len() {
        let s = seen_value(assertion, &drawn[i].seen);
        counts = with_value(counts, s);
        risk = next_risk(risk, s, 1, 1, gamma);
        if is_within(risk, limit) {
            let confirmed = Some(i as u32 + 1);
            return ClaimEnd {
                gamma,
                counts,
                risk,
                confirmed,
            };
        }
    }
    ClaimEnd {
        gamma,
        counts,
        risk,
        confirmed: None,
    }
}

// The gamma of a claim: the given one, or, if there is none, the one that fits its margin.
fn gamma_of(gamma: Option<u32>, cards: u32, claim: &Claim) -> u32
    requires margin { 1 ≤ claim.now.margin }
    requires few { cards ≤ MOST_CARDS }
    requires gamma { IfSome gamma IsGamma }
    ensures value { result ≡ gamma_of gamma cards claim.now }
    ensures within { IsGamma result }
{
    match gamma {
        Some(gamma) => gamma,
        None => best_gamma(cards, claim.margin),
    }
}

// The end of a claim.
fn end_of_claim(
    claim: &Claim,
    cards: u32,
    drawn: &[SeenCard],
    limit: u32,
    gamma: Option<u32>,
) -> ClaimEnd
    requires margin { 1 ≤ claim.now.margin }
    requires few { cards ≤ MOST_CARDS }
    requires draws { length drawn.now ≤ MOST_DRAWS }
    requires limit { limit ≤ GREATEST_LIMIT }
    requires gamma { IfSome gamma IsGamma }
    ensures { result ≡ end_of limit (gamma_of gamma cards claim.now)
        (map (polled (assorter_value claim.now.assertion)) drawn.now) }
{
    let gamma = gamma_of(gamma, cards, claim);
    claim_end(&claim.assertion, drawn, limit, gamma)
}

// The end of each claim.
fn all_ends(
    alloc: Global,
    claims: &[Claim],
    cards: u32,
    drawn: &[SeenCard],
    limit: u32,
    gamma: Option<u32>,
) -> Result<Vec<ClaimEnd>, Memory>
    requires margins { All IsMarginOf claims.now }
    requires few { cards ≤ MOST_CARDS }
    requires draws { length drawn.now ≤ MOST_DRAWS }
    requires limit { limit ≤ GREATEST_LIMIT }
    requires gamma { IfSome gamma IsGamma }
    ensures { IfOk result (λ all. all.items
        ≡ map (λ claim. end_of limit (gamma_of gamma cards claim)
        (map (polled (assorter_value claim.assertion)) drawn.now)) claims.now) }
{
    let mut all = Vec::new(alloc);
    for j in 0..claims.len() {
        all.push(end_of_claim(&claims[j], cards, drawn, limit, gamma))?;
    }
    Ok(all)
}

fn are_confirmed(ends: &[ClaimEnd]) -> bool
    ensures { result ≡ list_all has_confirmed ends.now }
{
    ends.iter().all(|end| end.confirmed.is_some())
}

// The poll of drawn cards.
fn poll_of(
    alloc: Global,
    f: &AssertionFile,
    cards: u32,
    drawn: &[SeenCard],
    limit: u32,
    gamma: Option<u32>,
) -> Result<EachEnd, Memory>
    requires few { cards ≤ MOST_CARDS }
    requires draws { length drawn.now ≤ MOST_DRAWS }
    requires limit { limit ≤ GREATEST_LIMIT }
    requires gamma { IfSome gamma IsGamma }
    ensures ends { IfOk result (λ end. end.claims.items
        ≡ map (λ claim. end_of limit (gamma_of gamma cards claim)
        (map (polled (assorter_value claim.assertion)) drawn.now)) f.now.claims) }
    ensures confirmed { IfOk result (λ end.
        end.confirmed ≡ list_all has_confirmed end.claims.items) }
{
    let claims = all_ends(alloc, f.claims(), cards, drawn, limit, gamma)?;
    let confirmed = are_confirmed(&claims);
    Ok(EachEnd { claims, confirmed })
}

/// Polls the cards of a manifest, with a look after each of this many draws with the seed. For each assertion of the file, the result has
/// the first draw after which the printed risk is within the limit, the counts of the seen values up to there, and the risk there. Each
/// assertion has the given gamma, or, if there is none, the one that fits the margin that the file states.
///
/// The poll is refused exactly if, up to the draw that confirms the last assertion, the card of some draw has no record among the seen. It is
/// refused at the first draw like this.
pub fn poll_each(
    alloc: Global,
    m: &Manifest,
    f: &AssertionFile,
    seen: &SeenCards,
    seed: &Seed,
    draws: u32,
    limit: u32,
    gamma: Option<u32>,
) -> Result<EachEnd, PollFault>
    requires most_draws { draws ≤ MOST_DRAWS }
    requires most_limit { limit ≤ GREATEST_LIMIT }
    requires gamma { IfSome gamma IsGamma }
    ensures ends { let cards = length (cards_of m.now) in
        IfOk result (λ end. end.claims.items
        ≡ ends_of limit (polled_of gamma cards f.now) (all_seen seen.now cards)
        (drawn_cards seed.now cards draws)) }
    ensures confirmed { let cards = length (cards_of m.now) in
        IfOk result (λ end. end.confirmed
        ≡ is_each_confirmed limit (polled_of gamma cards f.now) (all_seen seen.now cards)
        (drawn_cards seed.now cards draws)) }
    ensures all_seen { let cards = length (cards_of m.now) in
        IfOk result (λ _. unseen_draw seed.now cards seen.now
        (asked limit (polled_of gamma cards f.now) (all_seen seen.now cards)
        (drawn_cards seed.now cards draws)) ≡ None) }
    ensures refused { let cards = length (cards_of m.now) in
        IfErr result (IsPollFault seed.now cards seen.now
        (asked limit (polled_of gamma cards f.now) (all_seen seen.now cards)
        (drawn_cards seed.now cards draws))) }
{
    let cards = m.cards();
    match drawn_seen(alloc, seed, cards, seen, draws) {
        Ok(drawn) => Ok(poll_of(alloc, f, cards, &drawn, limit, gamma)?),
        Err(Unseen::NoRecord { card, k }) => {
            // The draws before it may confirm each claim. Each of these draws has a record, so only memory can run short.
            let Ok(before) = drawn_seen(alloc, seed, cards, seen, k - 1) else {
                return Err(PollFault::Memory);
            };
            let end = poll_of(alloc, f, cards, &before, limit, gamma)?;
            if end.confirmed {
                Ok(end)
            } else {
                Err(PollFault::NoRecord { card, k })
            }
        }
        Err(Unseen::Memory) => Err(PollFault::Memory),
    }
}
