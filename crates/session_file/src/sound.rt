// Whether a session keeps the invariants of a session.
ghost use Rattle.std.specs.Prelude.{◌≡◌, ◌≤◌, ◌&&◌, All, IsTrue, length, map};
ghost use Rattle.std.specs.List.{list_all};
ghost use Rattle.irv_base.specs.declared.limits.TheConstants.{MOST_DRAWS};
ghost use Rattle.km_risk.specs.Counts.{draws_in};
ghost use Rattle.km_risk.specs.Factor.{IsSetting};
ghost use Rattle.session_file.specs.Sound.{are_margins, counts_all, has_risks, is_cards, is_draws, is_gamma, is_limit, is_margin, is_round, rises_above};

use irv_base::{GREATEST_GAMMA, GREATEST_LIMIT, MOST_CARDS, MOST_DRAWS};
use km_risk::{Counts, risk};
use session_state::DoneRound;

/// Returns whether the cards, the risk limit and gamma are within the limits of an audit.
pub fn are_limits(cards: u32, limit: u32, gamma: u32) -> bool
    ensures { result ≡ (is_cards cards && is_limit limit && is_gamma gamma) }
{
    cards <= MOST_CARDS
        && (1 <= limit && limit <= GREATEST_LIMIT)
        && (1 <= gamma && gamma <= GREATEST_GAMMA)
}

fn is_margin(cards: u32, margin: u32) -> bool
    ensures { result ≡ is_margin cards margin }
{
    1 <= margin && margin <= cards
}

fn each_margin(cards: u32, margins: &[u32]) -> bool
    ensures { result ≡ list_all (is_margin cards) margins.now }
{
    margins.iter().all(|margin| is_margin(cards, *margin))
}

/// Returns whether there is a margin, and each margin is 1 to the number of cards.
pub fn are_margins(cards: u32, margins: &[u32]) -> bool
    ensures { result ≡ are_margins cards margins.now }
{
    !margins.is_empty() && each_margin(cards, margins)
}

fn is_draws(draws: u32) -> bool
    ensures { result ≡ is_draws draws }
{
    1 <= draws && draws <= MOST_DRAWS
}

// The number of draws in the counts.
fn draws_in(counts: &Counts) -> u64
    ensures { result ≡ draws_in counts.now }
{
    u64::from(counts.n0)
        + u64::from(counts.n1)
        + u64::from(counts.n2)
        + u64::from(counts.n3)
        + u64::from(counts.n4)
}

// Whether the counts of each claim are over all draws.
fn counts_all(round: &DoneRound) -> bool
    ensures { result ≡ counts_all round.now }
{
    let draws = u64::from(round.draws());
    round
        .counts()
        .iter()
        .all(|counts| draws_in(counts) == draws)
}

// Whether each claim has a risk, which is the printed risk of its counts.
fn has_risks(cards: u32, gamma: u32, margins: &[u32], round: &DoneRound) -> bool
    requires settings { All (λ margin. IsSetting cards margin gamma) margins.now }
    requires counts { length round.now.counts ≡ length margins.now }
    requires draws { All (λ counts. draws_in counts ≤ MOST_DRAWS) round.now.counts }
    ensures { result ≡ has_risks cards gamma margins.now round.now }
{
    let counts = round.counts();
    let risks = round.risks();
    if risks.len() != margins.len() {
        return false;
    }
    for i in 0..margins.len() {
        if risks[i] != risk(&counts[i], cards, margins[i], gamma) {
            return false;
        }
    }
    true
}

// Whether the round has, for each claim, the counts over all its draws and their printed risk.
fn is_round(cards: u32, gamma: u32, margins: &[u32], round: &DoneRound) -> bool
    requires { All (λ margin. IsSetting cards margin gamma) margins.now }
    ensures { result ≡ is_round cards gamma margins.now round.now }
{
    is_draws(round.draws())
        && round.counts().len() == margins.len()
        && counts_all(round)
        && has_risks(cards, gamma, margins, round)
}

/// Returns whether the draws increase from round to round, and each round has the counts over all its draws and their printed risks.
pub fn are_rounds(cards: u32, gamma: u32, margins: &[u32], rounds: &[DoneRound]) -> bool
    requires { All (λ margin. IsSetting cards margin gamma) margins.now }
    ensures { result ≡
        (rises_above 0 (map (λ round. round.draws) rounds.now)
        && list_all (is_round cards gamma margins.now) rounds.now) }
{
    let mut before = 0;
    for round in rounds {
        if round.draws() <= before {
            return false;
        }
        if !is_round(cards, gamma, margins, round) {
            return false;
        }
        before = round.draws();
    }
    true
}
