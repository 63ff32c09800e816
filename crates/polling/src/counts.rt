// The number of draws with each seen value, and the risk of these draws.
ghost use Rattle.std.specs.Prelude.{◌≡◌, ◌≤◌, ◌<◌, ◌^◌, ◌+◌, ◌++◌, ◌∷◌, [], ℕ, List, map, length};
ghost use Rattle.irv_base.specs.declared.limits.TheConstants.{GREATEST_GAMMA, MOST_DRAWS};
ghost use Rattle.assertions.specs.Assorter.{assorter_value};
ghost use Rattle.assorters.specs.Cards.{seen_value};
ghost use Rattle.km_risk.specs.Bounds.{IsNotBelow, IsNotFarAbove};
ghost use Rattle.km_risk.specs.Counts.{in_order};
ghost use Rattle.km_risk.specs.declared.limits.TheConstants.{ONE};
ghost use Rattle.polling.specs.Polls.{as_counts, counted, poll_risk, polled};

use assertions::{Assertion, value_of};
use assorters::Seen;
use audit_session::SeenCard;
use km_risk::{Counts, risk};

/// The number of draws with each seen value of an assertion's assorter, from 0 to 2.
#[derive(Clone, Copy, Debug, Default, PartialEq, Eq)]
pub struct PollCounts {
    /// Draws that count for the loser, and cards that can't be found.
    pub n0: u32,
    /// Draws that count for neither.
    pub n1: u32,
    /// Draws that count for the winner.
    pub n2: u32,
}

// The draws of the comparison that have these factors, at one card and a margin of one vote.
fn as_counts(c: &PollCounts) -> Counts
    ensures { result ≡ as_counts c.now }
{
    Counts {
        n0: c.n0,
        n1: c.n1,
        n2: c.n2,
        n3: 0,
        n4: 0,
    }
}

/// The printed risk of the draws, in units of 10^-18, at `gamma` thousandths: a draw with a seen value s has the factor
/// (500 + gamma) / (500 s + gamma). The draws with s of 2 are taken first, and those with 0 last. Each step is rounded up.
pub fn poll_risk(c: &PollCounts, gamma: u32) -> u64
    requires draws { c.now.n0 + c.now.n1 + c.now.n2 ≤ MOST_DRAWS }
    requires some_gamma { 1 ≤ gamma }
    requires most_gamma { gamma ≤ GREATEST_GAMMA }
    ensures value { result ≡ poll_risk gamma c.now }
    ensures at_most_one { result ≤ ONE }
    ensures not_below { IsNotBelow 1 1 gamma (in_order (as_counts c.now)) result }
    ensures not_far_above { IsNotFarAbove 1 1 gamma (in_order (as_counts c.now)) result }
{
    risk(&as_counts(c), 1, 1, gamma)
}

/// What the card, as it was seen, counts as for the assertion.
pub(crate) fn seen_value(assertion: &Assertion, seen: &Seen) -> u8
    ensures value { result ≡ seen_value (assorter_value assertion.now) seen.now }
    ensures most { result ≤ 2 }
{
    match seen {
        Seen::Found(ranking) => value_of(assertion, ranking),
        Seen::Missing => 0,
    }
}

/// The counts after one more draw with this value.
pub(crate) fn with_value(counts: PollCounts, s: u8) -> PollCounts
    requires few { counts.n0 + counts.n1 + counts.n2 < 2 ^ 31 }
    requires value { s ≤ 2 }
    ensures counts { (values : List ℕ) → counts ≡ counted values
        → result ≡ counted (values ++ s ∷ []) }
    ensures draws { result.n0 + result.n1 + result.n2 ≡ counts.n0 + counts.n1 + counts.n2 + 1 }
{
    PollCounts {
        n0: counts.n0 + u32::from(s == 0),
        n1: counts.n1 + u32::from(s == 1),
        n2: counts.n2 + u32::from(s == 2),
    }
}

/// The counts of an assertion over drawn cards.
pub fn counts_over(assertion: &Assertion, drawn: &[SeenCard]) -> PollCounts
    requires { length drawn.now < 2 ^ 31 }
    ensures counts { result ≡ counted (map (polled (assorter_value assertion.now)) drawn.now) }
    ensures draws { result.n0 + result.n1 + result.n2 ≡ length drawn.now }
{
    let mut counts = PollCounts::default();
    for i in 0..drawn.len() {
        counts = with_value(counts, seen_value(assertion, &drawn[i].seen));
    }
    counts
}
