// What a suffix has against it, and further assertions that are offered to it.
//
// Only true NEBs are offered, and there are few of them if a contest is close. Of the NENs that a child adds, only one is offered.
// They differ in the loser, so the best is the one over the loser with the fewest votes in the row, and if votes are equal, over
// the first such candidate.
ghost use Rattle.std.specs.Prelude.{◌≡◌, ℕ, ◌<◌, ◌≤◌, ◌/◌, ◌%◌, ◌^◌, min, not, List, ◌∷◌, map, filter, get_or};
ghost use Rattle.irv_base.specs.Candidates.{candidates, has};
ghost use Rattle.irv_base.specs.declared.limits.TheConstants.{ROOM};
ghost use Rattle.assertions.specs.declared.assertion.Assertion.TheVariants.{Neb};
ghost use Rattle.assertions.specs.Assertions.{true_margin};
ghost use Rattle.assertions.specs.Scores.{offered, all_offered};
ghost use Rattle.set_tallies.specs.Bags.{AreOf};
ghost use Rattle.suffix_tree.specs.Offers.{IsSomeByMargin, with_nens, with_standing, below};

use assertions::{Assertion, before};
use irv_base::{CandSet, Candidate};
use set_tallies::Ahead;
use std::marker::Model;

/// A margin and the assertion that has it, or 0 and none.
#[derive(Clone, Copy)]
pub struct Score {
    /// The margin, in votes.
    pub low: u32,
    /// The assertion, none exactly if `low` is 0.
    pub by: Option<Assertion>,
}

impl Model for Score {
    ghost use Rattle.assertions.specs.Scores as scores;

    ghost Value = { scores.Score };

    ghost view = { λ s. record { low = s.low; by = s.by } };

    ghost inverse = { λ s. record { low = s.low; by = s.by } };
}

/// The better of the score and one more assertion.
pub fn offer(score: Score, margin: u32, a: Assertion) -> Score
    ensures { result ≡ offered score margin a }
{
    let low = score.low;
    let by = score.by;
    let is_better = match by {
        Some(b) => low < margin || (low == margin && before(&a, &b)),
        None => low < margin,
    };
    if is_better {
        Score {
            low: margin,
            by: Some(a),
        }
    } else {
        score
    }
}

/// The margin, in votes, of the NEB that `w` beats `l`, or 0 if the NEB isn't true.
pub fn neb_margin(ahead: &Ahead, w: Candidate, l: Candidate) -> u32
    requires winner { w < ahead.now.n }
    requires loser { l < ahead.now.n }
    ensures { (records : List (List ℕ)) → AreOf ahead.now records
        → result ≡ true_margin records (Neb w l) }
{
    ahead.first(w).saturating_sub(ahead.ahead(l, w))
}

/// The score after the NEBs over `c` of those outside the set. Only true ones are offered: the others have no margin, and a score
/// that has no margin has no assertion.
pub fn offer_nebs(start: Score, c: Candidate, set: CandSet, ahead: &Ahead) -> Score
    requires below { c < ahead.now.n }
    ensures { (records : List (List ℕ)) → AreOf ahead.now records → IsSomeByMargin start
        → result
        ≡ all_offered records start
        (map (λ w. Neb w c) (filter (λ w. not (has set w)) (candidates ahead.now.n))) }
{
    let mut score = start;
    for w in ahead.neb_winners(c) {
        if !set.has(*w) {
            let claim = Assertion::Neb { w: *w, l: c };
            score = offer(score, neb_margin(ahead, *w, c), claim);
        }
    }
    score
}

// The tally of a candidate in a row, or 0 if the row doesn't have the candidate.
fn votes(row: &[u32], c: Candidate) -> u32
    ensures { result ≡ get_or row.now c 0 }
{
    match row.get(c.index()) {
        Some(votes) => *votes,
        None => 0,
    }
}

// The number of values that a byte has.
const BYTE: u64 = 1 << 8;

// The votes of a loser, as far as they count against the winner's, followed by the loser: the smaller the number, the better the
// NEN over this loser. Votes beyond the winner's don't count, so of several NENs without a margin, the first in the fixed order is
// the best.
fn standing(row: &[u32], for_winner: u32, l: Candidate) -> u64
    ensures votes { result / 2 ^ 8 ≡ min (get_or row.now l 0) for_winner }
    ensures loser { result % 2 ^ 8 ≡ l }
    ensures candidate { result % 2 ^ 8 < ROOM }
{
    u64::from(votes(row, l).min(for_winner)) * BYTE + u64::from(l.0)
}

// The smallest standing of some losers. Of all NENs over them, the one over its loser is the best, so only that one counts.
fn least_standing(row: &[u32], for_winner: u32, first: Candidate, others: &[Candidate]) -> u64
    ensures votes { result / 2 ^ 8 ≤ for_winner }
    ensures loser { result % 2 ^ 8 < ROOM }
    ensures best { (c set : ℕ) (start : Score) → for_winner ≡ get_or row.now c 0
        → with_standing for_winner c set start result
        ≡ with_nens row.now c set start (first ∷ others.now) }
{
    let mut least = standing(row, for_winner, first);
    for l in others {
        least = least.min(standing(row, for_winner, *l));
    }
    least
}

/// The score after the NENs of `c` over those after it, from a row of the set.
pub fn offer_nens(
    start: Score,
    c: Candidate,
    behind: &[Candidate],
    set: CandSet,
    row: &[u32],
) -> Score
    ensures { result ≡ with_nens row.now c set start behind.now }
{
    let Some((first, others)) = behind.split_first() else {
        return start;
    };
    let for_winner = votes(row, c);
    let least = least_standing(row, for_winner, *first, others);
    let claim = Assertion::Nen {
        w: c,
        l: Candidate((least % BYTE) as u8),
        rest: set,
    };
    offer(start, for_winner - (least / BYTE) as u32, claim)
}

/// The score after the NENs of `c` over those after it, if it is below the limit. If the score isn't below the limit before them,
/// no NEN is looked at.
pub fn offer_nens_below(
    start: Score,
    c: Candidate,
    behind: &[Candidate],
    set: CandSet,
    limit: u32,
    row: &[u32],
) -> Option<Score>
    ensures { result ≡ below limit (with_nens row.now c set start behind.now) }
{
    if start.low >= limit {
        return None;
    }
    let score = offer_nens(start, c, behind, set, row);
    if score.low < limit { Some(score) } else { None }
}
