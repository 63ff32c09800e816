// The score of one more candidate in front of a suffix, from the suffix's set alone.
ghost use Rattle.std.specs.Prelude.{◌≡◌, ◌≢◌, ◌<◌, ◌≤◌, ◌^◌, ℕ, false, List, length, IfOk};
ghost use Rattle.irv_base.specs.Candidates.{has};
ghost use Rattle.irv_base.specs.declared.limits.TheConstants.{ROOM};
ghost use Rattle.assertions.specs.Assertions.{true_margin};
ghost use Rattle.assertions.specs.Scores.{offered, all_offered, no_score};
ghost use Rattle.set_tallies.specs.Bags.{IsOf, AreOf, HasTallies};
ghost use Rattle.assertions.specs.Steps.{more};
ghost use Rattle.set_search.specs.Offers.{offer_of, offers, step_score};

use assertions::Assertion;
use irv_base::{CandSet, Candidate, Memory};
use set_tallies::{Ahead, Tallies};
use suffix_tree::{Score, neb_margin, offer};

// The score once `c`, in front of a suffix of the set, is compared with the other candidate: by its NEN over a candidate in the set, or by
// the NEB over it of a candidate outside. The row has the tallies of the set with `c`.
fn offer_one(
    score: Score,
    c: Candidate,
    other: Candidate,
    set: CandSet,
    ahead: &Ahead,
    row: &[u32],
) -> Score
    requires below { c < ahead.now.n }
    requires other { other < ahead.now.n }
    requires one_each { length row.now ≡ ahead.now.n }
    requires outside { has set c ≡ false }
    ensures { (records : List (List ℕ)) → AreOf ahead.now records
        → HasTallies records ahead.now.n (more set c) row.now
        → result
        ≡ offered score (true_margin records (offer_of set c other)) (offer_of set c other) }
{
    if set.has(other) {
        let rest = set.with(c);
        let margin = row[c.index()].saturating_sub(row[other.index()]);
        offer(
            score,
            margin,
            Assertion::Nen {
                w: c,
                l: other,
                rest,
            },
        )
    } else {
        let margin = neb_margin(ahead, other, c);
        offer(score, margin, Assertion::Neb { w: other, l: c })
    }
}

// The score of `c` in front of a suffix of the set, from the tallies of the set with `c`.
fn offer_all(c: Candidate, set: CandSet, n: u32, ahead: &Ahead, row: &[u32]) -> Score
    requires same { n ≡ ahead.now.n }
    requires room { n ≤ ROOM }
    requires below { c < n }
    requires one_each { length row.now ≡ n }
    requires outside { has set c ≡ false }
    ensures { (records : List (List ℕ)) → AreOf ahead.now records
        → HasTallies records n (more set c) row.now
        → result ≡ all_offered records no_score (offers n set c) }
{
    let mut score = Score { low: 0, by: None };
    for d in 0..n {
        let other = Candidate(d as u8);
        if other != c {
            score = offer_one(score, c, other, set, ahead, row);
        }
    }
    score
}

/// The step of the set with a candidate outside it: the greatest margin of the true assertions that refute a suffix of this set with the
/// candidate in front but not without it, and the first of those assertions that has this margin. The only error means that memory ran out.
pub(crate) fn step_of(
    tallies: &mut Tallies<'_>,
    set: CandSet,
    c: Candidate,
) -> Result<Score, Memory>
    requires set { set < 2 ^ tallies.old.bag.n }
    requires below { c < tallies.old.bag.n }
    requires outside { has set c ≡ false }
    ensures step { (records : List (List ℕ)) → IsOf tallies.old.bag records
        → IfOk result (λ s. s ≡ step_score tallies.old.bag.n records set c) }
    ensures same { tallies.new ≡ tallies.old }
{
    let n = tallies.candidates();
    let with = set.with(c);
    match tallies.row(with) {
        Some(row) => Ok(offer_all(c, set, n, tallies.ahead(), row)),
        None => {
            let row = tallies.tally(with)?;
            Ok(offer_all(c, set, n, tallies.ahead(), &row))
        }
    }
}
