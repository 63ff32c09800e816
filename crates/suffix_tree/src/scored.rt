// Suffixes with their low and their refuter.
ghost use Rattle.std.specs.Prelude.{◌≡◌, ◌<◌, reverse, IfOk, IsFalse};
ghost use Rattle.std.proofs.Common.{refl};
ghost use Rattle.std.specs.Cmp.{eq_by_cmp_equiv, partial_equiv_from_equiv, partial_order_from_agreeing_total};
ghost use Rattle.std.specs.Cmp.Lexicographic.{slice_cmp};
ghost use Rattle.std.specs.Ordering.{as_partial_cmp, eq_by_cmp, nat_cmp};
ghost use Rattle.irv_base.specs.Candidates.{is_in};
ghost use Rattle.suffix_tree.specs.Suffixes.{with_front};
ghost use Rattle.suffix_tree.specs.Compared.{search_total};
ghost use Rattle.suffix_tree.specs.Scores.{IsScoredOver, search_cmp, first_is_greatest};

use crate::offers::{Score, offer_nebs, offer_nens};
use crate::tail::Tail;
use assertions::Assertion;
use irv_base::{Candidate, Memory};
use set_tallies::Tallies;
use std::cmp::Ordering;

/// A suffix, the greatest margin of a true assertion that refutes it, and the first assertion, in the fixed order, that has this
/// margin. If no true assertion refutes the suffix, these are 0 and none.
#[derive(Drop)]
pub struct Scored {
    /// The suffix, with the number of candidates.
    pub tail: Tail,
    /// The margin, in votes.
    pub low: u32,
    /// The assertion, none exactly if `low` is 0.
    pub by: Option<Assertion>,
}

// Which of two lists comes first when both are read backwards.
fn cmp_backwards(a: &[Candidate], b: &[Candidate]) -> Ordering
    ensures { result ≡ slice_cmp nat_cmp (reverse a.now) (reverse b.now) }
{
    a.iter().rev().cmp(b.iter().rev())
}

// Which of two suffixes is searched first.
fn cmp_search(a: &Scored, b: &Scored) -> Ordering
    ensures { result ≡ search_cmp a.now b.now }
{
    if a.low != b.low {
        return a.low.cmp(&b.low);
    }
    cmp_backwards(a.tail.list(), b.tail.list())
        .then(a.tail.candidates().cmp(&b.tail.candidates()))
        .then(a.by.cmp(&b.by))
}

// The suffix that is searched first is the greatest, so that it leaves a heap first.
impl PartialEq for Scored {
    ghost eq = { eq_by_cmp first_is_greatest };

    ghost laws = { partial_equiv_from_equiv (eq_by_cmp_equiv search_total) };

    fn eq(&self, other: &Scored) -> bool {
        self.cmp(other) == Ordering::Equal
    }
}

impl Eq for Scored {
    ghost laws = { eq_by_cmp_equiv search_total };
}

impl Ord for Scored {
    ghost cmp = { first_is_greatest };

    ghost total = { search_total };

    ghost matches_partial_cmp = { λ x y. refl };

    ghost matches_eq = { λ x y. refl };

    fn cmp(&self, other: &Scored) -> Ordering {
        cmp_search(other, self)
    }
}

impl PartialOrd for Scored {
    ghost partial_cmp = { as_partial_cmp first_is_greatest };

    ghost laws = { partial_order_from_agreeing_total first_is_greatest search_total
        (λ x y. refl) (λ x y. refl) };

    fn partial_cmp(&self, other: &Scored) -> Option<Ordering> {
        Some(self.cmp(other))
    }
}

// The score of the suffix with one more candidate in front.
fn child_score(parent: &Scored, c: Candidate, tallies: &mut Tallies) -> Result<Score, Memory>
    requires below { c < parent.now.tail.n }
    requires other { IsFalse (is_in parent.now.tail.list c) }
    requires contest { parent.now.tail.n ≡ tallies.old.bag.n }
    requires scored { IsScoredOver tallies.old.bag parent.now }
    ensures scored { IfOk result (λ score. IsScoredOver tallies.old.bag
        (record { tail = with_front parent.now.tail c; low = score.low; by = score.by })) }
    ensures same { tallies.new ≡ tallies.old }
{
    let behind = parent.tail.list();
    let set = parent.tail.set().with(c);
    let from_parent = Score {
        low: parent.low,
        by: parent.by,
    };
    let with_nebs = offer_nebs(from_parent, c, set, tallies.ahead());
    match tallies.row(set) {
        Some(row) => Ok(offer_nens(with_nebs, c, behind, set, row)),
        None => {
            let row = tallies.tally(set)?;
            Ok(offer_nens(with_nebs, c, behind, set, &row))
        }
    }
}

/// Returns the suffix with one more candidate in front, scored from the suffix without it. The candidate adds the NEBs over it of
/// those outside, and its NENs over those after it, from one row of tallies. The only error is lack of memory.
pub fn child(parent: &Scored, c: Candidate, tallies: &mut Tallies) -> Result<Scored, Memory>
    requires below { c < parent.now.tail.n }
    requires other { IsFalse (is_in parent.now.tail.list c) }
    requires contest { parent.now.tail.n ≡ tallies.old.bag.n }
    requires scored { IsScoredOver tallies.old.bag parent.now }
    ensures tail { IfOk result (λ s. s.tail ≡ with_front parent.now.tail c) }
    ensures scored { IfOk result (IsScoredOver tallies.old.bag) }
    ensures same { tallies.new ≡ tallies.old }
{
    let score = child_score(parent, c, tallies)?;
    Ok(Scored {
        tail: parent.tail.front(c),
        low: score.low,
        by: score.by,
    })
}

/// Returns the suffix `t` with its score over the records of the tallies: what RAIRE's search needs for each suffix, as an exact
/// value and not as a bound. The only error is lack of memory.
pub fn score(t: &Tail, tallies: &mut Tallies) -> Result<Scored, Memory>
    requires { t.now.n ≡ tallies.old.bag.n }
    ensures tail { IfOk result (λ s. s.tail ≡ t.now) }
    ensures scored { IfOk result (IsScoredOver tallies.old.bag) }
    ensures same { tallies.new ≡ tallies.old }
{
    let list = t.list();
    let mut scored = Scored {
        tail: Tail::none(t.candidates()),
        low: 0,
        by: None,
    };
    let mut at = list.len();
    while at > 0 {
        at -= 1;
        scored = child(&scored, list[at], tallies)?;
    }
    Ok(scored)
}
