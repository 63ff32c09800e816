// Suffixes that are needed if their low is below a limit.
ghost use Rattle.std.specs.Prelude.{◌≡◌, ◌<◌, ◌+◌, IfOk, IsFalse};
ghost use Rattle.irv_base.specs.Candidates.{is_in};
ghost use Rattle.suffix_tree.specs.Suffixes.{with_front, children};
ghost use Rattle.suffix_tree.specs.Scores.{IsScoredOver, IsScoredBelow, AreScoredBelow};

use crate::offers::{Score, offer_nebs, offer_nens_below};
use crate::scored::Scored;
use irv_base::{Candidate, Memory, Steps};
use set_tallies::Tallies;
use std::alloc::Global;
use std::sync::ledger::Ledger;

/// Returns the suffix with one more candidate in front, with the score that `child` gives it, if its low is below the limit. If its
/// NEBs show that the low isn't, its NENs aren't looked at. The only error is lack of memory.
pub fn child_below(
    parent: &Scored,
    c: Candidate,
    limit: u32,
    tallies: &mut Tallies,
) -> Result<Option<Scored>, Memory>
    requires below { c < parent.now.tail.n }
    requires other { IsFalse (is_in parent.now.tail.list c) }
    requires contest { parent.now.tail.n ≡ tallies.old.bag.n }
    requires scored { IsScoredOver tallies.old.bag parent.now }
    ensures found { IfOk result
        (IsScoredBelow tallies.old.bag limit (with_front parent.now.tail c)) }
    ensures same { tallies.new ≡ tallies.old }
{
    let behind = parent.tail.list();
    let set = parent.tail.set().with(c);
    let from_parent = Score {
        low: parent.low,
        by: parent.by,
    };
    let with_nebs = offer_nebs(from_parent, c, set, tallies.ahead());
    let below = match tallies.row(set) {
        Some(row) => offer_nens_below(with_nebs, c, behind, set, limit, row),
        None => {
            let row = tallies.tally(set)?;
            offer_nens_below(with_nebs, c, behind, set, limit, &row)
        }
    };
    match below {
        Some(score) => Ok(Some(Scored {
            tail: parent.tail.front(c),
            low: score.low,
            by: score.by,
        })),
        None => Ok(None),
    }
}

/// Returns those suffixes that are one candidate longer than the suffix of `s` and whose low is below the limit, in candidate
/// order, each with its score. This is one step.
///
/// `s` is scored over the records of the tallies. The only error is lack of memory.
pub fn expand_below<L: Ledger>(
    alloc: Global,
    s: &Scored,
    limit: u32,
    tallies: &mut Tallies,
    steps: &mut Steps<L>,
) -> Result<Vec<Scored>, Memory>
    requires contest { s.now.tail.n ≡ tallies.old.bag.n }
    requires scored { IsScoredOver tallies.old.bag s.now }
    ensures longer { IfOk result (λ longer.
        AreScoredBelow tallies.old.bag limit (children s.now.tail) longer.items) }
    ensures step { steps.new ≡ steps.old + 1 }
    ensures same { tallies.new ≡ tallies.old }
{
    steps.tick();
    let mut longer = Vec::new(alloc);
    for c in 0..s.tail.candidates() {
        let candidate = Candidate(c as u8);
        if !s.tail.has(candidate) {
            if let Some(child) = child_below(s, candidate, limit, tallies)? {
                longer.push(child)?;
            }
        }
    }
    Ok(longer)
}
