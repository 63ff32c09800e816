// The true NEBs of a margin, and which steps they bar.
ghost use Rattle.std.specs.Prelude.{◌≡◌, ◌<◌, ℕ, List, not, ◌&&◌, true, false};
ghost use Rattle.irv_base.specs.Candidates.{has};
ghost use Rattle.assertions.specs.declared.assertion.Assertion.TheVariants.{Neb};
ghost use Rattle.set_tallies.specs.Bags.{AreOf};
ghost use Rattle.fewest.specs.Flows.{is_barred};
ghost use Rattle.fewest.specs.Nens.{is_enough};
ghost use Rattle.nen_cut.specs.Floors.{margin_of};

use irv_base::{CandSet, Candidate};
use set_tallies::Ahead;
use suffix_tree::neb_margin;

/// The margin of the NEB of the winner over the loser, if it is true with at least this margin.
pub(crate) fn margin_of(ahead: &Ahead, w: Candidate, l: Candidate, least: u32) -> Option<u32>
    requires winner { w < ahead.now.n }
    requires loser { l < ahead.now.n }
    ensures { (records : List (List ℕ)) → AreOf ahead.now records
        → result ≡ margin_of ahead.now.n records least (Neb w l) }
{
    if w == l {
        return None;
    }
    let margin = neb_margin(ahead, w, l);
    if margin < least.max(1) {
        return None;
    }
    Some(margin)
}

// Whether the NEB of the winner over the candidate is true with at least this margin, and refutes the step to the set `with`.
fn bars(ahead: &Ahead, w: Candidate, c: Candidate, with: CandSet, least: u32) -> bool
    requires winner { w < ahead.now.n }
    requires loser { c < ahead.now.n }
    ensures { (records : List (List ℕ)) → AreOf ahead.now records
        → result ≡ (is_enough ahead.now.n records least (Neb w c) && not (has with w)) }
{
    if with.has(w) {
        return false;
    }
    margin_of(ahead, w, c, least).is_some()
}

/// Whether a true NEB of at least this margin refutes the step of the candidate from the set: whether it is over the candidate, and its
/// winner is outside the set with the candidate. Only the winners of true NEBs are tried, and there are few if a contest is close.
pub(crate) fn is_barred(ahead: &Ahead, set: CandSet, c: Candidate, least: u32) -> bool
    requires below { c < ahead.now.n }
    requires outside { has set c ≡ false }
    ensures { (records : List (List ℕ)) → AreOf ahead.now records
        → result ≡ is_barred ahead.now.n records least set c }
{
    let with = set.with(c);
    for w in ahead.neb_winners(c) {
        if bars(ahead, *w, c, with, least) {
            return true;
        }
    }
    false
}
