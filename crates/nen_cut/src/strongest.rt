// The strongest NEN of a candidate in a set.
ghost use Rattle.std.specs.Prelude.{◌≡◌, ◌<◌, ◌≤◌, ◌^◌, ℕ, List, true, length};
ghost use Rattle.irv_base.specs.Candidates.{has};
ghost use Rattle.irv_base.specs.declared.limits.TheConstants.{ROOM};
ghost use Rattle.set_tallies.specs.Bags.{HasTallies};
ghost use Rattle.nen_cut.specs.Floors.{IsCutter};

use irv_base::{CandSet, Candidate};

/// The loser of a NEN, and its margin.
#[derive(Clone, Copy)]
pub(crate) struct Strongest {
    pub loser: Candidate,
    pub margin: u32,
}

/// The NEN of the largest margin that says that the candidate isn't eliminated next from the set, if its margin is at least this one. The
/// row has the tallies of the set.
pub(crate) fn strongest_nen(
    n: u32,
    rest: CandSet,
    w: Candidate,
    row: &[u32],
    least: u32,
) -> Option<Strongest>
    requires room { n ≤ ROOM }
    requires below { w < n }
    requires set { rest < 2 ^ n }
    requires inside { has rest w ≡ true }
    requires one_each { length row.now ≡ n }
    ensures { (records : List (List ℕ)) → HasTallies records n rest row.now
        → IsCutter n records least w rest result }
{
    let mut margin = 0;
    let mut loser = w;
    for l in 0..n as u8 {
        let l = Candidate(l);
        let by = row[w.index()].saturating_sub(row[l.index()]);
        if by > margin && rest.has(l) {
            margin = by;
            loser = l;
        }
    }
    if margin == 0 || margin < least {
        return None;
    }
    Some(Strongest { loser, margin })
}
