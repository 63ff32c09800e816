// Tests of scored suffixes: each call that allocates once, on a contest of three ballots that was counted by hand.
ghost use Rattle.std.specs.Prelude.{◌≡◌, ◌<◌, IfOk};
ghost use Rattle.suffix_tree.specs.Suffixes.{children};
ghost use Rattle.suffix_tree.specs.Scores.{AreScoredBelow, IsScoredOver};

use crate::contests::{ZERO, counted_of, one_against_two};
use irv_base::{Memory, Steps};
use set_tallies::Tallies;
use std::alloc::Global;
use std::marker::Brand;
use std::sync::ledger::{Blank, Ledger};
use suffix_tree::{Scored, Tail, expand_below, score};

fn longer<L: Ledger>(
    alloc: Global,
    blank: Blank,
    s: &Scored,
    limit: u32,
    tallies: &mut Tallies,
) -> Result<Vec<Scored>, Memory>
    requires name { blank.name ≡ L.name }
    requires parts { blank.parts ≡ L.parts }
    requires some { 0 < blank.parts }
    requires contest { s.now.tail.n ≡ tallies.old.bag.n }
    requires scored { IsScoredOver tallies.old.bag s.now }
    ensures { IfOk result (λ longer.
        AreScoredBelow tallies.old.bag limit (children s.now.tail) longer.items) }
{
    let mut steps = Steps::<L>::new(blank);
    expand_below(alloc, s, limit, tallies, &mut steps)
}

#[test]
fn scores_two_candidates(rt: HostRuntime) {
    let rankings = one_against_two();
    let counted = counted_of(&rt, 2, rankings.as_slice(), 1).expect(&rt, "counted");
    let mut tallies = counted.tallies().expect(&rt, "tallies");
    let alone = score(&Tail::last(2, ZERO), &mut tallies).expect(&rt, "score");
    assert!(rt; alone.low == 1);
    let more = longer::<Brand>(rt.alloc(), Blank::new(1), &alone, 2, &mut tallies).expect(
        &rt, "children",
    );
    assert!(rt; more.len() == 1);
    let child = &more[0];
    assert!(rt; child.low == 1);
    assert!(rt; child.tail.whole().is_some());
}
