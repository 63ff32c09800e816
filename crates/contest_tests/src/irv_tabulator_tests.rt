// Tests of tabulation on contests that were counted by hand, with and without ties.

ghost use Rattle.std.specs.Prelude.{◌<◌, ◌≤◌, length, All};
ghost use Rattle.irv_base.specs.declared.limits.TheConstants.{FEWEST_CANDIDATES, ROOM, MOST_RECORDS};

use crate::contests::{
    ONE, THREE, TWO, ZERO, counted_of, county_ballots, one_against_two, only, tie_at_the_bottom,
    tie_for_the_win, tie_that_decides,
};
use irv_base::{CandSet, Memory, Ranking};
use irv_tabulator::{FirstTie, Round, TabFault, Tabulated, tabulate};
use std::thread::Threads;

#[test]
fn elects_the_second(rt: HostRuntime) {
    let rankings = one_against_two();
    let counted = counted_of(&rt, 2, rankings.as_slice(), 1).expect(&rt, "counted");
    let mut tallies = counted.tallies().expect(&rt, "tallies");
    match tabulate(rt.alloc(), &mut tallies) {
        Ok(tabulated) => {
            assert!(rt; tabulated.winner == ONE);
            assert!(rt; tabulated.order.candidates() == [ZERO, ONE].as_slice());
        }
        Err(_) => assert!(rt; false),
    }
}

// Whether the round has these tallies, and this many exhausted ballots.
fn says(round: &Round, tallies: [u32; 4], exhausted: u32) -> bool {
    round.tallies.as_slice() == tallies.as_slice() && round.exhausted == exhausted
}

#[test]
fn county_contest(rt: HostRuntime) {
    let rankings = county_ballots();
    let counted = counted_of(&rt, 4, rankings.as_slice(), 1).expect(&rt, "counted");
    let mut tallies = counted.tallies().expect(&rt, "tallies");
    match tabulate(rt.alloc(), &mut tallies) {
        Ok(tabulated) => {
            let rounds = tabulated.rounds.as_slice();
            assert!(rt; rounds.len() == 3);
            assert!(rt; says(&rounds[0], [1, 4, 3, 2], 0));
            assert!(rt; says(&rounds[1], [0, 5, 3, 2], 0));
            assert!(rt; says(&rounds[2], [0, 5, 4, 0], 1));
            assert!(rt; tabulated.order.candidates() == [ZERO, THREE, TWO, ONE].as_slice());
            assert!(rt; tabulated.tie().is_none());
        }
        Err(_) => assert!(rt; false),
    }
}

// The tabulation of this many candidates.
fn tabulated<R: AllocGlobal + Threads + Sync>(
    rt: &R,
    n: u32,
    rankings: &[Ranking],
) -> Result<Tabulated, Memory>
    requires fewest { FEWEST_CANDIDATES ≤ n }
    requires room { n ≤ ROOM }
    requires most { length rankings.now ≤ MOST_RECORDS }
    requires below { All (λ ranking. All (λ c. c < n) ranking) rankings.now }
{
    let counted = counted_of(rt, n, rankings, 1)?;
    let mut tallies = counted.tallies()?;
    match tabulate(rt.alloc(), &mut tallies) {
        Ok(tabulated) => Ok(tabulated),
        Err(TabFault::Memory) => Err(Memory),
    }
}

// Whether the first tie is in this round, from 1, with this many votes for each of these candidates.
fn ties_in(tabulated: &Tabulated, at: u32, who: CandSet, votes: u32) -> bool {
    match tabulated.tie() {
        Some(FirstTie { round, tied, tally }) => round == at && tied == who && tally == votes,
        None => false,
    }
}

#[test]
fn tie_of_two_alone(rt: HostRuntime) {
    let both = CandSet::empty().with(ZERO).with(ONE);
    let rankings = [only(ZERO), only(ONE)];
    let one_each = tabulated(&rt, 2, rankings.as_slice()).expect(&rt, "tabulated");
    assert!(rt; one_each.order.candidates() == [ZERO, ONE].as_slice());
    assert!(rt; ties_in(&one_each, 1, both, 1));
    let none = tabulated(&rt, 2, &[]).expect(&rt, "tabulated");
    assert!(rt; none.order.candidates() == [ZERO, ONE].as_slice());
    assert!(rt; ties_in(&none, 1, both, 0));
}

#[test]
fn tie_for_the_last_place(rt: HostRuntime) {
    let rankings = tie_at_the_bottom();
    let tab = tabulated(&rt, 3, rankings.as_slice()).expect(&rt, "tabulated");
    assert!(rt; tab.winner == ZERO);
    assert!(rt; tab.order.candidates() == [ONE, TWO, ZERO].as_slice());
    assert!(rt; tab.rounds.len() == 2);
    assert!(rt; tab.rounds[0].tallies.as_slice() == [3, 0, 0].as_slice());
    assert!(rt; tab.rounds[0].tied == CandSet::empty().with(ONE).with(TWO));
    assert!(rt; tab.rounds[1].tallies.as_slice() == [3, 0, 0].as_slice());
    assert!(rt; tab.rounds[1].tied == CandSet::empty().with(TWO));
    assert!(rt; ties_in(&tab, 1, CandSet::empty().with(ONE).with(TWO), 0));
}

#[test]
fn tie_in_a_later_round(rt: HostRuntime) {
    let rankings = tie_for_the_win();
    let tab = tabulated(&rt, 3, rankings.as_slice()).expect(&rt, "tabulated");
    assert!(rt; tab.order.candidates() == [TWO, ZERO, ONE].as_slice());
    assert!(rt; ties_in(&tab, 2, CandSet::empty().with(ZERO).with(ONE), 2));
}

// Candidate 1 is eliminated first, and its ballots go to 2.
#[test]
fn least_number_of_the_tied_leaves(rt: HostRuntime) {
    let rankings = tie_that_decides();
    let tab = tabulated(&rt, 3, rankings.as_slice()).expect(&rt, "tabulated");
    assert!(rt; tab.order.candidates() == [ONE, ZERO, TWO].as_slice());
    assert!(rt; ties_in(&tab, 1, CandSet::empty().with(ONE).with(TWO), 2));
}

// Without a ballot, all remaining candidates tie in every round.
#[test]
fn first_of_several_ties(rt: HostRuntime) {
    let tab = tabulated(&rt, 3, &[]).expect(&rt, "tabulated");
    assert!(rt; tab.order.candidates() == [ZERO, ONE, TWO].as_slice());
    assert!(rt; tab.rounds.len() == 2);
    assert!(rt; tab.rounds[1].tied == CandSet::empty().with(ONE).with(TWO));
    assert!(rt; ties_in(&tab, 1, CandSet::empty().with(ZERO).with(ONE).with(TWO), 0));
}
