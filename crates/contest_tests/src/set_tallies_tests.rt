// Tests of counts of ballots: contests whose rows of tallies were counted by hand, and rows of all sets compared with a plain count.
ghost use Rattle.std.specs.Prelude.{◌≡◌, ◌<◌, ◌≤◌, ◌^◌, All, IfOk, length};
ghost use Rattle.irv_base.specs.declared.limits.TheConstants.{FEWEST_CANDIDATES, ROOM, MOST_RECORDS, MOST_WORKERS};

use crate::contests::{FOUR, ONE, THREE, TWO, ZERO, both, counted_of, one_against_two, only};
use irv_base::{CandSet, Candidate, MOST_WORKERS, Memory, Ranking};
use set_tallies::Tallies;
use std::alloc::Global;
use std::process::Abort;
use std::thread::Threads;

// This few candidates have sums whatever the number of ballots.
const FEW: u32 = 5;

// This many candidates have no sums if there are ten ballots, so their rows are counted.
const MANY: u32 = 17;

// The tests look at the rows of the sets of this many candidates.
const LOOKED_AT: u32 = 13;

// Ten ballots this many times are one share for one worker, two even shares for two, and two full shares and part of a third for more
// workers.
const TIMES: u32 = 1001;

#[test]
fn counts_first_choices(rt: HostRuntime) {
    let rankings = one_against_two();
    let counted = counted_of(&rt, 2, rankings.as_slice(), 1).expect(&rt, "counted");
    let mut tallies = counted.tallies().expect(&rt, "tallies");
    assert!(rt; tallies.records() == 3);
    assert!(rt; tallies.ahead().first(ONE) == 2);
    assert!(rt; tallies.ahead().ahead(ZERO, ONE) == 1);
    let one = CandSet::empty().with(ONE);
    let row = tallies.tally(one).expect(&rt, "row");
    assert!(rt; row.as_slice() == [0, 2].as_slice());
    let lent = tallies.row(one).expect(&rt, "lent");
    assert!(rt; lent.get(1).copied() == Some(2));
}

// The number of ballots on which candidate 10 is the first of the set.
fn votes_of_10(tallies: &mut Tallies, set: CandSet) -> Option<u32>
    requires { set < 2 ^ tallies.old.bag.n }
    ensures { tallies.new ≡ tallies.old }
{
    let row = tallies.tally(set).ok()?;
    row.get(10).copied()
}

// A row that was kept is still that of its own set after another row is kept.
#[test]
fn keeps_each_row_under_its_set(rt: HostRuntime) {
    let rankings = [only(ZERO), only(Candidate(10)), only(Candidate(10))];
    let counted = counted_of(&rt, 19, rankings.as_slice(), 1).expect(&rt, "counted");
    let mut tallies = counted.tallies().expect(&rt, "tallies");
    let zero = CandSet::empty().with(ZERO);
    let ten = CandSet::empty().with(Candidate(10));
    assert!(rt; votes_of_10(&mut tallies, zero) == Some(0));
    assert!(rt; votes_of_10(&mut tallies, zero) == Some(0));
    assert!(rt; votes_of_10(&mut tallies, ten) == Some(2));
    assert!(rt; votes_of_10(&mut tallies, ten) == Some(2));
    assert!(rt; votes_of_10(&mut tallies, zero) == Some(0));
}

// Ten ballots for five candidates.
fn ballots() -> [Ranking; 10]
    ensures ten { length result ≡ 10 }
    ensures few { All (λ ranking. All (λ c. c < FEW) ranking) result }
    ensures many { All (λ ranking. All (λ c. c < MANY) ranking) result }
{
    [
        Ranking::of(&[ZERO, ONE, TWO]),
        Ranking::of(&[ONE, TWO, ZERO]),
        Ranking::of(&[TWO, ZERO, ONE]),
        both(THREE, FOUR),
        both(FOUR, THREE),
        both(ZERO, THREE),
        Ranking::of(&[ONE, FOUR, TWO]),
        both(TWO, ONE),
        both(TWO, ONE),
        Ranking::of(&[THREE, ZERO, FOUR]),
    ]
}

fn set_numbered(number: u32) -> CandSet {
    let mut set = CandSet::empty();
    for c in 0..LOOKED_AT as u8 {
        if (number >> c) & 1 == 1 {
            set = set.with(Candidate(c));
        }
    }
    set
}

fn votes_of(tallies: &mut Tallies, set: CandSet) -> Option<Vec<u32>>
    ensures { tallies.new ≡ tallies.old }
{
    if u64::from(set.number()) >= 1u64 << tallies.candidates() {
        return None;
    }
    tallies.tally(set).ok()
}

// The row of each set has, for each candidate, the number of ballots that have the candidate first of the set, each ballot counted `times`
// times.
fn check_rows(rt: &impl Abort, tallies: &mut Tallies, times: usize) {
    for number in 1..1u32 << tallies.candidates().min(LOOKED_AT) {
        let set = set_numbered(number);
        let row = votes_of(tallies, set).expect(rt, "row");
        for (c, votes) in row.iter().enumerate() {
            let first = ballots()
                .iter()
                .filter(|r| r.first_in(set).is_some_and(|d| d.index() == c))
                .count();
            assert_eq!(rt;
                *votes as usize,
                first.saturating_mul(times),
                "candidate {c} of {number}"
            );
        }
    }
}

// Counts the ballots with these rankings, each of which occurs `times` times, and looks at the rows.
fn check_count<R: Abort + AllocGlobal + Threads + Sync>(
    rt: &R,
    n: u32,
    rankings: &[Ranking],
    workers: u32,
    times: usize,
)
    requires fewest { FEWEST_CANDIDATES ≤ n }
    requires room { n ≤ ROOM }
    requires most { length rankings.now ≤ MOST_RECORDS }
    requires below { All (λ ranking. All (λ c. c < n) ranking) rankings.now }
    requires workers { (1 ≤ workers) × (workers ≤ MOST_WORKERS) }
{
    let counted = counted_of(rt, n, rankings, workers).expect(rt, "counted");
    let mut tallies = counted.tallies().expect(rt, "tallies");
    check_rows(rt, &mut tallies, times);
}

#[test]
fn sums_say_what_the_ballots_say(rt: HostRuntime) {
    check_count(&rt, FEW, ballots().as_slice(), 1, 1);
}

#[test]
fn entries_say_what_the_ballots_say(rt: HostRuntime) {
    check_count(&rt, MANY, ballots().as_slice(), 1, 1);
}

// The ballots, over and over.
fn many_ballots(alloc: Global) -> Result<Vec<Ranking>, Memory>
    ensures most { IfOk result (λ rankings. length rankings.items ≤ MOST_RECORDS) }
    ensures few { IfOk result (λ rankings.
        All (λ ranking. All (λ c. c < FEW) ranking) rankings.items) }
{
    let mut rankings = Vec::new(alloc);
    for _time in 0..TIMES {
        rankings.extend_from_slice(&ballots())?;
    }
    Ok(rankings)
}

#[test]
fn any_number_of_workers_counts_all_ballots(rt: HostRuntime) {
    let rankings = many_ballots(rt.alloc()).expect(&rt, "rankings");
    for workers in 1..=MOST_WORKERS {
        check_count(&rt, FEW, &rankings, workers, TIMES as usize);
    }
}
