// Tests of the search for the best margin: contests that were counted by hand, turns of a front of one suffix, and workers that a gate
// holds up.
ghost use Rattle.std.specs.Prelude.{◌≡◌, ◌<◌, ◌≤◌, All, length};
ghost use Rattle.irv_base.specs.declared.limits.TheConstants.{FEWEST_CANDIDATES, ROOM, MOST_RECORDS, MOST_WORKERS};

use crate::contests::{
    ONE, TWO, ZERO, ballots_of_three, both, counted_of, only, tie_for_the_win, tie_that_decides,
};
use bound_search::{Front, RaceEnd, RaceFault, Turn, WorkerEnd, race, tails_of, work};
use desk::{Gate, NoGate};
use irv_base::{MOST_WORKERS, Memory, Ranking, Steps};
use irv_tabulator::tabulate;
use set_tallies::Tallies;
use shared_witness::{Race, Seats};
use std::alloc::Global;
use std::marker::Brand;
use std::sync::atomic::{AtomicU64, Ordering};
use std::sync::ledger::{Blank, Ledger};
use std::thread::Threads;
use suffix_tree::{Tail, score};

// The number of turns for which a worker is held up, which is enough for another to begin on a busy machine.
const PATIENCE: u32 = 4_000_000_000;

/// Counts how often it is called, and holds up piece 0 until another piece is taken, for at most this many turns.
#[derive(Drop)]
struct Held {
    until: u32,
    turns: u32,
    calls: AtomicU64,
    taken: AtomicU64,
    late: AtomicU64,
}

impl Held {
    fn new(until: u32, turns: u32) -> Held {
        Held {
            until,
            turns,
            calls: AtomicU64::new(0),
            taken: AtomicU64::new(0),
            late: AtomicU64::new(0),
        }
    }

    fn was_taken(&self) -> bool {
        self.taken.load(Ordering::SeqCst) == 1
    }

    fn was_in_time(&self) -> bool {
        self.was_taken() && self.late.load(Ordering::SeqCst) == 0
    }
}

impl Gate for Held {
    fn at(&self, _worker: u32, piece: u32) {
        self.calls.fetch_add(1, Ordering::SeqCst);
        if piece == self.until {
            self.taken.store(1, Ordering::SeqCst);
        }
        if piece == 0 {
            for _turn in 0..self.turns {
                if self.was_taken() {
                    return;
                }
            }
            self.late.store(1, Ordering::SeqCst);
        }
    }
}

// Candidate 0 twice, 1 once.
fn two_to_one() -> [Ranking; 3]
    ensures { All (λ ranking. All (λ c. c < 2) ranking) result }
{
    [only(ZERO), only(ONE), only(ZERO)]
}

// Candidate 2 five times, 1 before 0 four times, 0 before 1 three times.
fn bound_shared() -> [Ranking; 12]
    ensures { All (λ ranking. All (λ c. c < 3) ranking) result }
{
    let a = only(TWO);
    let b = both(ONE, ZERO);
    let c = both(ZERO, ONE);
    [a, a, a, a, a, b, b, b, b, c, c, c]
}

fn race_of<R: AllocGlobal + Threads + Sync, G: Gate + Sync>(
    rt: &R,
    n: u32,
    rankings: &[Ranking],
    workers: u32,
    nodes: u32,
    gate: &G,
) -> Result<RaceEnd, RaceFault>
    requires fewest { FEWEST_CANDIDATES ≤ n }
    requires room { n ≤ ROOM }
    requires most { length rankings.now ≤ MOST_RECORDS }
    requires below { All (λ ranking. All (λ c. c < n) ranking) rankings.now }
    requires workers { (1 ≤ workers) × (workers ≤ MOST_WORKERS) }
{
    let alloc = rt.alloc();
    let counted = counted_of(rt, n, rankings, workers)?;
    let mut tallies = counted.tallies()?;
    match tabulate(alloc, &mut tallies) {
        Ok(tab) => race(rt, &counted, &tab, workers, nodes, gate),
        Err(_) => Err(RaceFault::Memory),
    }
}

// The order 1, 0, 2 has 1 against it. The piece 0, 2 is expanded; the last piece is expanded if another worker takes it before the order
// is found.
fn is_found<R: AllocGlobal + Threads + Sync, G: Gate + Sync>(
    rt: &R,
    workers: u32,
    nodes: u32,
    gate: &G,
) -> bool
    requires { (1 ≤ workers) × (workers ≤ MOST_WORKERS) }
{
    match race_of(rt, 3, ballots_of_three().as_slice(), workers, nodes, gate) {
        Ok(end) => {
            end.margin == 1
                && end.order.candidates() == [ONE, ZERO, TWO].as_slice()
                && end.pieces.len() == 4
                && end.pieces[0].tail.list() == [ONE, ZERO].as_slice()
                && end.pieces[1].tail.list() == [TWO, ZERO].as_slice()
                && end.pieces[2].tail.list() == [ZERO, TWO].as_slice()
                && end.pieces[3].tail.list() == [ONE, TWO].as_slice()
                && end.pieces[0].expanded == 0
                && end.pieces[1].expanded == 0
                && end.pieces[2].expanded == 1
                && (end.pieces[3].expanded == 0 || workers > 1 && end.pieces[3].expanded == 1)
                && end.workers.len() == workers as usize
        }
        Err(_) => false,
    }
}

#[test]
fn finds_an_order_less_hard_than_the_start(rt: HostRuntime) {
    let gate = Held::new(0, 0);
    assert!(rt; is_found(&rt, 1, 100_000, &gate));
    assert!(rt; gate.calls.load(Ordering::SeqCst) == 4);
    assert!(rt; is_found(&rt, 1, 1, &NoGate));
    for workers in 1..9 {
        assert!(rt; is_found(&rt, workers, 3, &NoGate));
    }
}

#[test]
fn spends_no_node(rt: HostRuntime) {
    match race_of(&rt, 3, ballots_of_three().as_slice(), 1, 0, &NoGate).err() {
        Some(fault) => match fault {
            RaceFault::Spent { last, upper, .. } => {
                assert!(rt; last == TWO);
                assert!(rt; upper == 2);
            }
            RaceFault::Memory => assert!(rt; false),
        },
        None => assert!(rt; false),
    }
}

#[test]
fn keeps_the_start_of_two(rt: HostRuntime) {
    let rankings = two_to_one();
    match race_of(&rt, 2, rankings.as_slice(), 2, 1, &NoGate) {
        Ok(end) => {
            assert!(rt; end.margin == 1);
            let found = end.order.candidates();
            assert!(rt; found == [ZERO, ONE].as_slice());
        }
        Err(_) => assert!(rt; false),
    }
}

// The bound is 0 from the start, so nothing is below it.
#[test]
fn expands_nothing_where_the_start_is_possible(rt: HostRuntime) {
    let rankings = tie_for_the_win();
    for nodes in [0, 1] {
        match race_of(&rt, 3, rankings.as_slice(), 2, nodes, &NoGate) {
            Ok(end) => {
                assert!(rt; end.margin == 0);
                assert!(rt; end.order.candidates() == [TWO, ONE, ZERO].as_slice());
                assert!(rt; end.pieces.len() == 4);
                for piece in end.pieces.iter() {
                    assert!(rt; piece.expanded == 0);
                }
            }
            Err(_) => assert!(rt; false),
        }
    }
}

// The start has 1 against it; an order of hardness 0 is found on the way.
#[test]
fn finds_a_possible_order(rt: HostRuntime) {
    let rankings = tie_that_decides();
    for workers in [1, 2, MOST_WORKERS] {
        match race_of(&rt, 3, rankings.as_slice(), workers, 100_000, &NoGate) {
            Ok(end) => {
                assert!(rt; end.margin == 0);
                assert!(rt; end.order.candidates() == [TWO, ZERO, ONE].as_slice());
            }
            Err(_) => assert!(rt; false),
        }
    }
}

// Without a node it isn't known whether the tie matters.
#[test]
fn spends_no_node_on_a_tie(rt: HostRuntime) {
    let rankings = tie_that_decides();
    match race_of(&rt, 3, rankings.as_slice(), 1, 0, &NoGate).err() {
        Some(fault) => match fault {
            RaceFault::Spent { last, upper, order } => {
                assert!(rt; last == ONE);
                assert!(rt; upper == 1);
                assert!(rt; order.candidates() == [ONE, TWO, ZERO].as_slice());
            }
            RaceFault::Memory => assert!(rt; false),
        },
        None => assert!(rt; false),
    }
}

#[test]
fn workers_stand_side_by_side(rt: HostRuntime) {
    let gate = Held::new(1, PATIENCE);
    assert!(rt; is_found(&rt, 2, 100_000, &gate));
    assert!(rt; gate.was_in_time());
}

#[test]
fn workers_share_the_bound(rt: HostRuntime) {
    let gate = Held::new(2, PATIENCE);
    match race_of(&rt, 3, bound_shared().as_slice(), 2, 100_000, &gate) {
        Ok(end) => {
            assert!(rt; end.margin == 1);
            let unexpanded = end.pieces.len() == 4 && end.pieces[0].expanded == 0;
            assert!(rt; unexpanded);
        }
        Err(_) => assert!(rt; false),
    }
    assert!(rt; gate.was_in_time());
}

// The search found the order 1, 0, 2, and expanded only the third piece.
fn took_all(end: &WorkerEnd) -> bool {
    let found = match &end.best {
        Some(best) => { best.margin == 1 && best.order.candidates() == [ONE, ZERO, TWO].as_slice() }
        None => false,
    };
    found
        && end.spent.is_empty()
        && end.ends.len() == 4
        && end.ends[0].expanded == 0
        && end.ends[1].expanded == 0
        && end.ends[2].expanded == 1
        && end.ends[3].expanded == 0
}

// The end of one worker over the only seat of a race, and the bound at the end.
fn alone<R: AllocGlobal + Threads + Sync>(rt: &R, nodes: u32) -> Result<(WorkerEnd, u32), Memory> {
    let alloc = rt.alloc();
    let rankings = ballots_of_three();
    let counted = counted_of(rt, 3, rankings.as_slice(), 1)?;
    let mut tallies = counted.tallies()?;
    let tails = tails_of(alloc, 3, ONE)?;
    let Seats { race, mut seats } = Race::new(alloc, 4, 2, 1)?;
    let end = work(
        alloc,
        &race,
        &mut seats[0],
        0,
        &tails,
        nodes,
        &mut tallies,
        &NoGate,
    )?;
    let bound = race.finish(seats);
    Ok((end, bound))
}

#[test]
fn one_worker_takes_all(rt: HostRuntime) {
    for nodes in [100_000, 1] {
        let (end, bound) = alone(&rt, nodes).expect(&rt, "memory");
        assert!(rt; bound == 1 && took_all(&end));
    }
}

// Two looks for each of the pieces that close at once, one for the piece that runs out of budget, and none for the last piece.
#[test]
fn skips_what_comes_after_a_spent_piece(rt: HostRuntime) {
    let (end, bound) = alone(&rt, 0).expect(&rt, "memory");
    assert!(rt; bound == 2);
    assert!(rt; end.spent.as_slice() == [2].as_slice());
    assert!(rt; end.skipped.as_slice() == [3].as_slice());
    assert!(rt; end.looks == 5);
}

// Only the first turn of the front of candidate 1.
fn first_turn<L: Ledger>(
    alloc: Global,
    blank: Blank,
    bound: u32,
    left: u32,
    tallies: &mut Tallies,
) -> Result<Turn, Memory>
    requires name { blank.name ≡ L.name }
    requires parts { blank.parts ≡ L.parts }
    requires some { 0 < blank.parts }
{
    let mut steps = Steps::<L>::new(blank);
    let start = score(&Tail::last(tallies.candidates(), ONE), tallies)?;
    let mut front = Front::new(alloc, start)?;
    front.turn(alloc, bound, left, tallies, &mut steps)
}

// There are two candidates, with two ballots for 0 and one for 1. The suffix 1 and the order 0, 1 have 1 against them.
fn turn_of_two<R: AllocGlobal + Threads + Sync>(
    rt: &R,
    bound: u32,
    left: u32,
) -> Result<Turn, Memory> {
    let rankings = two_to_one();
    let counted = counted_of(rt, 2, rankings.as_slice(), 1)?;
    let mut tallies = counted.tallies()?;
    first_turn::<Brand>(rt.alloc(), Blank::new(1), bound, left, &mut tallies)
}

#[test]
fn closes_at_the_bound(rt: HostRuntime) {
    let turn = turn_of_two(&rt, 1, 1).expect(&rt, "turn");
    assert!(rt; matches!(&turn, Turn::Closed));
}

#[test]
fn spends_nothing(rt: HostRuntime) {
    let turn = turn_of_two(&rt, 2, 0).expect(&rt, "turn");
    assert!(rt; matches!(&turn, Turn::Spent));
}

#[test]
fn finds_below_the_bound(rt: HostRuntime) {
    match turn_of_two(&rt, 2, 1).expect(&rt, "turn") {
        Turn::Found { order, margin } => {
            assert!(rt; margin == 1);
            assert!(rt; order.candidates() == [ZERO, ONE].as_slice());
        }
        _ => assert!(rt; false),
    }
}
