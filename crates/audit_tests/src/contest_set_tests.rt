// Tests of `contest_set`: contests on a single card, which is drawn again and again. The risks come from outside: they were worked out in
// Python.
ghost use Rattle.std.specs.Prelude.{◌≤◌, IfSome, IsTrue, length};
ghost use Rattle.irv_base.specs.Names.{all_differ};
ghost use Rattle.irv_base.specs.declared.limits.TheConstants.{MOST_WORKERS};
ghost use Rattle.ballots.specs.declared.limits.TheConstants.{MOST_CONTESTS};
ghost use Rattle.contest_set.specs.SeenBy.{contest_ids};

use crate::one_card::MANIFEST;
use ballot_reader::read_contests;
use ballots::Ballots;
use contest_set::{ContestEnd, SetFault, SharedTerms, audit_all, read_seen_by};
use desk::{Gate, NoGate};
use file_fault::Rule;
use irv_base::Candidate;
use km_risk::Counts;
use manifest::read_manifest;
use sampler::Seed;
use seen_file::{SeenFault, VRule};
use std::alloc::Global;
use std::sync::atomic::{AtomicU64, Ordering};
use std::thread::Threads;

// The card is for the first candidate of one contest, and for the second candidate of the other.
const BALLOTS: &str = "2\nContest,7,2,1,2\nContest,8,2,1,2\n7,b_1,1\n8,b_1,2\n";

const SEEN: &str = "b_1,7,ballot,1\nb_1,8,missing\n";

// The number of turns for which a contest waits for another.
const PATIENCE: u32 = 100_000_000;

// The contests of a ballot file, if it can be read.
fn contests(alloc: Global, ballots: &str) -> Option<Vec<Ballots>>
    ensures differ { IfSome result (λ list. IsTrue (all_differ (contest_ids list.items))) }
    ensures few { IfSome result (λ list. length list.items ≤ MOST_CONTESTS) }
{
    match read_contests(alloc, ballots.as_bytes()) {
        Ok(list) => Some(list),
        Err(_) => None,
    }
}

// How the contests end, at five draws, a limit of 5 percent and gamma 0.1, if the files can be read.
fn ends<R: AllocGlobal + Threads + Sync, G: Gate + Sync>(
    rt: &R,
    ballots: &str,
    seen: &str,
    workers: u32,
    gate: &G,
) -> Option<Result<Vec<ContestEnd>, SetFault>>
    requires { (1 ≤ workers) × (workers ≤ MOST_WORKERS) }
{
    let alloc = rt.alloc();
    let list = contests(alloc, ballots)?;
    let manifest = read_manifest(alloc, MANIFEST.as_bytes()).ok()?;
    let seen = read_seen_by(alloc, seen.as_bytes(), &manifest, &list).ok()?;
    let terms = SharedTerms {
        seed: Seed::read("2024").ok()?,
        draws: 5,
        limit: 50_000,
        gamma: 100,
        workers,
        nodes: 100,
    };
    Some(audit_all(rt, &list, &manifest, &seen, &terms, gate))
}

// The fault of a seen file, if it has one.
fn seen_fault(alloc: Global, seen: &str) -> Option<SeenFault> {
    let list = contests(alloc, BALLOTS)?;
    let manifest = read_manifest(alloc, MANIFEST.as_bytes()).ok()?;
    read_seen_by(alloc, seen.as_bytes(), &manifest, &list).err()
}

// Whether this candidate wins the contest, by one vote, and its only claim has these counts and this risk.
fn is_audited(end: &ContestEnd, won: Candidate, of: Counts, risk: u64, off: bool) -> bool {
    match end {
        ContestEnd::Audited {
            file,
            counts,
            risks,
            signed,
        } => {
            file.winner() == won
                && file.margin() == 1
                && file.claims().len() == 1
                && counts.as_slice() == [of].as_slice()
                && risks.as_slice() == [risk].as_slice()
                && *signed == off
        }
        _ => false,
    }
}

// The first candidate won the first contest, and each draw found the card as recorded.
fn is_first(end: &ContestEnd) -> bool {
    let clean = Counts {
        n2: 5,
        ..Counts::default()
    };
    is_audited(end, Candidate(0), clean, 48_282_842_081_079_907, true)
}

// The second candidate won the other contest, and each draw missed the card.
fn is_second(end: &ContestEnd) -> bool {
    let missing = Counts {
        n0: 5,
        ..Counts::default()
    };
    is_audited(end, Candidate(1), missing, 1_000_000_000_000_000_000, false)
}

// Both contests end this way.
fn are_both(ends: &[ContestEnd]) -> bool {
    match ends {
        [first, second] => is_first(first) && is_second(second),
        _ => false,
    }
}

#[test]
fn each_contest_ends_by_itself(rt: HostRuntime) {
    for workers in [1, 2, 8] {
        let Some(Ok(both)) = ends(&rt, BALLOTS, SEEN, workers, &NoGate) else {
            panic!(rt; "the ends");
        };
        assert!(rt; are_both(&both));
    }
}

#[test]
fn a_tie_hinders_no_other_contest(rt: HostRuntime) {
    let ballots = "2\nContest,7,2,1,2\nContest,8,2,1,2\n7,b_1,1\n";
    let Some(Ok(both)) = ends(&rt, ballots, "b_1,7,ballot,1\n", 2, &NoGate) else {
        panic!(rt; "the ends");
    };
    assert!(rt; both.len() == 2);
    assert!(rt; is_first(&both[0]));
    let ContestEnd::Tied { round, tied, tally } = &both[1] else {
        panic!(rt; "a tie");
    };
    assert!(rt; *round == 1 && *tally == 0);
    assert!(rt; tied.has(Candidate(0)) && tied.has(Candidate(1)));
}

#[test]
fn a_broken_record_is_told(rt: HostRuntime) {
    let broken = [
        ("b_1,9,missing\nb_1,7,ballot,1\n", VRule::V6, 1),
        (
            "b_1,7,ballot,1\nb_1,8,missing\nb_1,7,missing\n",
            VRule::V3,
            3,
        ),
        ("b_1,7,ballot,1\n\nb_1,8\n", VRule::V1, 2),
        ("b_1,7,missing,1\n", VRule::V1, 1),
        ("b_2,9,missing\n", VRule::V2, 1),
        ("b_1,7,ballot,3\n", VRule::V5, 1),
    ];
    for (seen, rule, at) in broken {
        assert!(rt; seen_fault(rt.alloc(), seen) == Some(SeenFault::Refused { rule, at }));
    }
    assert!(rt; VRule::V6.name() == "V6");
}

#[test]
fn the_first_contest_without_a_card_is_told(rt: HostRuntime) {
    let ballots = "2\nContest,7,2,1,2\nContest,8,2,1,2\n8,b_2,2\n7,b_2,1\n";
    let Some(Err(fault)) = ends(&rt, ballots, SEEN, 2, &NoGate) else {
        panic!(rt; "a fault");
    };
    assert!(rt; fault == SetFault::NoCard { at: 5 });
}

#[test]
fn the_first_contest_without_a_record_is_told(rt: HostRuntime) {
    let lacking = [("b_1,8,missing\n", 0), ("b_1,7,ballot,1\n", 1), ("", 0)];
    for (seen, contest) in lacking {
        let Some(Err(fault)) = ends(&rt, BALLOTS, seen, 2, &NoGate) else {
            panic!(rt; "a fault");
        };
        assert!(rt;
            fault
                == SetFault::NoRecord {
                    contest,
                    card: 1,
                    k: 1
                }
        );
    }
}

/// Holds up the first contest until the second takes a piece, for at most this many turns.
#[derive(Drop)]
struct Held {
    turns: u32,
    taken: AtomicU64,
    late: AtomicU64,
}

impl Held {
    fn new(turns: u32) -> Held {
        Held {
            turns,
            taken: AtomicU64::new(0),
            late: AtomicU64::new(0),
        }
    }

    fn was_taken(&self) -> bool {
        self.taken.load(Ordering::SeqCst) == 1
    }

    fn was_in_time(&self) -> bool {
        self.was_taken() && self.late.load(Ordering::SeqCst) == 0
    }
}

impl Gate for Held {
    fn at(&self, contest: u32, _piece: u32) {
        if contest != 0 {
            self.taken.store(1, Ordering::SeqCst);
            return;
        }
        for _turn in 0..self.turns {
            if self.was_taken() {
                return;
            }
        }
        self.late.store(1, Ordering::SeqCst);
    }
}

#[test]
fn two_contests_run_side_by_side(rt: HostRuntime) {
    let held = Held::new(PATIENCE);
    let Some(Ok(both)) = ends(&rt, BALLOTS, SEEN, 2, &held) else {
        panic!(rt; "the ends");
    };
    assert!(rt; are_both(&both));
    assert!(rt; held.was_in_time());
}

#[test]
fn one_worker_audits_one_contest_after_the_other(rt: HostRuntime) {
    let held = Held::new(1_000);
    let Some(Ok(both)) = ends(&rt, BALLOTS, SEEN, 1, &held) else {
        panic!(rt; "the ends");
    };
    assert!(rt; are_both(&both));
    assert!(rt; !held.was_in_time());
}
