// A search has as many workers side by side as its words ask for, and an audit of all contests searches as many contests side by side.
use crate::cases::{held, is_as_wanted, ran_with};
use crate::contests_table::BOTH;
use crate::table::PRINTED;
use desk::Gate;
use std::sync::atomic::{AtomicU64, Ordering};
use std::test::Fail;

// The number of turns for which a worker waits for another, enough for that one to begin on a busy machine.
const PATIENCE: u32 = 4_000_000_000;

// The number of turns after which a worker stops waiting.
const HASTE: u32 = 1_000;

/// Makes each of two workers wait until the other arrives, for this many turns. In an audit of all contests, it does so for two contests.
#[derive(Drop)]
struct Both {
    turns: u32,
    first: AtomicU64,
    second: AtomicU64,
    late: AtomicU64,
}

impl Both {
    fn new(turns: u32) -> Both {
        Both {
            turns,
            first: AtomicU64::new(0),
            second: AtomicU64::new(0),
            late: AtomicU64::new(0),
        }
    }

    fn came(&self) -> bool {
        self.first.load(Ordering::SeqCst) == 1 && self.second.load(Ordering::SeqCst) == 1
    }

    fn met(&self) -> bool {
        self.came() && self.late.load(Ordering::SeqCst) == 0
    }
}

impl Gate for Both {
    fn at(&self, worker: u32, _piece: u32) {
        if worker == 0 {
            self.first.store(1, Ordering::SeqCst);
        } else {
            self.second.store(1, Ordering::SeqCst);
        }
        for _turn in 0..self.turns {
            if self.came() {
                return;
            }
        }
        self.late.store(1, Ordering::SeqCst);
    }
}

#[test]
fn two_workers_meet(rt: HostRuntime) -> Result<(), Fail> {
    let both = Both::new(PATIENCE);
    let words = ["search", "row1.raire", "--workers", "2"];
    let files = held(rt.alloc())?;
    let ran = ran_with(&rt, files, words.as_slice(), &[], &[], &both)?;
    assert!(rt; is_as_wanted(&ran, 0, PRINTED));
    assert!(rt; both.met());
    Ok(())
}

#[test]
fn one_worker_meets_nobody(rt: HostRuntime) -> Result<(), Fail> {
    let both = Both::new(HASTE);
    let words = ["search", "row1.raire", "--workers", "1"];
    let files = held(rt.alloc())?;
    let ran = ran_with(&rt, files, words.as_slice(), &[], &[], &both)?;
    assert!(rt; is_as_wanted(&ran, 0, PRINTED));
    assert!(rt; !both.met());
    Ok(())
}

#[test]
fn two_workers_of_a_trial_meet(rt: HostRuntime) -> Result<(), Fail> {
    let both = Both::new(PATIENCE);
    let words = ["trial", "--number", "7", "--workers", "2"];
    let files = held(rt.alloc())?;
    let ran = ran_with(&rt, files, words.as_slice(), &[], &[], &both)?;
    assert!(rt; ran.status == 0);
    assert!(rt; both.met());
    Ok(())
}

#[test]
fn two_contests_meet(rt: HostRuntime) -> Result<(), Fail> {
    let both = Both::new(PATIENCE);
    let words = [
        "contests",
        "two_contests.raire",
        "m.csv",
        "seen_of_two.csv",
        "--seed=2024",
        "--draws=5",
        "--workers=2",
    ];
    let files = held(rt.alloc())?;
    let ran = ran_with(&rt, files, words.as_slice(), &[], &[], &both)?;
    assert!(rt; is_as_wanted(&ran, 10, BOTH));
    assert!(rt; both.met());
    Ok(())
}

#[test]
fn one_worker_searches_one_contest_after_the_other(rt: HostRuntime) -> Result<(), Fail> {
    let both = Both::new(HASTE);
    let words = [
        "contests",
        "two_contests.raire",
        "m.csv",
        "seen_of_two.csv",
        "--seed=2024",
        "--draws=5",
        "--workers=1",
    ];
    let files = held(rt.alloc())?;
    let ran = ran_with(&rt, files, words.as_slice(), &[], &[], &both)?;
    assert!(rt; is_as_wanted(&ran, 10, BOTH));
    assert!(rt; !both.met());
    Ok(())
}
