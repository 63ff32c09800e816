// The walk into each set once.
ghost use Rattle.std.specs.Prelude.{◌≡◌, ◌≢◌, ◌<◌, ◌≤◌, ◌-◌, ◌^◌, ℕ, Bool, length, All, IsTrue, OnOk, IfOk, IfErr};
ghost use Rattle.irv_base.specs.Suffixes.{is_suffix};
ghost use Rattle.irv_base.specs.declared.limits.TheConstants.{ROOM};
ghost use Rattle.set_walk.specs.Dives.{dive, stopped};
ghost use Rattle.set_walk.specs.Answers.{IsWalk, AreSets};
ghost use Rattle.set_walk.specs.declared.walk.Stop.TheVariants.{Memory as WantOfMemory};
ghost use Rattle.set_walk.specs.declared.walk.WalkFault.TheVariants.{Memory as NoMemory};

use crate::goes::Goes;
use indexmap::IndexSet;
use irv_base::{CandSet, Candidate, Memory, Order, Suffix};
use std::alloc::{AllocFailed, Global};
use std::error::Error;
use std::fmt;

/// How a walk ends.
#[derive(Drop)]
pub enum WalkEnd {
    /// It finds the least order, read backwards, that walks.
    Found(Order),
    /// It finds no order. It went into these sets, each of them once.
    Ended(IndexSet<CandSet>),
}

/// Why a walk doesn't finish.
#[derive(Clone, Copy, Debug, PartialEq, Eq)]
pub enum WalkFault {
    /// More sets count than the budget allows.
    Spent,
    /// Memory could not be allocated.
    Memory,
}

impl fmt::Display for WalkFault {
    fn fmt<W: fmt::Write>(&self, f: &mut fmt::Formatter<W>) -> fmt::Result {
        match self {
            WalkFault::Spent => write!(f, "more sets than the budget has count"),
            WalkFault::Memory => write!(f, "{Memory}"),
        }
    }
}

impl Error for WalkFault {}

impl From<Memory> for WalkFault {
    ghost from_gives = { λ _ fault. fault ≡ NoMemory };

    fn from(_: Memory) -> Self {
        WalkFault::Memory
    }
}

/// Why a walk stops before its end.
#[derive(Drop)]
pub enum Stop {
    /// A whole order walks.
    Found(Order),
    /// There is one set more than the budget allows.
    Spent,
    /// Memory could not be allocated.
    Memory,
}

impl From<Memory> for Stop {
    ghost from_gives = { λ _ stop. stop ≡ WantOfMemory };

    fn from(_: Memory) -> Self {
        Stop::Memory
    }
}

impl<T: Drop> From<AllocFailed<T>> for Stop {
    ghost from_gives = { λ _ stop. stop ≡ WantOfMemory };

    fn from(_: AllocFailed<T>) -> Self {
        Stop::Memory
    }
}

// Walks from the suffix into the sets that it hasn't seen.
fn dive<T: Goes>(
    test: &mut T,
    n: u32,
    sets: u32,
    suffix: &Suffix,
    seen: &mut IndexSet<CandSet>,
) -> Result<(), Stop>
    requires size { n ≡ T.size test.old }
    requires number { 1 ≤ n }
    requires room { n ≤ ROOM }
    requires proper { IsTrue (is_suffix n suffix.now) }
    requires some { 0 < length suffix.now }
    requires were_sets { All (λ set. set < 2 ^ n) seen.old.keys }
    ensures same { test.new ≡ test.old }
    ensures are_sets { OnOk result (All (λ set. set < 2 ^ n) seen.new.keys) }
    ensures ok { (may : ℕ → ℕ → Bool) → T.is_by test.old may
        → OnOk result (dive n sets may (n - length suffix.now) suffix.now seen.old.keys
        ≡ Ok seen.new.keys) }
    ensures err { (may : ℕ → ℕ → Bool) → T.is_by test.old may
        → IfErr result (λ stop. stop ≢ Stop.Memory
        → dive n sets may (n - length suffix.now) suffix.now seen.old.keys ≡ Err stop) }
{
    if let Some(order) = suffix.whole(n) {
        return Err(Stop::Found(order));
    }
    let set = suffix.set();
    if seen.contains(&set) {
        return Ok(());
    }
    if seen.len() >= sets as usize {
        return Err(Stop::Spent);
    }
    seen.insert(set)?;
    for c in 0..n as u8 {
        let c = Candidate(c);
        if !suffix.contains(c) {
            if test.goes(set, c)? {
                dive(test, n, sets, &suffix.with(c), seen)?;
            }
        }
    }
    Ok(())
}

// What the walk results in.
fn stopped(stop: Stop) -> Result<WalkEnd, WalkFault>
    ensures { result ≡ stopped stop }
{
    match stop {
        Stop::Found(order) => Ok(WalkEnd::Found(order)),
        Stop::Spent => Err(WalkFault::Spent),
        Stop::Memory => Err(WalkFault::Memory),
    }
}

/// Walks the suffixes of orders of `n` candidates that elect a candidate other than `winner`, by a test of steps. The walk goes to the
/// least order, read backwards, that walks, or through all sets that it reaches.
///
/// A set counts if a suffix of it walks that elects a candidate other than the winner, isn't whole, and comes before that order, if there
/// is one, both read backwards. If more than `sets` sets count, the answer is `Spent`. The other error means that memory ran out.
///
/// The walk goes into each set once, so the time grows with the number of sets that count, not with the number of suffixes. The recursion
/// is as deep as the number of candidates.
pub fn walk_within<T: Goes>(
    alloc: Global,
    test: &mut T,
    n: u32,
    winner: Candidate,
    sets: u32,
) -> Result<WalkEnd, WalkFault>
    requires size { n ≡ T.size test.old }
    requires some { 1 ≤ n }
    requires room { n ≤ ROOM }
    ensures same { test.new ≡ test.old }
    ensures walk { (may : ℕ → ℕ → Bool) → T.is_by test.old may
        → IsWalk n winner sets may result }
    ensures sets { IfOk result (AreSets n) }
{
    let mut seen = IndexSet::new(alloc);
    for c in 0..n as u8 {
        let last = Candidate(c);
        if last != winner {
            if test.goes(CandSet::empty(), last)? {
                match dive(test, n, sets, &Suffix::of(last), &mut seen) {
                    Ok(()) => {}
                    Err(stop) => return stopped(stop),
                }
            }
        }
    }
    Ok(WalkEnd::Ended(seen))
}
