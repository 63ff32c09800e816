// A walk that enters each set that no assertion of a list keeps out, once.
ghost use Rattle.std.specs.Prelude.{◌≡◌, ◌<◌, ◌≤◌, ◌-◌, List, Ok, length, IsTrue, OnOk, IfErr};
ghost use Rattle.irv_base.specs.Suffixes.{is_suffix};
ghost use Rattle.irv_base.specs.declared.limits.TheConstants.{ROOM};
ghost use Rattle.assertions.specs.declared.assertion.Assertion.{Assertion as Said};
ghost use Rattle.set_walk.specs.Dives.{dive};
ghost use Rattle.set_walk.specs.Walks.{passes};
ghost use Rattle.cover_checker.specs.Indexed.{IsIndexOf};
ghost use Rattle.cover_checker.specs.Reaching.{Extends, IsReach, IsStop, stopped};
ghost use Rattle.cover_checker.specs.declared.walk.Stop.TheVariants.{Memory as WantOfMemory};

use crate::cover::CoverFault;
use crate::reached::Reached;
use crate::refuting::Refuting;
use irv_base::{CandSet, Candidate, Memory, Order, Suffix};
use std::alloc::{AllocFailed, Global};

/// How a walk ends.
#[derive(Drop)]
pub enum SetWalk {
    /// It found the least order, read backwards, that stands.
    Found(Order),
    /// It found no order that stands. It reached these sets.
    Ended(Reached),
}

/// Why a walk stops before it ends.
#[derive(Clone, Copy)]
pub enum Stop {
    /// A whole order stands.
    Found(Order),
    /// There is one set more than the budget has.
    Spent,
    /// Memory could not be allocated.
    Memory,
}

impl From<Memory> for Stop {
    ghost from_gives = { λ _ stop. stop ≡ WantOfMemory };

    fn from(_: Memory) -> Self {
        Stop::Memory
    }
}

/// Walks from the suffix into the sets that haven't been reached.
pub fn dive(
    refuting: &Refuting,
    n: u32,
    sets: u32,
    suffix: &Suffix,
    reached: &mut Reached,
) -> Result<(), Stop>
    requires number { 1 ≤ n }
    requires room { n ≤ ROOM }
    requires proper { IsTrue (is_suffix n suffix.now) }
    requires some { 0 < length suffix.now }
    ensures ok { (list : List Said) → IsIndexOf list refuting.now → OnOk result
        (dive n sets (passes list) (n - length suffix.now) suffix.now reached.old ≡ Ok reached.new) }
    ensures err { (list : List Said) → IsIndexOf list refuting.now → IfErr result (IsStop
        (dive n sets (passes list) (n - length suffix.now) suffix.now reached.old)) }
    ensures were { Extends reached.old reached.new }
{
    if let Some(order) = suffix.whole(n) {
        return Err(Stop::Found(order));
    }
    let set = suffix.set();
    if reached.contains(set) {
        return Ok(());
    }
    if reached.len() >= sets as usize {
        return Err(Stop::Spent);
    }
    reached.push(set)?;
    for c in 0..n as u8 {
        let c = Candidate(c);
        if !suffix.contains(c) {
            if !refuting.is_any_new(c, set.with(c)) {
                dive(refuting, n, sets, &suffix.with(c), reached)?;
            }
        }
    }
    Ok(())
}

// What a walk that stopped answers.
fn stopped(stop: Stop, sets: u32) -> Result<SetWalk, CoverFault>
    ensures { result ≡ stopped sets stop }
{
    match stop {
        Stop::Found(order) => Ok(SetWalk::Found(order)),
        Stop::Spent => Err(CoverFault::SpentSets { sets }),
        Stop::Memory => Err(CoverFault::Memory),
    }
}

/// Walks the suffixes that no assertion refutes, of orders of `n` candidates that elect a candidate other than `winner`. The walk ends at
/// the least order, read backwards, or after all sets that it reaches.
///
/// A set counts if it has a suffix that stands, elects a candidate other than the winner, isn't whole, and comes before that order, if
/// there is one, when both are read backwards. If more than `sets` sets count, the answer is `SpentSets`. The other error is running out
/// of memory.
///
/// Each set is entered once, so the time grows with the number of sets that count, not with the number of suffixes. The recursion goes
/// as deep as the number of candidates.
pub fn reach(
    alloc: Global,
    refuting: &Refuting,
    n: u32,
    winner: Candidate,
    sets: u32,
) -> Result<SetWalk, CoverFault>
    requires some { 1 ≤ n }
    requires room { n ≤ ROOM }
    ensures { (list : List Said) → IsIndexOf list refuting.now
        → IsReach n winner sets (passes list) result }
{
    let mut reached = Reached::none(alloc, n)?;
    for c in 0..n as u8 {
        let last = Candidate(c);
        if last != winner {
            if !refuting.is_any_new(last, CandSet::empty().with(last)) {
                match dive(refuting, n, sets, &Suffix::of(last), &mut reached) {
                    Ok(()) => {}
                    Err(stop) => return stopped(stop, sets),
                }
            }
        }
    }
    Ok(SetWalk::Ended(reached))
}
