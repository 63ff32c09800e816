// The workers, each in a thread.
//
// Candidates are dealt by their numbers, in rotation: each goes to the next worker. A worker doesn't know what the others have found, so it
// may walk for an order that comes after theirs. With twelve near-equal candidates this is about a third more work, shared by the workers.
ghost use Rattle.std.specs.Prelude.{◌≡◌, ◌<◌, ◌≤◌, ℕ, Bool, List, IfOk, length};
ghost use Rattle.set_tallies.specs.Bags.{Kept, IsOf};
ghost use Rattle.certifier.specs.OneCandidate.{IsTask};
ghost use Rattle.certifier.specs.Parts.{IsPart, IsPartSoFar, IsPartOfSeveral, HasPart, AreParts, in_either, is_any};
ghost use Rattle.irv_base.specs.declared.limits.TheConstants.{MOST_WORKERS};
ghost use Rattle.certifier.specs.declared.gather.Task.{Task as TheTask};

use crate::gather::{Dealt, Task, gather};
use crate::part::Part;
use irv_base::Memory;
use set_tallies::Counted;
use std::alloc::Global;
use std::thread;
use std::thread::Threads;

// A place for each worker's part. It holds an `Err` until the worker is done.
fn places(alloc: Global, workers: u32) -> Result<Vec<Result<Part, Memory>>, Memory>
    ensures { IfOk result (λ places. length places.items ≡ workers) }
{
    let mut places = Vec::with_capacity(alloc, workers as usize)?;
    for _worker in 0..workers {
        places.push(Err(Memory))?;
    }
    Ok(places)
}

// The part of one worker, which uses its own tallies.
fn part_of(
    alloc: Global,
    task: &Task,
    counted: &Counted,
    number: u32,
    workers: u32,
) -> Result<Part, Memory>
    requires { 1 ≤ workers }
    ensures { HasPart counted.now.bag task.now workers number result }
{
    let mut tallies = counted.tallies_for_worker()?;
    gather(alloc, task, &Dealt { number, workers }, &mut tallies)
}

// Lets each worker find its part.
fn run<R: Threads + Sync>(
    rt: &R,
    alloc: Global,
    task: &Task,
    counted: &Counted,
    parts: &mut [Result<Part, Memory>],
    workers: u32,
)
    requires each { length parts.old ≡ workers }
    requires workers { (1 ≤ workers) × (workers ≤ MOST_WORKERS) }
    ensures len { length parts.new ≡ length parts.old }
    ensures parts { AreParts counted.now.bag task.now workers parts.new }
{
    thread::for_each_mut(
        rt,
        parts,
        parts.len(),
        &|i, part: &mut Result<Part, Memory>|
            requires { (i < workers) × (1 ≤ workers) × (workers ≤ MOST_WORKERS) }
            ensures { HasPart counted.entry.now.bag task.entry.now workers i part.exit.now }
        { *part = part_of(alloc, task, counted, i as u32, workers) },
    );
}

// What has been found so far, with one more part.
fn with_part(so_far: Option<Part>, part: Part) -> Result<Part, Memory>
    ensures { IfOk result (λ all.
        (n : ℕ) (records : List (List ℕ)) (task : TheTask) (own its : ℕ → Bool)
        → IsPartSoFar n records task own so_far → IsPart n records task its part
        → IsPart n records task (in_either own its) all) }
{
    match so_far {
        None => Ok(part),
        Some(so_far) => so_far.join(part),
    }
}

// The parts of all workers, joined.
fn joined(alloc: Global, parts: Vec<Result<Part, Memory>>) -> Result<Part, Memory>
    ensures { IfOk result (λ all.
        (bag : Kept) (task : TheTask) (workers : ℕ) (records : List (List ℕ))
        → length parts.items ≡ workers → AreParts bag task workers parts.items → IsOf bag records
        → IsTask bag.n records task → 1 ≤ workers → IsPartOfSeveral bag.n records task is_any all) }
{
    let mut all = None;
    for part in parts {
        all = Some(with_part(all, part?)?);
    }
    match all {
        Some(all) => Ok(all),
        None => Ok(Part::new(alloc)),
    }
}

// What the workers find among the suffixes of all orders that elect another candidate, unless memory runs out or rows of tallies take long.
fn gather_once<R: AllocGlobal + Threads + Sync>(
    rt: &R,
    task: &Task,
    counted: &Counted,
    workers: u32,
) -> Result<Part, Memory>
    requires { (1 ≤ workers) × (workers ≤ MOST_WORKERS) }
    ensures { (records : List (List ℕ)) → IsOf counted.now.bag records
        → IsTask counted.now.bag.n records task.now
        → IfOk result (IsPartOfSeveral counted.now.bag.n records task.now is_any) }
{
    let alloc = rt.alloc();
    let mut parts = places(alloc, workers)?;
    run(rt, alloc, task, counted, parts.as_mut_slice(), workers);
    joined(alloc, parts)
}

/// What the workers find among the suffixes of all orders that elect another candidate. If rows of tallies take long, the workers start
/// over with sums over all sets, which they share.
pub fn gather_all<R: AllocGlobal + Threads + Sync>(
    rt: &R,
    task: &Task,
    counted: &Counted,
    workers: u32,
) -> Result<Part, Memory>
    requires { (1 ≤ workers) × (workers ≤ MOST_WORKERS) }
    ensures { (records : List (List ℕ)) → IsOf counted.now.bag records
        → IsTask counted.now.bag.n records task.now
        → IfOk result (IsPartOfSeveral counted.now.bag.n records task.now is_any) }
{
    if let Ok(part) = gather_once(rt, task, counted, workers) {
        return Ok(part);
    }
    match counted.summed()? {
        Some(summed) => gather_once(rt, task, &summed, workers),
        None => Err(Memory),
    }
}
