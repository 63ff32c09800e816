// Counting ballots: each worker counts a share of them, in a table of its own.
ghost use Rattle.std.specs.Prelude.{◌≡◌, ◌<◌, ◌≤◌, ◌*◌, All, IfOk, length};
ghost use Rattle.std.specs.Fork.{slice_chunk};
ghost use Rattle.irv_base.specs.declared.limits.TheConstants.{MOST_RECORDS};
ghost use Rattle.set_tallies.specs.Shares.{AreShares};
ghost use Rattle.set_tallies.specs.Sums.{IsCountOf};
ghost use Rattle.set_tallies.specs.declared.sums.TheConstants.{MOST_SUMMED};

use crate::table::{add_table, count, zeros};
use irv_base::{Memory, Rankings};
use std::alloc::Global;
use std::thread;
use std::thread::Threads;

/// Counting fewer records than this takes less time than starting a thread for them.
pub const FEWEST_IN_A_SHARE: usize = 4096;

// The number of records that each worker counts, except the last, who counts those that are left. It is no smaller than the number
// of sets of candidates: making a worker's own table and adding it up takes as long as counting this many records.
fn share_size(n: u32, records: usize, workers: u32) -> usize
    requires few { n ≤ MOST_SUMMED }
    requires workers { 1 ≤ workers }
    ensures some { 1 ≤ result }
    ensures all { records ≤ workers * result }
{
    records
        .div_ceil(workers as usize)
        .max(FEWEST_IN_A_SHARE)
        .max(1 << n)
}

// The share with number `i` of the ballots with these rankings, counted by one worker. Each share has `size` of them, and the last
// share has those that are left.
fn share_of(
    alloc: Global,
    n: u32,
    rankings: &Rankings,
    size: usize,
    i: usize,
) -> Result<Vec<u32>, Memory>
    requires few { n ≤ MOST_SUMMED }
    requires most { length rankings.now ≤ MOST_RECORDS }
    requires below { All (λ ranking. All (λ c. c < n) ranking) rankings.now }
    requires within { i * size ≤ length rankings.now }
    ensures { IfOk result (λ table. IsCountOf n (slice_chunk rankings.now size i) table.items) }
{
    let mut table = zeros(alloc, n)?;
    let first = i * size;
    for k in 0..size.min(rankings.len() - first) {
        count(&mut table, n, rankings.at(first + k));
    }
    Ok(table)
}

// The shares of all workers.
fn shares<R: AllocGlobal + Threads + Sync>(
    rt: &R,
    n: u32,
    rankings: &Rankings,
    size: usize,
) -> Result<Vec<Result<Vec<u32>, Memory>>, Memory>
    requires few { n ≤ MOST_SUMMED }
    requires most { length rankings.now ≤ MOST_RECORDS }
    requires below { All (λ ranking. All (λ c. c < n) ranking) rankings.now }
    requires size { 1 ≤ size }
    ensures { IfOk result (λ shares. AreShares n size rankings.now shares.items) }
{
    let alloc = rt.alloc();
    let shares = thread::map_indices(
        rt,
        alloc,
        rankings.len().div_ceil(size),
        &|i: usize| -> Result<Vec<u32>, Memory>
            requires { (n ≤ MOST_SUMMED) × (length rankings.now ≤ MOST_RECORDS)
                × All (λ ranking. All (λ c. c < n) ranking) rankings.now
                × (i * size ≤ length rankings.now) }
            ensures { IfOk result (λ table.
                IsCountOf n (slice_chunk rankings.entry.now size i) table.items) }
        { share_of(alloc, n, rankings, size, i) },
    )?;
    Ok(shares)
}

/// Counts the ballots with these rankings, with at most this many workers.
pub fn counted<R: AllocGlobal + Threads + Sync>(
    rt: &R,
    n: u32,
    rankings: &Rankings,
    workers: u32,
) -> Result<Vec<u32>, Memory>
    requires few { n ≤ MOST_SUMMED }
    requires most { length rankings.now ≤ MOST_RECORDS }
    requires below { All (λ ranking. All (λ c. c < n) ranking) rankings.now }
    requires workers { 1 ≤ workers }
    ensures { IfOk result (λ table. IsCountOf n rankings.now table.items) }
{
    let alloc = rt.alloc();
    let size = share_size(n, rankings.len(), workers);
    if rankings.len() <= size {
        return share_of(alloc, n, rankings, size, 0);
    }
    let shares = shares(rt, n, rankings, size)?;
    let mut table = zeros(alloc, n)?;
    for share in shares {
        add_table(&mut table, &share?);
    }
    Ok(table)
}
