// The number of ballots that have a candidate with nobody of a set before it, for all sets and candidates at once.
ghost use Rattle.std.specs.Prelude.{◌≡◌, ℕ, ◌<◌, ◌≤◌, ◌+◌, ◌*◌, ◌-◌, ◌^◌, ◌==◌, ◌&&◌, true, [], All, IfOk, length, slice_index, get_or, map, count_by, if◌then◌else◌};
ghost use Rattle.irv_base.specs.Candidates.{candidates};
ghost use Rattle.irv_base.specs.declared.limits.TheConstants.{MOST_RECORDS};
ghost use Rattle.set_tallies.specs.Bags.{AreEntries, missing};
ghost use Rattle.set_tallies.specs.Befores.{has_missed};
ghost use Rattle.set_tallies.specs.Sums.{IsSummed, column, apart, sums_of, sum_at};

use crate::counting::Counting;
use crate::entries::Entries;
use crate::shares::counted;
use crate::table::{place, table_of};
use irv_base::{Candidate, Memory, Rankings};
use std::alloc::Global;
use std::thread::Threads;

/// The maximum number of candidates for whom the sums over all sets are made.
pub const MOST_SUMMED: u32 = 20;

/// A number for each set of `n` candidates and each candidate, with the candidates side by side: the number of ballots that have
/// the candidate with nobody of the set before it.
#[derive(Drop)]
pub struct Sums {
    /// The number of candidates.
    pub n: u32,
    /// The numbers, set by set.
    pub table: Vec<u32>,
}

// Puts the sums of the two halves in place of the first half, and what the first half had in place of the second.
fn add_halves(without: &mut [u32], having: &mut [u32])
    requires same { length without.old ≡ length having.old }
    requires fit { (i : ℕ) → i < length without.old
        → slice_index without.old i + slice_index having.old i ≤ MOST_RECORDS }
    ensures sums { without.new
        ≡ map (λ i. slice_index without.old i + slice_index having.old i)
        (candidates (length without.old)) }
    ensures first { having.new ≡ without.old }
{
    for i in 0..without.len() {
        let first = without[i];
        without[i] = first + having[i];
        having[i] = first;
    }
}

/// Turns the numbers for the sets of the first `k` candidates into their sums over the sets that have nobody of a set, for each of
/// `n` candidates.
pub fn sum_apart(table: &mut [u32], n: u32, k: u32)
    requires some { 1 ≤ n }
    requires long { length table.old ≡ n * 2 ^ k }
    requires few { (n ≤ MOST_SUMMED) × (k ≤ MOST_SUMMED) }
    requires fit { (c : ℕ) → c < n → apart 0 (column n k table.old c) ≤ MOST_RECORDS }
    ensures long { length table.new ≡ n * 2 ^ k }
    ensures sums { (c : ℕ) → c < n → column n k table.new c ≡ sums_of (column n k table.old c) }
{
    if k == 0 {
        return;
    }
    let (without, having) = table.split_at_mut((n as usize) << (k - 1));
    sum_apart(without, n, k - 1);
    sum_apart(having, n, k - 1);
    add_halves(without, having);
}

impl Sums {
    /// Computes the sums over the ballots with these rankings, counted by at most this many workers.
    pub fn of<R: AllocGlobal + Threads + Sync>(
        rt: &R,
        n: u32,
        rankings: &Rankings,
        workers: u32,
    ) -> Result<Sums, Memory>
        requires some { 1 ≤ n }
        requires few { n ≤ MOST_SUMMED }
        requires most { length rankings.now ≤ MOST_RECORDS }
        requires below { All (λ ranking. All (λ c. c < n) ranking) rankings.now }
        requires workers { 1 ≤ workers }
        ensures table { IfOk result (IsSummed n) }
        ensures says { IfOk result (λ sums. (set c : ℕ) → set < 2 ^ n → c < n
            → sum_at sums set c ≡ count_by (has_missed set c) rankings.now) }
    {
        let mut table = counted(rt, n, rankings, workers)?;
        sum_apart(&mut table, n, n);
        Ok(Sums { n, table })
    }

    /// Computes the sums over the ballots that were counted as they came.
    pub fn of_counting(alloc: Global, counting: &Counting) -> Result<Sums, Memory>
        requires { 1 ≤ counting.now.n }
        ensures table { IfOk result (IsSummed counting.now.n) }
        ensures says { IfOk result (λ sums. (set c : ℕ) → set < 2 ^ counting.now.n
            → c < counting.now.n
            → sum_at sums set c ≡ count_by (has_missed set c) counting.now.rankings) }
    {
        let n = counting.candidates();
        let mut table = Vec::from_slice(alloc, counting.table())?;
        sum_apart(&mut table, n, n);
        Ok(Sums { n, table })
    }

    /// Computes the sums over the ballots that the entries of each candidate count.
    pub fn of_entries(alloc: Global, n: u32, lists: &[Entries]) -> Result<Sums, Memory>
        requires some { 1 ≤ n }
        requires few { n ≤ MOST_SUMMED }
        requires entries { AreEntries n MOST_RECORDS (map (λ v. v.items) lists.now) }
        ensures table { IfOk result (IsSummed n) }
        ensures says { IfOk result (λ sums. (set c : ℕ) → set < 2 ^ n → c < n
            → sum_at sums set c ≡ missing set (get_or (map (λ v. v.items) lists.now) c [])) }
    {
        let mut table = table_of(alloc, n, lists)?;
        sum_apart(&mut table, n, n);
        Ok(Sums { n, table })
    }

    /// The number of ballots that have `c` with nobody of the set with this number before it.
    pub fn at(&self, c: Candidate, set: u32) -> u32
        requires table { IsSummed self.now.n self.now }
        requires candidate { c < self.now.n }
        requires below { set < 2 ^ self.now.n }
        ensures { result ≡ sum_at self.now set c }
    {
        self.table[place(self.n, set, c)]
    }

    /// The numbers of the set.
    pub fn row(&self, set: u32) -> &[u32]
        requires table { IsSummed self.now.n self.now }
        requires below { set < 2 ^ self.now.n }
        ensures one_each { length result.now ≡ self.now.n }
        ensures sums { (c : ℕ) → c < self.now.n
            → get_or result.now c 0 ≡ sum_at self.now set c }
    {
        let first = place(self.n, set, Candidate(0));
        &self.table[first..first + self.n as usize]
    }
}
