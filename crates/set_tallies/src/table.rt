// A table with a number for each set of candidates and each candidate: the number of ballots that have exactly that set before the
// candidate.
ghost use Rattle.std.specs.Prelude.{◌≡◌, ℕ, ◌<◌, ◌≤◌, ◌+◌, ◌*◌, ◌^◌, ◌==◌, ◌&&◌, [], All, IfOk, IsTrue, length, slice_index, get_or, map, if◌then◌else◌};
ghost use Rattle.irv_base.specs.Candidates.{candidates, is_distinct};
ghost use Rattle.irv_base.specs.declared.limits.TheConstants.{MOST_RECORDS};
ghost use Rattle.set_tallies.specs.Bags.{AreEntries, misses, missing, total};
ghost use Rattle.set_tallies.specs.Befores.{has_missed};
ghost use Rattle.set_tallies.specs.Sums.{column, apart};
ghost use Rattle.set_tallies.specs.declared.sums.TheConstants.{MOST_SUMMED};

use crate::entries::Entries;
use irv_base::{Candidate, Memory};
use std::alloc::Global;

/// A table of zeros.
pub fn zeros(alloc: Global, n: u32) -> Result<Vec<u32>, Memory>
    requires { n ≤ MOST_SUMMED }
    ensures long { IfOk result (λ table. length table.items ≡ n * 2 ^ n) }
    ensures zeros { IfOk result (λ table.
        (s c : ℕ) → c < n → apart s (column n n table.items c) ≡ 0) }
{
    Ok(vec![in alloc; 0; (n as usize) << n]?)
}

/// The place of the number for the set and the candidate.
pub fn place(n: u32, set: u32, c: Candidate) -> usize
    requires { n ≤ MOST_SUMMED }
    ensures { result ≡ set * n + c }
{
    set as usize * n as usize + c.index()
}

/// Counts this many more ballots that have exactly this set before the candidate.
pub fn add(table: &mut [u32], n: u32, set: u32, c: Candidate, count: u32)
    requires few { n ≤ MOST_SUMMED }
    requires long { length table.old ≡ n * 2 ^ n }
    requires set { set < 2 ^ n }
    requires candidate { c < n }
    requires fit { apart 0 (column n n table.old c) + count ≤ MOST_RECORDS }
    ensures long { length table.new ≡ n * 2 ^ n }
    ensures more { (s d : ℕ) → d < n → apart s (column n n table.new d)
        ≡ apart s (column n n table.old d) + (if d == c && misses s set then count else 0) }
{
    table[place(n, set, c)] += count;
}

/// Counts a ballot with this ranking.
pub fn count(table: &mut [u32], n: u32, ranking: &[Candidate])
    requires few { n ≤ MOST_SUMMED }
    requires long { length table.old ≡ n * 2 ^ n }
    requires below { All (λ c. c < n) ranking.now }
    requires distinct { IsTrue (is_distinct ranking.now) }
    requires fit { (c : ℕ) → c < n → apart 0 (column n n table.old c) < MOST_RECORDS }
    ensures long { length table.new ≡ n * 2 ^ n }
    ensures more { (s c : ℕ) → c < n → apart s (column n n table.new c)
        ≡ apart s (column n n table.old c) + (if has_missed s c ranking.now then 1 else 0) }
{
    let mut seen = 0u32;
    for d in ranking {
        add(table, n, seen, *d, 1);
        seen |= 1 << d.index();
    }
}

// Counts the ballots of the entries of a candidate. Only the first `n` candidates of their sets count: there are no others.
fn count_entries(table: &mut [u32], n: u32, c: Candidate, entries: &Entries)
    requires few { n ≤ MOST_SUMMED }
    requires long { length table.old ≡ n * 2 ^ n }
    requires candidate { c < n }
    requires fit { apart 0 (column n n table.old c) + total entries.now.items ≤ MOST_RECORDS }
    ensures long { length table.new ≡ n * 2 ^ n }
    ensures more { (s d : ℕ) → s < 2 ^ n → d < n → apart s (column n n table.new d)
        ≡ apart s (column n n table.old d) + (if d == c then missing s entries.now.items else 0) }
{
    for i in 0..entries.len() {
        let entry = entries.at(i);
        add(table, n, entry.before % (1 << n), c, entry.count);
    }
}

/// Makes a table of the ballots that the entries of each candidate count.
pub fn table_of(alloc: Global, n: u32, lists: &[Entries]) -> Result<Vec<u32>, Memory>
    requires few { n ≤ MOST_SUMMED }
    requires entries { AreEntries n MOST_RECORDS (map (λ v. v.items) lists.now) }
    ensures long { IfOk result (λ table. length table.items ≡ n * 2 ^ n) }
    ensures says { IfOk result (λ table. (s c : ℕ) → s < 2 ^ n → c < n
        → apart s (column n n table.items c)
        ≡ missing s (get_or (map (λ v. v.items) lists.now) c [])) }
{
    let mut table = zeros(alloc, n)?;
    for c in 0..n {
        count_entries(&mut table, n, Candidate(c as u8), &lists[c as usize]);
    }
    Ok(table)
}

/// Adds the numbers of another table.
pub fn add_table(table: &mut [u32], other: &[u32])
    requires same { length table.old ≡ length other.now }
    requires fit { (i : ℕ) → i < length table.old
        → slice_index table.old i + slice_index other.now i ≤ MOST_RECORDS }
    ensures { table.new ≡ map (λ i. slice_index table.old i + slice_index other.now i)
        (candidates (length table.old)) }
{
    for i in 0..table.len() {
        table[i] += other[i];
    }
}
