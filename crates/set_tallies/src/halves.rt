// The sums over all sets in a quarter of the space: a set and its complement share a row, and the numbers have 16 bits.
ghost use Rattle.std.specs.Prelude.{◌≡◌, ℕ, ◌<◌, ◌≤◌, ◌+◌, ◌*◌, ◌-◌, ◌/◌, ◌^◌, ◌==◌, ◌&&◌, false, [], All, IfOk, IsTrue, length, slice_index, get_or, map, replicate, if◌then◌else◌};
ghost use Rattle.irv_base.specs.declared.limits.TheConstants.{MOST_RECORDS};
ghost use Rattle.set_tallies.specs.Bags.{AreEntries, misses, missing, total};
ghost use Rattle.set_tallies.specs.Halves.{IsHalved, half_at, halves_of, having, others, row_of};
ghost use Rattle.set_tallies.specs.Sums.{column, apart};
ghost use Rattle.set_tallies.specs.declared.sums.TheConstants.{MOST_SUMMED};

use crate::entries::Entries;
use crate::sums::{MOST_SUMMED, sum_apart};
use crate::table::place;
use irv_base::{CandSet, Candidate, Memory};
use std::alloc::Global;

/// The sums are halved if no candidate is on more ballots than this. 16 bits can't count further.
pub const MOST_HALVED: u32 = 65_535;

/// The sums over the sets of the first candidates, this many of them, are made while entries are counted. Then those over the sets
/// of the others are made, sixteen numbers at a time.
pub const LOW_CANDIDATES: u32 = 4;

// The number of sets of these candidates.
const LOW_SETS: u32 = 16;

/// For each set of `n` candidates without the last, and each candidate, the number of ballots that have the candidate with nobody
/// before it who is in the set, if the candidate is in the set, and otherwise with nobody before it who is in the set's complement.
/// The numbers of a row are next to each other.
#[derive(Drop)]
pub struct Halves {
    /// The number of candidates.
    pub n: u32,
    /// The numbers, set by set.
    pub table: Vec<u16>,
}

// Those who aren't in the set.
fn others(n: u32, set: u32) -> u32
    requires few { n ≤ MOST_SUMMED }
    requires below { set < 2 ^ n }
    ensures { result ≡ others n set }
{
    (1 << n) - 1 - set
}

// The row of a set, which is also the row of its complement.
fn row_of(n: u32, set: u32) -> u32
    requires few { (1 ≤ n) × (n ≤ MOST_SUMMED) }
    requires below { set < 2 ^ n }
    ensures { result ≡ row_of n set }
{
    if set < 1 << (n - 1) {
        set
    } else {
        others(n, set)
    }
}

// The set that has the candidate, of a row's two sets.
fn having(n: u32, row: u32, c: Candidate) -> u32
    requires few { n ≤ MOST_SUMMED }
    requires below { row < 2 ^ n }
    requires candidate { c < n }
    ensures { result ≡ having n row c }
{
    if (row >> c.index()) % 2 == 1 {
        row
    } else {
        others(n, row)
    }
}

// Counts this many ballots that have exactly this set before the candidate, for each set of the first candidates that has nobody of
// it.
fn count_low(numbers: &mut [u32], n: u32, before: u32, count: u32)
    requires few { (LOW_CANDIDATES ≤ n) × (n ≤ MOST_SUMMED) }
    requires long { length numbers.old ≡ 2 ^ n }
    requires below { before < 2 ^ n }
    requires fit { (low : ℕ) → low < LOW_SETS
        → apart 0 (column LOW_SETS (n - LOW_CANDIDATES) numbers.old low) + count ≤ MOST_RECORDS }
    ensures long { length numbers.new ≡ 2 ^ n }
    ensures more { (s low : ℕ) → low < LOW_SETS
        → apart s (column LOW_SETS (n - LOW_CANDIDATES) numbers.new low)
        ≡ apart s (column LOW_SETS (n - LOW_CANDIDATES) numbers.old low)
        + (if misses low before && misses s (before / LOW_SETS) then count else 0) }
{
    let row = before / LOW_SETS;
    for low in 0..LOW_SETS {
        if before & low == 0 {
            numbers[(row * LOW_SETS + low) as usize] += count;
        }
    }
}

// Counts the ballots of the entries.
fn count_entries(numbers: &mut [u32], n: u32, entries: &Entries)
    requires few { (LOW_CANDIDATES ≤ n) × (n ≤ MOST_SUMMED) }
    requires zeros { numbers.old ≡ replicate (2 ^ n) 0 }
    requires most { total entries.now.items ≤ MOST_RECORDS }
    ensures long { length numbers.new ≡ 2 ^ n }
    ensures says { (s low : ℕ) → s < 2 ^ (n - LOW_CANDIDATES) → low < LOW_SETS
        → apart s (column LOW_SETS (n - LOW_CANDIDATES) numbers.new low)
        ≡ missing (s * LOW_SETS + low) entries.now.items }
{
    for i in 0..entries.len() {
        let entry = entries.at(i);
        count_low(numbers, n, entry.before % (1 << n), entry.count);
    }
}

// Turns zeros into the number, for each set, of those ballots of the entries that have nobody of the set before the candidate.
fn sum_entries(numbers: &mut [u32], n: u32, entries: &Entries)
    requires few { (LOW_CANDIDATES ≤ n) × (n ≤ MOST_SUMMED) }
    requires zeros { numbers.old ≡ replicate (2 ^ n) 0 }
    requires most { total entries.now.items ≤ MOST_RECORDS }
    ensures long { length numbers.new ≡ 2 ^ n }
    ensures says { (set : ℕ) → set < 2 ^ n → slice_index numbers.new set ≡ missing set entries.now.items }
{
    count_entries(numbers, n, entries);
    sum_apart(numbers, LOW_SETS, n - LOW_CANDIDATES);
}

// For each set, the number of those ballots of the entries that have nobody of the set before the candidate.
fn sums(alloc: Global, n: u32, entries: &Entries) -> Result<Vec<u32>, Memory>
    requires few { (LOW_CANDIDATES ≤ n) × (n ≤ MOST_SUMMED) }
    requires most { total entries.now.items ≤ MOST_RECORDS }
    ensures long { IfOk result (λ numbers. length numbers.items ≡ 2 ^ n) }
    ensures says { IfOk result (λ numbers. (set : ℕ) → set < 2 ^ n
        → slice_index numbers.items set ≡ missing set entries.now.items) }
{
    let mut numbers = vec![in alloc; 0; 1 << n]?;
    sum_entries(&mut numbers, n, entries);
    Ok(numbers)
}

// Puts the numbers of a candidate in their places.
fn put(table: &mut [u16], n: u32, c: Candidate, numbers: &[u32])
    requires few { (1 ≤ n) × (n ≤ MOST_SUMMED) }
    requires candidate { c < n }
    requires long { length table.old ≡ n * 2 ^ (n - 1) }
    requires each { length numbers.now ≡ 2 ^ n }
    requires small { (set : ℕ) → set < 2 ^ n → slice_index numbers.now set ≤ MOST_HALVED }
    ensures long { length table.new ≡ n * 2 ^ (n - 1) }
    ensures own { (row : ℕ) → row < 2 ^ (n - 1)
        → slice_index table.new (row * n + c) ≡ slice_index numbers.now (having n row c) }
    ensures others { (row d : ℕ) → d < n → (d == c) ≡ false
        → slice_index table.new (row * n + d) ≡ slice_index table.old (row * n + d) }
{
    for row in 0..1 << (n - 1) {
        table[place(n, row, c)] = numbers[having(n, row, c) as usize] as u16;
    }
}

/// Whether no candidate is on more ballots than halved sums can count.
pub fn can_be_halved(lists: &[Entries]) -> bool
    requires { All (λ entries. total entries ≤ MOST_RECORDS) (map (λ v. v.items) lists.now) }
    ensures { IsTrue result
        → All (λ entries. total entries ≤ MOST_HALVED) (map (λ v. v.items) lists.now) }
{
    for entries in lists {
        if entries.missing(0) > MOST_HALVED {
            return false;
        }
    }
    true
}

impl Halves {
    /// Computes the sums over the ballots that the entries of each candidate count.
    pub fn of_entries(alloc: Global, n: u32, lists: &[Entries]) -> Result<Halves, Memory>
        requires few { (LOW_CANDIDATES ≤ n) × (n ≤ MOST_SUMMED) }
        requires entries { AreEntries n MOST_HALVED (map (λ v. v.items) lists.now) }
        ensures table { IfOk result (IsHalved n) }
        ensures says { IfOk result (λ halves. (set c : ℕ) → set < 2 ^ n → c < n
            → half_at halves set c ≡ missing set (get_or (map (λ v. v.items) lists.now) c [])) }
    {
        let mut table = vec![in alloc; 0u16; (n as usize) << (n - 1)]?;
        for c in 0..n {
            let numbers = sums(alloc, n, &lists[c as usize])?;
            put(&mut table, n, Candidate(c as u8), &numbers);
        }
        Ok(Halves { n, table })
    }

    /// The number of ballots that have `c` with nobody of the set with this number before it.
    pub fn at(&self, c: Candidate, set: u32) -> u32
        requires table { IsHalved self.now.n self.now }
        requires candidate { c < self.now.n }
        requires below { set < 2 ^ self.now.n }
        ensures { result ≡ half_at self.now set c }
    {
        let row = row_of(self.n, set | 1 << c.index());
        u32::from(self.table[place(self.n, row, c)])
    }

    /// The tallies of a set: one for each candidate, 0 for those outside the set.
    pub fn row(&self, alloc: Global, s: CandSet) -> Result<Vec<u32>, Memory>
        requires table { IsHalved self.now.n self.now }
        requires below { s < 2 ^ self.now.n }
        ensures { IfOk result (λ row. row.items ≡ halves_of self.now s) }
    {
        let first = place(self.n, row_of(self.n, s.number()), Candidate(0));
        let mut row = Vec::with_capacity(alloc, self.n as usize)?;
        for c in 0..self.n {
            let votes = self.table[first + c as usize];
            row.push(if s.has(Candidate(c as u8)) {
                u32::from(votes)
            } else {
                0
            })?;
        }
        Ok(row)
    }
}
