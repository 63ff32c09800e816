// Counting the ballots by the candidates who come before a candidate.
//
// One pass over the ballots notes an entry for each preference. For each candidate, some entries are kept ready, each at a place
// that depends on its set, and a ballot with the same set is counted there. So few entries are left to sort. The author of a file
// can make every lookup miss; then all are sorted, as they would be without entries kept ready.
ghost use Rattle.std.specs.Prelude.{◌≡◌, ◌≤◌, ◌<◌, [], All, IsTrue, length, map, replicate, IfOk, OnOk};
ghost use Rattle.irv_base.specs.Candidates.{is_distinct};
ghost use Rattle.irv_base.specs.declared.limits.TheConstants.{ROOM, MOST_RECORDS};
ghost use Rattle.set_tallies.specs.Bags.{total};
ghost use Rattle.set_tallies.specs.Befores.{AllCounted, AllSayTheSame, HasNoted, HasOneMore, SayTheSame};

use crate::entries::Entries;
use crate::entry::Entry;
use irv_base::{Candidate, MOST_RECORDS, Memory, Rankings};
use std::alloc::Global;

// For each candidate, two to this power entries are kept ready.
const HAND_BITS: u32 = 8;

// This spreads numbers of sets that differ by little to places far apart: it is 2 ^ 32 divided by the golden ratio.
const SPREAD: u32 = 0x9E37_79B1;

// An empty list of entries for each of `n` candidates.
fn none(alloc: Global, n: u32) -> Result<Vec<Vec<Entry>>, Memory>
    ensures { IfOk result (λ lists. map (λ v. v.items) lists.items ≡ replicate n []) }
{
    let mut lists = Vec::with_capacity(alloc, n as usize)?;
    for _ in 0..n {
        lists.push(Vec::new(alloc))?;
    }
    Ok(lists)
}

// The place at which the entry of this set is kept ready, if it is.
fn place_of(before: u32) -> usize {
    (before.wrapping_mul(SPREAD) >> (u32::BITS - HAND_BITS)) as usize
}

// Counts one more ballot that has exactly this set before the candidate: in the entry kept ready, if it is for this set, and
// otherwise in a new entry, which is kept ready from then on.
fn put(entries: &mut Vec<Entry>, before: u32) -> Result<(), Memory>
    ensures { OnOk result (HasOneMore before entries.old.items entries.new.items) }
{
    let place = place_of(before);
    let last = entries.len();
    if place < last && entries[place].before == before && entries[place].count < MOST_RECORDS {
        entries[place].count += 1;
        return Ok(());
    }
    entries.push(Entry { before, count: 1 })?;
    if place < last {
        entries.swap(place, last);
    }
    Ok(())
}

// Notes, for each candidate of the ranking, who comes before it.
fn note(lists: &mut [Vec<Entry>], n: u32, ranking: &[Candidate]) -> Result<(), Memory>
    requires each { length lists.old ≡ n }
    requires room { n ≤ ROOM }
    requires below { All (λ c. c < n) ranking.now }
    requires distinct { IsTrue (is_distinct ranking.now) }
    ensures { IfOk result (λ _. HasNoted n ranking.now
        (map (λ v. v.items) lists.old) (map (λ v. v.items) lists.new)) }
{
    let mut seen = 0u32;
    for d in ranking {
        put(&mut lists[d.index()], seen)?;
        seen |= 1 << d.index();
    }
    Ok(())
}

// Makes one entry for each run of the same set.
fn runs(alloc: Global, entries: &[Entry]) -> Result<Vec<Entry>, Memory>
    requires { total entries.now ≤ MOST_RECORDS }
    ensures { IfOk result (λ runs. SayTheSame entries.now runs.items) }
{
    let mut runs = Vec::new(alloc);
    let mut run = Entry {
        before: 0,
        count: 0,
    };
    for entry in entries {
        if entry.before == run.before {
            run.count += entry.count;
        } else {
            runs.push(run)?;
            run = *entry;
        }
    }
    runs.push(run)?;
    Ok(runs)
}

// Makes one entry for each set that the entries have.
fn joined(alloc: Global, entries: Vec<Entry>) -> Result<Entries, Memory>
    requires { total entries.items ≤ MOST_RECORDS }
    ensures { IfOk result (λ joined. SayTheSame entries.items joined.items) }
{
    let mut sorted = entries;
    sorted.sort_unstable_by_key(|entry| entry.before);
    let runs = runs(alloc, &sorted)?;
    let joined = Entries::of(alloc, &runs)?;
    Ok(joined)
}

/// Makes one entry for each set that the entries of a candidate have.
pub fn all_joined(alloc: Global, noted: Vec<Vec<Entry>>) -> Result<Vec<Entries>, Memory>
    requires { All (λ entries. total entries ≤ MOST_RECORDS) (map (λ v. v.items) noted.items) }
    ensures { IfOk result (λ lists. AllSayTheSame
        (map (λ v. v.items) noted.items) (map (λ v. v.items) lists.items)) }
{
    let mut lists = Vec::with_capacity(alloc, noted.len())?;
    for entries in noted {
        lists.push(joined(alloc, entries)?)?;
    }
    Ok(lists)
}

/// The entries of each of `n` candidates in these rankings: one or more for each set of those who come before the candidate.
pub fn noted(alloc: Global, n: u32, rankings: &Rankings) -> Result<Vec<Vec<Entry>>, Memory>
    requires room { n ≤ ROOM }
    requires below { All (λ ranking. All (λ c. c < n) ranking) rankings.now }
    ensures each { IfOk result (λ lists. length lists.items ≡ n) }
    ensures counted { IfOk result (λ lists.
        AllCounted (map (λ v. v.items) lists.items) rankings.now) }
{
    let mut noted = none(alloc, n)?;
    for i in 0..rankings.len() {
        note(&mut noted, n, rankings.at(i))?;
    }
    Ok(noted)
}
