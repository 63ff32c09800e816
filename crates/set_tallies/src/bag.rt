// The records of a contest.
//
// One table answers three questions: tallies, first preferences, and who is ahead of whom. With up to `ALWAYS_SUMMED` candidates,
// it is summed over all sets at once, which takes no longer than making entries. With more candidates, a bag begins with entries:
// the table for twenty has 21 megabytes and takes some 0.2 s, while a search with a few strong candidates needs some 400 rows, each
// of which is counted in about a microsecond.
ghost use Rattle.std.specs.Prelude.{◌≡◌, ℕ, ◌<◌, ◌≤◌, ◌^◌, [], map, get_or, length, count_by, All, IfOk, IfSome, IfNone, List};
ghost use Rattle.irv_base.specs.declared.limits.TheConstants.{FEWEST_CANDIDATES, ROOM, MOST_RECORDS};
ghost use Rattle.set_tallies.specs.Bags.{AreEntries, IsOf, missing, votes_at};
ghost use Rattle.set_tallies.specs.Befores.{AllCounted, has_missed};
ghost use Rattle.set_tallies.specs.Sums.{AreHeld, votes_in};
ghost use Rattle.set_tallies.specs.declared.sums.TheConstants.{MOST_SUMMED};

use crate::cost::{count_of_noted, rows_in_time};
use crate::count::{all_joined, noted};
use crate::counting::Counting;
use crate::entries::Entries;
use crate::halves::{Halves, can_be_halved};
use crate::sums::{MOST_SUMMED, Sums};
use irv_base::{Candidate, Memory, Rankings};
use std::alloc::Global;
use std::marker::Model;
use std::thread::Threads;

/// With up to this many candidates, a bag has the sums over all sets from the start. They are made as soon as entries would be.
pub const ALWAYS_SUMMED: u32 = 15;

/// With more candidates, a bag has them too if no more rows than this would be counted from entries before halved sums are made
/// (`rows_in_time`).
pub const FEWEST_ROWS: u64 = 128;

/// What a bag keeps of the records. It is either the sums over all sets, in one of two forms, or, for each candidate, the different
/// sets of those who come before it on a ballot, each with the number of these ballots.
#[derive(Drop)]
pub enum Votes {
    /// The sums over all sets.
    Summed(Sums),
    /// The same sums in a quarter of the space.
    Halved(Halves),
    /// The entries of each candidate.
    Listed(Vec<Entries>),
}

/// The records of a contest, in any order.
///
/// For each set of candidates and each candidate, it knows the number of ballots that have the candidate with nobody of the set
/// before it. On a ballot, a candidate is the first of a set exactly if it is in the set and the ballot has it with nobody of the
/// set before it.
#[derive(Drop)]
pub struct Bag {
    n: u32,
    records: u32,
    votes: Votes,
}

impl Model for Bag {
    ghost use Rattle.set_tallies.specs.Bags.{Kept, IsKept, all_votes};
    ghost use Rattle.set_tallies.specs.Sums.{AreHeld, votes_in};

    ghost Value = { Kept };

    ghost view = { λ b. record {
      n = b.n;
      records = b.records;
      votes = all_votes b.n (votes_in b.votes);
    } };

    ghost invariant = { λ b. IsKept (record {
      n = b.n;
      records = b.records;
      votes = all_votes b.n (votes_in b.votes);
    }) × AreHeld b.n b.records b.votes };
}

// The entries of each candidate, if rows of tallies are to be counted from them rather than read from sums.
fn few_entries(alloc: Global, n: u32, rankings: &Rankings) -> Result<Option<Vec<Entries>>, Memory>
    requires room { n ≤ ROOM }
    requires most { length rankings.now ≤ MOST_RECORDS }
    requires below { All (λ ranking. All (λ c. c < n) ranking) rankings.now }
    ensures each { IfOk result (λ few. IfSome few (λ lists. length lists.items ≡ n)) }
    ensures counted { IfOk result (λ few. IfSome few (λ lists.
        AllCounted (map (λ v. v.items) lists.items) rankings.now)) }
    ensures none { IfOk result (λ few. IfNone few (n ≤ MOST_SUMMED)) }
{
    if n <= ALWAYS_SUMMED {
        return Ok(None);
    }
    let noted = noted(alloc, n, rankings)?;
    if n <= MOST_SUMMED && rows_in_time(n, count_of_noted(&noted), true) <= FEWEST_ROWS {
        return Ok(None);
    }
    let lists = all_joined(alloc, noted)?;
    Ok(Some(lists))
}

// What a bag keeps of these records.
fn votes_of<R: AllocGlobal + Threads + Sync>(
    rt: &R,
    n: u32,
    rankings: &Rankings,
    workers: u32,
) -> Result<Votes, Memory>
    requires fewest { FEWEST_CANDIDATES ≤ n }
    requires room { n ≤ ROOM }
    requires most { length rankings.now ≤ MOST_RECORDS }
    requires below { All (λ ranking. All (λ c. c < n) ranking) rankings.now }
    requires workers { 1 ≤ workers }
    ensures held { IfOk result (AreHeld n (length rankings.now)) }
    ensures says { IfOk result (λ votes. (set c : ℕ) → set < 2 ^ n → c < n
        → votes_in votes set c ≡ count_by (has_missed set c) rankings.now) }
{
    match few_entries(rt.alloc(), n, rankings)? {
        Some(lists) => Ok(Votes::Listed(lists)),
        None => {
            let sums = Sums::of(rt, n, rankings, workers)?;
            Ok(Votes::Summed(sums))
        }
    }
}

// Computes the sums from the entries of each candidate.
fn sums_of(alloc: Global, n: u32, lists: &[Entries]) -> Result<Votes, Memory>
    requires some { 1 ≤ n }
    requires few { n ≤ MOST_SUMMED }
    requires entries { AreEntries n MOST_RECORDS (map (λ v. v.items) lists.now) }
    ensures held { (records : ℕ) → IfOk result (AreHeld n records) }
    ensures says { IfOk result (λ votes. (set c : ℕ) → set < 2 ^ n → c < n
        → votes_in votes set c ≡ missing set (get_or (map (λ v. v.items) lists.now) c [])) }
{
    if n > ALWAYS_SUMMED && can_be_halved(lists) {
        let halves = Halves::of_entries(alloc, n, lists)?;
        return Ok(Votes::Halved(halves));
    }
    let sums = Sums::of_entries(alloc, n, lists)?;
    Ok(Votes::Summed(sums))
}

impl Bag {
    /// Makes the bag of these records, of a contest with `n` candidates, counted by at most this many workers.
    pub fn of<R: AllocGlobal + Threads + Sync>(
        rt: &R,
        n: u32,
        rankings: &Rankings,
        workers: u32,
    ) -> Result<Bag, Memory>
        requires fewest { FEWEST_CANDIDATES ≤ n }
        requires room { n ≤ ROOM }
        requires most { length rankings.now ≤ MOST_RECORDS }
        requires below { All (λ ranking. All (λ c. c < n) ranking) rankings.now }
        requires workers { 1 ≤ workers }
        ensures candidates { IfOk result (λ bag. bag.n ≡ n) }
        ensures records { IfOk result (λ bag. IsOf bag rankings.now) }
    {
        let records = rankings.len() as u32;
        let votes = votes_of(rt, n, rankings, workers)?;
        Ok(Bag { n, records, votes })
    }

    /// Makes the bag of the records that were counted as they came.
    pub fn of_counting(alloc: Global, counting: &Counting) -> Result<Bag, Memory>
        requires { FEWEST_CANDIDATES ≤ counting.now.n }
        ensures candidates { IfOk result (λ bag. bag.n ≡ counting.now.n) }
        ensures records { IfOk result (λ bag. IsOf bag counting.now.rankings) }
    {
        let sums = Sums::of_counting(alloc, counting)?;
        Ok(Bag {
            n: counting.candidates(),
            records: counting.len() as u32,
            votes: Votes::Summed(sums),
        })
    }

    /// Returns the same bag with sums over all sets, if it has no sums yet and has no more candidates than can have them.
    pub(crate) fn summed(&self, alloc: Global) -> Result<Option<Bag>, Memory>
        ensures { IfOk result (λ summed. IfSome summed (λ bag. bag ≡ self.now)) }
    {
        let lists = match &self.votes {
            Votes::Listed(lists) => lists,
            _ => return Ok(None),
        };
        if self.n > MOST_SUMMED {
            return Ok(None);
        }
        let votes = sums_of(alloc, self.n, lists)?;
        Ok(Some(Bag {
            n: self.n,
            records: self.records,
            votes,
        }))
    }

    /// The number of candidates.
    pub fn candidates(&self) -> u32
        ensures same { result ≡ self.now.n }
        ensures fewest { FEWEST_CANDIDATES ≤ result }
        ensures room { result ≤ ROOM }
    {
        self.n
    }

    /// The number of records.
    pub fn records(&self) -> u32
        ensures same { (records : List (List ℕ)) → IsOf self.now records
            → result ≡ length records }
        ensures most { result ≤ MOST_RECORDS }
    {
        self.records
    }

    /// What the bag keeps of the records.
    pub(crate) fn kept(&self) -> &Votes
        ensures same { (set c : ℕ) → set < 2 ^ self.now.n → c < self.now.n
            → votes_in result.now set c ≡ votes_at self.now set c }
        ensures held { AreHeld self.now.n MOST_RECORDS result.now }
    {
        &self.votes
    }

    /// The number of ballots that have `c` with nobody of the set with this number before it.
    pub(crate) fn votes(&self, c: Candidate, set: u32) -> u32
        requires candidate { c < self.now.n }
        requires below { set < 2 ^ self.now.n }
        ensures { result ≡ votes_at self.now set c }
    {
        match &self.votes {
            Votes::Summed(sums) => sums.at(c, set),
            Votes::Halved(halves) => halves.at(c, set),
            Votes::Listed(lists) => lists[c.index()].missing(set),
        }
    }
}
