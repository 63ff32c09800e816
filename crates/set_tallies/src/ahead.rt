// The two numbers of NEB's margin, for all candidates.
ghost use Rattle.std.specs.Prelude.{◌≡◌, ℕ, ◌<◌, ◌≤◌, ◌^◌, nat_lt, List, [], map, filter, length, count_by, get_or, All, IfOk};
ghost use Rattle.irv_base.specs.Candidates.{candidates};
ghost use Rattle.irv_base.specs.Records.{is_first, is_ahead};
ghost use Rattle.irv_base.specs.declared.limits.TheConstants.{ROOM};
ghost use Rattle.set_tallies.specs.Bags.{AreOf, AreFilledFrom, everyone, votes_at, winners_in};

use crate::bag::Bag;
use irv_base::{Candidate, Memory};
use std::alloc::Global;
use std::marker::Model;

/// The two numbers of NEB's margin (RAIRE, section 3), for all candidates: the number of ballots on which a candidate is first, and
/// the number on which a candidate is ahead of another. It also lists the winners of the true NEBs, who are few if a contest is
/// close.
#[derive(Drop)]
pub struct Ahead {
    n: u32,
    firsts: Vec<u32>,
    ahead: Vec<Vec<u32>>,
    // for each candidate, those whose NEB over it is true
    neb_winners: Vec<Vec<Candidate>>,
}

impl Model for Ahead {
    ghost use Rattle.std.specs.Prelude.{map};
    ghost use Rattle.set_tallies.specs.Bags.{Counts, AreAhead};

    ghost Value = { Counts };

    ghost view = { λ a. record {
      n = a.n;
      firsts = a.firsts.items;
      ahead = map (λ v. v.items) a.ahead.items;
    } };

    ghost invariant = { λ a. AreAhead (record {
      n = a.n;
      firsts = a.firsts.items;
      ahead = map (λ v. v.items) a.ahead.items;
    }) (map (λ v. v.items) a.neb_winners.items) };
}

// The number of the set of all `n` candidates.
fn everyone(n: u32) -> u32
    requires { n ≤ ROOM }
    ensures { result ≡ everyone n }
{
    ((1u64 << n) - 1) as u32
}

// The number of ballots on which the candidate is ahead of each other candidate.
fn row(alloc: Global, bag: &Bag, c: Candidate) -> Result<Vec<u32>, Memory>
    requires { c < bag.now.n }
    ensures { IfOk result (λ row.
        row.items ≡ map (λ w. votes_at bag.now (2 ^ w) c) (candidates bag.now.n)) }
{
    let mut row = Vec::new(alloc);
    for w in 0..bag.candidates() {
        row.push(bag.votes(c, 1 << w))?;
    }
    Ok(row)
}

// Those who are first on more ballots than have the loser without them ahead of it.
fn winners_of(alloc: Global, firsts: &[u32], ahead: &[u32]) -> Result<Vec<Candidate>, Memory>
    requires each { length ahead.now ≡ length firsts.now }
    requires room { length firsts.now ≤ ROOM }
    ensures { IfOk result (λ winners. winners.items ≡ winners_in firsts.now ahead.now) }
{
    let mut winners = Vec::new(alloc);
    for w in 0..firsts.len() {
        if ahead[w] < firsts[w] {
            winners.push(Candidate(w as u8))?;
        }
    }
    Ok(winners)
}

// The same for each loser.
fn all_winners(
    alloc: Global,
    firsts: &[u32],
    ahead: &[Vec<u32>],
) -> Result<Vec<Vec<Candidate>>, Memory>
    requires each { All (λ row. length row ≡ length firsts.now) (map (λ v. v.items) ahead.now) }
    requires room { length firsts.now ≤ ROOM }
    ensures { IfOk result (λ winners. map (λ v. v.items) winners.items
        ≡ map (winners_in firsts.now) (map (λ v. v.items) ahead.now)) }
{
    let mut winners = Vec::with_capacity(alloc, ahead.len())?;
    for row in ahead {
        winners.push(winners_of(alloc, firsts, row)?)?;
    }
    Ok(winners)
}

impl Ahead {
    /// Computes the numbers from the bag's records.
    pub fn fill(alloc: Global, bag: &Bag) -> Result<Ahead, Memory>
        ensures { IfOk result (λ ahead. AreFilledFrom bag.now ahead) }
    {
        let n = bag.candidates();
        let mut firsts = Vec::new(alloc);
        let mut ahead = Vec::new(alloc);
        for c in 0..n {
            let c = Candidate(c as u8);
            firsts.push(bag.votes(c, everyone(n)))?;
            ahead.push(row(alloc, bag, c)?)?;
        }
        let neb_winners = all_winners(alloc, &firsts, &ahead)?;
        Ok(Ahead {
            n,
            firsts,
            ahead,
            neb_winners,
        })
    }

    /// The number of ballots on which `w` is first.
    pub fn first(&self, w: Candidate) -> u32
        requires { w < self.now.n }
        ensures { (records : List (List ℕ)) → AreOf self.now records
            → result ≡ count_by (λ ranking. is_first ranking w) records }
    {
        self.firsts[w.index()]
    }

    /// The number of ballots that have `l` and don't have `w` ahead of it.
    pub fn ahead(&self, l: Candidate, w: Candidate) -> u32
        requires loser { l < self.now.n }
        requires winner { w < self.now.n }
        ensures { (records : List (List ℕ)) → AreOf self.now records
            → result ≡ count_by (λ ranking. is_ahead ranking l w) records }
    {
        self.ahead[l.index()][w.index()]
    }

    /// Those who are first on more ballots than have `l` without them ahead of it, in candidate order: the winners of the true NEBs
    /// over `l`.
    pub fn neb_winners(&self, l: Candidate) -> &[Candidate]
        requires { l < self.now.n }
        ensures below { All (λ w. w < self.now.n) result.now }
        ensures winners { (records : List (List ℕ)) → AreOf self.now records
            → result.now ≡ filter (λ w.
            nat_lt (count_by (λ ranking. is_ahead ranking l w) records)
            (count_by (λ ranking. is_first ranking w) records)) (candidates self.now.n) }
    {
        &self.neb_winners[l.index()]
    }
}
