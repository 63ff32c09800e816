// The tallies of sets of candidates.
ghost use Rattle.std.specs.Prelude.{◌≡◌, ℕ, ◌<◌, ◌≤◌, ◌^◌, List, length, map, get_or, if◌then◌else◌, IfOk, IfSome};
ghost use Rattle.irv_base.specs.Candidates.{candidates, has};
ghost use Rattle.irv_base.specs.declared.limits.TheConstants.{FEWEST_CANDIDATES, ROOM, MOST_RECORDS};
ghost use Rattle.set_tallies.specs.Bags.{IsOf, AreFilledFrom, HasTallies, tallies};
ghost use Rattle.set_tallies.specs.Halves.{AreHalves};
ghost use Rattle.set_tallies.specs.Rows.{votes_of};
ghost use Rattle.set_tallies.specs.Sums.{AreSums};

use crate::ahead::Ahead;
use crate::bag::{Bag, Votes};
use crate::cost::{count_of, rows_in_time};
use crate::halves::{Halves, can_be_halved};
use crate::rows::Rows;
use crate::sums::{MOST_SUMMED, Sums};
use irv_base::{CandSet, Candidate, Memory};
use std::alloc::Global;
use std::marker::Model;

/// The tallies of the sets of candidates, over the records of a bag.
///
/// If the bag has the sums over all sets, rows are read from them. Otherwise, a row that was counted is kept (`Rows` drops all of
/// them at `MOST_ROWS`). Once as many rows have been counted as pay (`rows_in_time`), the sums are made, or the tallies give up.
///
/// In a contract, the tallies are what they are computed from: the bag and the two numbers of NEB's margin.
#[derive(Drop)]
pub struct Tallies<'b> {
    alloc: Global,
    bag: &'b Bag,
    ahead: &'b Ahead,
    rows: Rows,
    // the number of rows that may still be counted
    left: u64,
    // whether sums are made here once no more rows may be counted
    alone: bool,
    // the bag with sums that were made here
    summed: Option<Bag>,
}

impl<'b> Model for Tallies<'b> {
    ghost use Rattle.set_tallies.specs.Bags.{Source};
    ghost use Rattle.set_tallies.specs.Rows.{AreTallies};

    ghost Value = { Source };

    ghost view = { λ t. record { bag = t.bag.now; counts = t.ahead.now } };

    ghost invariant = { λ t.
        AreTallies t.bag.now t.ahead.now t.summed t.rows };
}

// The bag, with the sums if some were made.
fn with_sums<'b>(bag: &'b Bag, summed: &'b Option<Bag>) -> &'b Bag
    requires { IfSome summed.now (λ own. own ≡ bag.now) }
    ensures { result.now ≡ bag.now }
{
    match summed {
        Some(own) => own,
        None => bag,
    }
}

// The sums over all sets, if the bag has them.
fn sums_in(bag: &Bag) -> Option<&Sums>
    ensures { IfSome result (λ sums. AreSums bag.now sums.now) }
{
    match bag.kept() {
        Votes::Summed(sums) => Some(sums),
        _ => None,
    }
}

// The halved sums, if the bag has these.
fn halves_in(bag: &Bag) -> Option<&Halves>
    ensures { IfSome result (λ halves. AreHalves bag.now halves.now) }
{
    match bag.kept() {
        Votes::Halved(halves) => Some(halves),
        _ => None,
    }
}

// The number of rows that are counted before the sums over all sets are made. If the sums are already made, or can't be made, there
// is no limit.
fn rows_before_sums(bag: &Bag) -> u64 {
    match bag.kept() {
        Votes::Listed(lists) if bag.candidates() <= MOST_SUMMED => rows_in_time(
            bag.candidates(),
            count_of(lists),
            can_be_halved(lists),
        ),
        _ => u64::MAX,
    }
}

// The tallies of the set `s`, counted. `set` is its number.
fn row_of(alloc: Global, bag: &Bag, s: CandSet, set: u32) -> Result<Vec<u32>, Memory>
    requires same { set ≡ s }
    requires below { s < 2 ^ bag.now.n }
    ensures { IfOk result (λ row. row.items ≡ votes_of bag.now set) }
{
    let mut row = Vec::with_capacity(alloc, bag.candidates() as usize)?;
    for c in 0..bag.candidates() {
        let c = Candidate(c as u8);
        row.push(if s.has(c) { bag.votes(c, set) } else { 0 })?;
    }
    Ok(row)
}

// What a row has for those in the set, and 0 for the others.
fn tallied(alloc: Global, n: u32, row: &[u32], s: CandSet) -> Result<Vec<u32>, Memory>
    requires room { n ≤ ROOM }
    requires one_each { length row.now ≡ n }
    ensures { IfOk result (λ tallied. tallied.items
        ≡ map (λ c. if has s c then get_or row.now c 0 else 0) (candidates n)) }
{
    let mut tallied = Vec::with_capacity(alloc, n as usize)?;
    for c in 0..n {
        let c = Candidate(c as u8);
        tallied.push(if s.has(c) { row[c.index()] } else { 0 })?;
    }
    Ok(tallied)
}

impl<'b> Tallies<'b> {
    /// The tallies over the records of the bag, which `ahead` was filled from. Once as many rows have been counted as pay before
    /// the sums over all sets are made (`rows_in_time`), tallies that are alone make the sums, and others give up as if memory had
    /// run out.
    pub fn new(
        alloc: Global,
        bag: &'b Bag,
        ahead: &'b Ahead,
        alone: bool,
    ) -> Result<Tallies<'b>, Memory>
        requires { AreFilledFrom bag.now ahead.now }
        ensures bag { IfOk result (λ t. t.bag ≡ bag.now) }
        ensures counts { IfOk result (λ t. t.counts ≡ ahead.now) }
    {
        Ok(Tallies {
            alloc,
            bag,
            ahead,
            rows: Rows::new(alloc),
            left: rows_before_sums(bag),
            alone,
            summed: None,
        })
    }

    /// The number of candidates.
    pub fn candidates(&self) -> u32
        ensures same { result ≡ self.now.bag.n }
        ensures fewest { FEWEST_CANDIDATES ≤ result }
        ensures room { result ≤ ROOM }
    {
        self.bag.candidates()
    }

    /// The number of records.
    pub fn records(&self) -> u32
        ensures same { (records : List (List ℕ)) → IsOf self.now.bag records
            → result ≡ length records }
        ensures most { result ≤ MOST_RECORDS }
    {
        self.bag.records()
    }

    /// The two numbers of NEB's margin over these records.
    pub fn ahead(&self) -> &Ahead
        ensures same { result.now ≡ self.now.counts }
        ensures own { AreFilledFrom self.now.bag self.now.counts }
    {
        self.ahead
    }

    /// The tallies of the candidates in the set `s`, lent if they are available: one number for each candidate. The numbers of
    /// those outside the set are unknown.
    pub fn row(&self, s: CandSet) -> Option<&[u32]>
        requires { s < 2 ^ self.now.bag.n }
        ensures tallies { IfSome result (λ row. (records : List (List ℕ)) → IsOf self.now.bag records
            → HasTallies records self.now.bag.n s row.now) }
        ensures one_each { IfSome result (λ row. length row.now ≡ self.now.bag.n) }
    {
        match sums_in(with_sums(self.bag, &self.summed)) {
            Some(sums) => Some(sums.row(s.number())),
            None => self.rows.get(s.number()),
        }
    }

    // If no more rows may be counted, tallies that are alone make the sums instead of the rows, and others give up.
    fn go_on(&mut self) -> Result<(), Memory>
        ensures { self.new ≡ self.old }
    {
        if self.left > 0 {
            return Ok(());
        }
        if !self.alone {
            return Err(Memory);
        }
        self.left = u64::MAX;
        self.rows = Rows::new(self.alloc);
        self.summed = self.bag.summed(self.alloc)?;
        Ok(())
    }

    /// The tallies of the candidates in the set `s`: one number for each candidate, 0 for those outside the set.
    pub fn tally(&mut self, s: CandSet) -> Result<Vec<u32>, Memory>
        requires { s < 2 ^ self.old.bag.n }
        ensures tallies { IfOk result (λ row. (records : List (List ℕ)) → IsOf self.old.bag records
            → row.items ≡ tallies records self.old.bag.n s) }
        ensures one_each { IfOk result (λ row. length row.items ≡ self.old.bag.n) }
        ensures same { self.new ≡ self.old }
    {
        self.go_on()?;
        if let Some(row) = self.row(s) {
            let copied = tallied(self.alloc, self.bag.candidates(), row, s)?;
            return Ok(copied);
        }
        if let Some(halves) = halves_in(with_sums(self.bag, &self.summed)) {
            let row = halves.row(self.alloc, s)?;
            return Ok(row);
        }
        self.left = self.left.saturating_sub(1);
        let set = s.number();
        let votes = row_of(self.alloc, self.bag, s, set)?;
        let answer = Vec::from_slice(self.alloc, &votes)?;
        self.rows.keep(set, votes)?;
        Ok(answer)
    }
}
