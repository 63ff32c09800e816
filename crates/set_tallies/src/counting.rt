// Ballots that are counted as they come.
ghost use Rattle.std.specs.Prelude.{◌≡◌, ℕ, ◌<◌, ◌≤◌, ◌++◌, ◌∷◌, [], List, All, false, length, IfOk, OnOk, OnErr};
ghost use Rattle.irv_base.specs.Candidates.{is_in};
ghost use Rattle.irv_base.specs.declared.limits.TheConstants.{MOST_RECORDS};
ghost use Rattle.set_tallies.specs.Sums.{IsCountOf};
ghost use Rattle.set_tallies.specs.declared.bag.TheConstants.{ALWAYS_SUMMED};

use crate::course;
use crate::course::Course;
use crate::table::{add, add_table, zeros};
use irv_base::{Candidate, MOST_RECORDS, Memory};
use std::alloc::Global;
use std::marker::Model;
use std::snapshot::Snapshot;

/// The rankings of ballots, each counted as it comes, in a table with a number for each set of candidates and each candidate. No
/// ranking is kept.
///
/// In a contract, it is the number of candidates and the list of the rankings.
#[derive(Drop)]
pub struct Counting {
    n: u32,
    records: u32,
    // the candidates of the last ranking
    seen: u32,
    table: Vec<u32>,
    course: Snapshot<Course>,
}

impl Model for Counting {
    ghost use Rattle.set_tallies.specs.Countings.{AreCounted, CountedRankings, rankings_by};

    ghost Value = { CountedRankings };

    ghost view = { λ c. record { n = c.n; rankings = rankings_by c.course.value } };

    ghost invariant = { λ c.
        AreCounted c.n c.records c.seen c.table.items (rankings_by c.course.value) };
}

impl Counting {
    /// Starts a counting of rankings of `n` candidates, with no rankings yet.
    pub fn nothing(alloc: Global, n: u32) -> Result<Counting, Memory>
        requires { n ≤ ALWAYS_SUMMED }
        ensures candidates { IfOk result (λ none. none.n ≡ n) }
        ensures none { IfOk result (λ none. none.rankings ≡ []) }
    {
        Ok(Counting {
            n,
            records: 0,
            seen: 0,
            table: zeros(alloc, n)?,
            course: Snapshot::of(&Course::Nothing),
        })
    }

    /// The number of candidates.
    pub fn candidates(&self) -> u32
        ensures same { result ≡ self.now.n }
        ensures few { result ≤ ALWAYS_SUMMED }
        ensures below { All (λ ranking. All (λ c. c < self.now.n) ranking) self.now.rankings }
    {
        self.n
    }

    /// The number of rankings.
    pub fn len(&self) -> usize
        ensures all { result ≡ length self.now.rankings }
        ensures most { result ≤ MOST_RECORDS }
    {
        self.records as usize
    }

    /// Appends a ranking without candidates. If there would be more than `MOST_RECORDS`, the answer is `Memory`.
    pub fn begin(&mut self) -> Result<(), Memory>
        ensures candidates { self.new.n ≡ self.old.n }
        ensures begun { OnOk result (self.new.rankings ≡ self.old.rankings ++ [] ∷ []) }
        ensures same { OnErr result (self.new ≡ self.old) }
    {
        if self.records >= MOST_RECORDS {
            return Err(Memory);
        }
        self.records += 1;
        self.seen = 0;
        course::begin(&mut self.course);
        Ok(())
    }

    /// Appends a candidate who isn't in the last ranking to that ranking.
    pub fn lengthen(&mut self, c: Candidate)
        requires below { c < self.now.n }
        requires last { (earlier : List (List ℕ)) × (last : List ℕ)
            × (self.now.rankings ≡ earlier ++ last ∷ []) × (is_in last c ≡ false) }
        ensures candidates { self.new.n ≡ self.old.n }
        ensures longer { (earlier : List (List ℕ)) → (last : List ℕ)
            → self.old.rankings ≡ earlier ++ last ∷ []
            → self.new.rankings ≡ earlier ++ (last ++ c ∷ []) ∷ [] }
    {
        add(&mut self.table, self.n, self.seen, c, 1);
        self.seen |= 1 << c.index();
        course::lengthen(&mut self.course, c);
    }

    /// Appends other rankings of the same candidates, in order. If there would be more than `MOST_RECORDS` in all, the answer is
    /// `Memory`.
    pub fn append(&mut self, others: &Counting) -> Result<(), Memory>
        requires { others.now.n ≡ self.now.n }
        ensures candidates { self.new.n ≡ self.old.n }
        ensures appended { OnOk result (self.new.rankings ≡ self.old.rankings ++ others.now.rankings) }
        ensures same { OnErr result (self.new ≡ self.old) }
    {
        if others.records > MOST_RECORDS - self.records {
            return Err(Memory);
        }
        self.seen = if others.records == 0 {
            self.seen
        } else {
            others.seen
        };
        self.records += others.records;
        add_table(&mut self.table, &others.table);
        course::append(&mut self.course, &others.course);
        Ok(())
    }

    // The number of rankings that have exactly a given set before a candidate, for each set and candidate.
    pub(crate) fn table(&self) -> &[u32]
        ensures counts { IsCountOf self.now.n self.now.rankings result.now }
        ensures most { length self.now.rankings ≤ MOST_RECORDS }
    {
        self.table.as_slice()
    }
}
