// The rooms of steps, by the tallies of a contest.
ghost use Rattle.std.specs.Prelude.{◌≡◌, ◌<◌, ◌≤◌, ◌^◌, ℕ, List, false, IfOk};
ghost use Rattle.irv_base.specs.Candidates.{has};
ghost use Rattle.assertions.specs.Steps.{more};
ghost use Rattle.set_tallies.specs.Bags.{IsOf};
ghost use Rattle.nen_cut.specs.Floors.{IsCutter, stands};

use crate::barring::is_barred;
use crate::strongest::{Strongest, strongest_nen};
use irv_base::{CandSet, Candidate, Memory};
use set_flow::{Room, Steps};
use set_tallies::Tallies;

/// The steps of orders that elect a candidate other than the winner, and the true assertions of at least a margin that refute them.
#[derive(Drop)]
pub(crate) struct ByTallies<'b> {
    pub tallies: Tallies<'b>,
    pub winner: Candidate,
    pub least: u32,
}

impl<'b> ByTallies<'b> {
    /// The strongest NEN that refutes the step, if it has the margin.
    pub fn cutter(&mut self, set: CandSet, c: Candidate) -> Result<Option<Strongest>, Memory>
        requires set { set < 2 ^ self.old.tallies.bag.n }
        requires below { c < self.old.tallies.bag.n }
        requires outside { has set c ≡ false }
        ensures same { self.new ≡ self.old }
        ensures cutter { (records : List (List ℕ)) → IsOf self.old.tallies.bag records
            → IfOk result (IsCutter self.old.tallies.bag.n records self.old.least c (more set c)) }
    {
        let n = self.tallies.candidates();
        let with = set.with(c);
        match self.tallies.row(with) {
            Some(row) => Ok(strongest_nen(n, with, c, row, self.least)),
            None => {
                let row = self.tallies.tally(with)?;
                Ok(strongest_nen(n, with, c, &row, self.least))
            }
        }
    }

    /// Whether the step is one of an order that elects a candidate other than the winner, and no NEB of the margin bars it.
    pub fn stands(&self, set: CandSet, c: Candidate) -> bool
        requires set { set < 2 ^ self.now.tallies.bag.n }
        requires below { c < self.now.tallies.bag.n }
        requires outside { has set c ≡ false }
        ensures { (records : List (List ℕ)) → IsOf self.now.tallies.bag records
            → result ≡ stands self.now.tallies.bag.n self.now.winner records self.now.least set c }
    {
        let is_first = set.is_empty() && c == self.winner;
        !is_first && !is_barred(self.tallies.ahead(), set, c, self.least)
    }
}

impl<'b> Steps for ByTallies<'b> {
    ghost use Rattle.std.specs.Prelude.{◌≡◌, ℕ, List};
    ghost use Rattle.set_tallies.specs.Bags.{IsOf};
    ghost use Rattle.set_flow.specs.Rooms.{room_of};

    ghost size = { λ s. s.tallies.bag.n };

    ghost is_by = { λ s rooms. (records : List (List ℕ)) × IsOf s.tallies.bag records
        × (rooms ≡ room_of s.tallies.bag.n s.winner records s.least) };

    fn room(&mut self, set: CandSet, c: Candidate) -> Result<Room, Memory> {
        if !self.stands(set, c) {
            return Ok(Room::Closed);
        }
        match self.cutter(set, c)? {
            Some(_) => Ok(Room::One),
            None => Ok(Room::Many),
        }
    }
}
