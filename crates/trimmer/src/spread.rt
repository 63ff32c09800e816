// The sets that are reached when a claim is removed.
ghost use Rattle.std.specs.Prelude.{◌≡◌, ◌<◌, ◌≤◌, ℕ, false, Contains, IsTrue, OnOk, IfErr};
ghost use Rattle.irv_base.specs.Candidates.{has};
ghost use Rattle.irv_base.specs.declared.limits.TheConstants.{ROOM};
ghost use Rattle.assertions.specs.Assertions.{is_proper};
ghost use Rattle.assertions.specs.Steps.{more};
ghost use Rattle.set_walk.specs.Walks.{passes, standing};
ghost use Rattle.cover_checker.specs.Reaching.{Extends};
ghost use Rattle.trimmer.specs.Remaining.{assertions_in};
ghost use Rattle.trimmer.specs.Spreading.{AreNewClosed, AreOpenedFollowed, AreReached, AreStanding, IsFollowed, IsHalt, IsSpread, IsStart, assertions_with};
ghost use Rattle.trimmer.specs.declared.spread.Halt.TheVariants.{Memory as WantOfMemory};

use crate::remaining::Remaining;
use assertions::{Assertion, Claim};
use cover_checker::Reached;
use irv_base::{CandSet, Candidate, Memory};

/// Why a spread stops before its end.
#[derive(Clone, Copy)]
pub enum Halt {
    /// An order stands.
    Stands,
    /// More sets are reached than the budget has.
    Spent,
    /// Memory could not be allocated.
    Memory,
}

impl From<Memory> for Halt {
    ghost from_gives = { λ _ halt. halt ≡ WantOfMemory };

    fn from(_: Memory) -> Self {
        Halt::Memory
    }
}

/// The steps that claims allow. Each goes from the set of a suffix that stands to the set with one more candidate in front.
#[derive(Drop)]
pub struct Steps<'a> {
    /// The number of candidates in the contest.
    pub n: u32,
    /// The winner.
    pub winner: Candidate,
    /// The number of sets that may be reached.
    pub budget: u32,
    /// The claims.
    pub claims: &'a Remaining<'a>,
}

impl Steps<'_> {
    // Reaches the set with the candidate in front, and all sets that are reached from there, unless a claim keeps it out.
    //
    // The recursion goes as deep as the number of candidates.
    fn follow(&self, set: CandSet, c: Candidate, reached: &mut Reached) -> Result<(), Halt>
        requires room { self.now.n ≤ ROOM }
        requires below { c < self.now.n }
        requires outside { has set c ≡ false }
        requires start { IsStart self.now.winner
            (standing self.now.n self.now.winner (passes (assertions_in self.now.claims.now))) set c }
        ensures spread { IsSpread self.now.n self.now.winner self.now.budget (assertions_in self.now.claims.now)
            reached.old reached.new }
        ensures followed { OnOk result (IsFollowed (assertions_in self.now.claims.now) reached.new set c) }
        ensures closed { OnOk result (AreNewClosed self.now.n (assertions_in self.now.claims.now)
            reached.old reached.new) }
        ensures halt { IfErr result (IsHalt self.now.n self.now.winner (assertions_in self.now.claims.now)) }
    {
        let more = set.with(c);
        if self.claims.is_any_new(c, more) {
            return Ok(());
        }
        if reached.contains(more) {
            return Ok(());
        }
        if more.len() == self.n {
            return Err(Halt::Stands);
        }
        if reached.len() >= self.budget as usize {
            return Err(Halt::Spent);
        }
        reached.push(more)?;
        for d in 0..self.n as u8 {
            let d = Candidate(d);
            if !more.has(d) {
                self.follow(more, d, reached)?;
            }
        }
        Ok(())
    }

    // Follows the steps with this candidate from each set that is reached, and from the empty set.
    fn follow_by(&self, c: Candidate, reached: &mut Reached) -> Result<(), Halt>
        requires room { self.now.n ≤ ROOM }
        requires below { c < self.now.n }
        requires stand { AreStanding self.now.n self.now.winner (assertions_in self.now.claims.now) reached.old }
        ensures spread { IsSpread self.now.n self.now.winner self.now.budget (assertions_in self.now.claims.now)
            reached.old reached.new }
        ensures followed { OnOk result ((set : ℕ) → IsStart self.now.winner reached.old set c → has set c ≡ false
            → IsFollowed (assertions_in self.now.claims.now) reached.new set c) }
        ensures closed { OnOk result (AreNewClosed self.now.n (assertions_in self.now.claims.now)
            reached.old reached.new) }
        ensures halt { IfErr result (IsHalt self.now.n self.now.winner (assertions_in self.now.claims.now)) }
    {
        let many = reached.len();
        if c != self.winner {
            self.follow(CandSet::empty(), c, reached)?;
        }
        for i in 0..many {
            let set = reached.at(i);
            if !set.has(c) {
                self.follow(set, c, reached)?;
            }
        }
        Ok(())
    }

    // Follows the step with this candidate into the set, if the set without the candidate is reached.
    fn follow_into(&self, set: CandSet, c: Candidate, reached: &mut Reached) -> Result<(), Halt>
        requires room { self.now.n ≤ ROOM }
        requires below { c < self.now.n }
        requires stand { AreStanding self.now.n self.now.winner (assertions_in self.now.claims.now) reached.old }
        ensures spread { IsSpread self.now.n self.now.winner self.now.budget (assertions_in self.now.claims.now)
            reached.old reached.new }
        ensures followed { OnOk result ((tail : ℕ) → Contains reached.old tail → has tail c ≡ false
            → set ≡ more tail c → IsFollowed (assertions_in self.now.claims.now) reached.new tail c) }
        ensures closed { OnOk result (AreNewClosed self.now.n (assertions_in self.now.claims.now)
            reached.old reached.new) }
        ensures halt { IfErr result (IsHalt self.now.n self.now.winner (assertions_in self.now.claims.now)) }
    {
        let tail = set.without(c);
        if reached.contains(tail) {
            self.follow(tail, c, reached)
        } else {
            Ok(())
        }
    }

    // Follows each step from the reached sets that the assertion kept out, unless a claim keeps it out. If a claim is the same NEB, there is
    // no step to follow.
    fn open(&self, a: &Assertion, reached: &mut Reached) -> Result<(), Halt>
        requires room { self.now.n ≤ ROOM }
        requires proper { IsTrue (is_proper self.now.n a.now) }
        requires stand { AreStanding self.now.n self.now.winner (assertions_in self.now.claims.now) reached.old }
        ensures spread { IsSpread self.now.n self.now.winner self.now.budget (assertions_in self.now.claims.now)
            reached.old reached.new }
        ensures opened { OnOk result (AreOpenedFollowed self.now.n self.now.winner a.now
            (assertions_in self.now.claims.now) reached.old reached.new) }
        ensures closed { OnOk result (AreNewClosed self.now.n (assertions_in self.now.claims.now)
            reached.old reached.new) }
        ensures halt { IfErr result (IsHalt self.now.n self.now.winner (assertions_in self.now.claims.now)) }
    {
        match *a {
            Assertion::Neb { w, l } => {
                if self.claims.has_neb(w, l) {
                    return Ok(());
                }
                self.follow_by(l, reached)
            }
            Assertion::Nen { w, l: _, rest } => self.follow_into(rest, w, reached),
        }
    }

    /// Extends the sets that are reached with one more claim to those that are reached without it.
    ///
    /// The time grows with the number of new sets. For a NEB, each set that was already reached is also examined once.
    pub fn leave_out(&self, claim: &Claim, reached: &mut Reached) -> Result<(), Halt>
        requires room { self.now.n ≤ ROOM }
        requires proper { IsTrue (is_proper self.now.n claim.now.assertion) }
        requires with { AreReached self.now.n self.now.winner self.now.budget
            (assertions_with claim.now self.now.claims.now) reached.old }
        ensures were { Extends reached.old reached.new }
        ensures without { OnOk result (AreReached self.now.n self.now.winner self.now.budget
            (assertions_in self.now.claims.now) reached.new) }
        ensures halt { IfErr result (IsHalt self.now.n self.now.winner (assertions_in self.now.claims.now)) }
    {
        self.open(&claim.assertion, reached)
    }
}
