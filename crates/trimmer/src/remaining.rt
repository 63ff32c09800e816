// The claims that are left while they are tried from last to first.
ghost use Rattle.std.specs.Prelude.{◌≡◌, ◌<◌, ◌+◌, ◌-◌, ◌^◌, [], ◌∷◌, length, take, IfOk};
ghost use Rattle.std.specs.List.{list_any};
ghost use Rattle.cover_checker.specs.Indexed.{IsIndexOf, is_neb, is_new};
ghost use Rattle.trimmer.specs.Remaining.{assertions_in};

use crate::counted::Counted;
use assertions::Claim;
use cover_checker::Refuting;
use irv_base::{CandSet, Candidate, Memory};
use std::alloc::Global;
use std::marker::Model;

/// The claims that are left: those that haven't been tried, and the later ones that stay. It finds in constant time whether one of them
/// refutes a suffix anew, and leaves out or keeps a claim in a few steps.
///
/// In a contract, it is the two lists.
#[derive(Drop)]
pub struct Remaining<'a> {
    untried: &'a [Claim],
    // In order from last to first.
    kept: Vec<Claim>,
    counted: Counted,
}

impl<'a> Model for Remaining<'a> {
    ghost use Rattle.std.specs.Prelude.{reverse, length, ◌+◌, ◌<◌, ◌^◌};
    ghost use Rattle.trimmer.specs.Remaining.{Left, assertions_in};
    ghost use Rattle.trimmer.specs.Counted.{IsCountOf};

    ghost Value = { Left };

    ghost view = { λ r. record { untried = r.untried.now; kept = reverse r.kept.items } };

    ghost invariant = { λ r. IsCountOf
        (assertions_in (record { untried = r.untried.now; kept = reverse r.kept.items })) r.counted
        × (length r.untried.now + length r.kept.items < 2 ^ 64) };
}

impl<'a> Remaining<'a> {
    /// Takes all claims of a contest of `n` candidates, with none of them tried.
    pub fn all(alloc: Global, n: u32, claims: &'a [Claim]) -> Result<Remaining<'a>, Memory>
        ensures { IfOk result (λ r. r ≡ record { untried = claims.now; kept = [] }) }
    {
        let mut counted = Counted::none(alloc, n)?;
        for claim in claims {
            counted.add(&claim.assertion)?;
        }
        Ok(Remaining {
            untried: claims,
            kept: Vec::new(alloc),
            counted,
        })
    }

    /// Removes the last claim that hasn't been tried.
    pub fn without_last(self) -> Result<Remaining<'a>, Memory>
        requires { 0 < length self.untried }
        ensures others { IfOk result (λ r. r ≡ record {
          untried = take (length self.entry.untried - 1) self.entry.untried;
          kept = self.entry.kept;
        }) }
        ensures few { length self.entry.untried + length self.entry.kept < 2 ^ 64 }
    {
        let Remaining {
            untried,
            kept,
            mut counted,
        } = self;
        let place = untried.len() - 1;
        counted.forget(&untried[place].assertion)?;
        Ok(Remaining {
            untried: &untried[..place],
            kept,
            counted,
        })
    }

    /// Adds a claim that stays, before the others that stayed.
    pub fn with(self, claim: Claim) -> Result<Remaining<'a>, Memory>
        requires few { length self.untried + length self.kept < 2 ^ 64 - 1 }
        ensures { IfOk result (λ r. r ≡ record {
          untried = self.entry.untried;
          kept = claim ∷ self.entry.kept;
        }) }
    {
        let Remaining {
            untried,
            mut kept,
            mut counted,
        } = self;
        counted.add(&claim.assertion)?;
        kept.push(claim)?;
        Ok(Remaining {
            untried,
            kept,
            counted,
        })
    }

    /// Returns the claims that stayed.
    pub fn into_kept(self) -> Vec<Claim>
        ensures { result.items ≡ self.entry.kept }
    {
        let Remaining { mut kept, .. } = self;
        kept.reverse();
        kept
    }

    /// Returns what the claims refute.
    pub fn refuting(&self) -> &Refuting
        ensures { IsIndexOf (assertions_in self.now) result.now }
    {
        &self.counted.refuting
    }

    /// Returns whether one of the claims is the NEB of this winner over this loser.
    pub fn has_neb(&self, w: Candidate, l: Candidate) -> bool
        ensures { result ≡ list_any (is_neb w l) (assertions_in self.now) }
    {
        self.counted.has_neb(w, l)
    }

    /// Returns whether one of the claims refutes a suffix with this first candidate and this set, if none refutes its parent.
    pub fn is_any_new(&self, first: Candidate, set: CandSet) -> bool
        ensures { result ≡ list_any (λ a. is_new a first set) (assertions_in self.now) }
    {
        self.counted.refuting.is_any_new(first, set)
    }
}
