// A list of assertions, indexed by what each refutes.
//
// The index counts the assertions that refute the same thing, so that a trim can remove one of them.
ghost use Rattle.std.specs.Prelude.{◌≡◌, IfOk};
ghost use Rattle.std.specs.List.{list_any};
ghost use Rattle.cover_checker.specs.Indexed.{IsIndexOf, is_new};

use crate::refuting::Refuting;
use assertions::Assertion;
use irv_base::{CandSet, Candidate, Memory};
use std::alloc::Global;
use std::marker::Model;

/// A list of assertions that finds in constant time whether one of them refutes a suffix but doesn't refute it without its first
/// candidate.
///
/// In a contract, it is the list.
#[derive(Drop)]
pub struct Index<'a> {
    list: &'a [Assertion],
    refuting: Refuting,
}

impl<'a> Model for Index<'a> {
    ghost use Rattle.std.specs.Prelude.{List};
    ghost use Rattle.assertions.specs.declared.assertion.Assertion.{Assertion};
    ghost use Rattle.cover_checker.specs.Indexed.{IsIndexOf};

    ghost Value = { List Assertion };

    ghost view = { λ index. index.list.now };

    ghost invariant = { λ index. IsIndexOf index.list.now index.refuting };
}

impl<'a> Index<'a> {
    /// Builds the index of a list in a contest of `n` candidates. The time is linear in the list, except for sets of more than 20 candidates,
    /// which are sorted.
    pub fn of(alloc: Global, n: u32, list: &'a [Assertion]) -> Result<Index<'a>, Memory>
        ensures { IfOk result (λ index. index ≡ list.now) }
    {
        let mut refuting = Refuting::nothing(alloc, n)?;
        for a in list {
            refuting.add(a)?;
        }
        Ok(Index { list, refuting })
    }

    /// Returns what the assertions refute.
    pub fn refuting(&self) -> &Refuting
        ensures { IsIndexOf self.now result.now }
    {
        &self.refuting
    }

    /// Returns whether one of the assertions refutes a suffix with this first candidate and this set, if none refutes its parent.
    pub fn is_any_new(&self, first: Candidate, set: CandSet) -> bool
        ensures { result ≡ list_any (λ a. is_new a first set) self.now }
    {
        self.refuting.is_any_new(first, set)
    }
}
