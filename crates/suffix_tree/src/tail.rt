// The last candidates of an elimination order, and the number of candidates of the contest.
ghost use Rattle.std.specs.Prelude.{◌≡◌, ◌<◌, ◌≤◌, ◌==◌, ◌∷◌, ◌++◌, [], length, IsTrue, IsFalse};
ghost use Rattle.irv_base.specs.Candidates.{is_in, set_of};
ghost use Rattle.irv_base.specs.Suffixes.{is_suffix};
ghost use Rattle.irv_base.specs.declared.limits.TheConstants.{ROOM};
ghost use Rattle.suffix_tree.specs.Suffixes.{with_front, whole};

use irv_base::{CandSet, Candidate, Order, Suffix};
use std::marker::Model;

/// The last candidates of an elimination order, first eliminated first, so the winner is last, in a contest with `n` candidates. It
/// grows at its front.
///
/// In a contract, it is the list of these candidates, with the number of candidates of the contest.
#[derive(Clone, Copy)]
pub struct Tail {
    n: u32,
    suffix: Suffix,
}

impl Model for Tail {
    ghost use Rattle.suffix_tree.specs.Suffixes.{Suffix};
    ghost use Rattle.suffix_tree.specs.Places.{IsTail};

    ghost Value = { Suffix };

    ghost view = { λ t. record { n = t.n; list = t.suffix } };

    ghost invariant = { λ t. IsTail t.n t.suffix };

    ghost inverse = { λ v. record { n = v.n; suffix = v.list } };
}

impl Tail {
    // Starts with no candidates, in a contest with `n` candidates.
    pub(crate) fn none(n: u32) -> Tail
        requires some { 1 ≤ n }
        requires room { n ≤ ROOM }
        ensures number { result.n ≡ n }
        ensures none { result.list ≡ [] }
    {
        Tail {
            n,
            suffix: Suffix::empty(),
        }
    }

    /// The suffix with only the winner, in a contest with `n` candidates.
    pub fn last(n: u32, c: Candidate) -> Tail
        requires room { n ≤ ROOM }
        requires below { c < n }
        ensures number { result.n ≡ n }
        ensures alone { result.list ≡ c ∷ [] }
    {
        Tail::none(n).front(c)
    }

    /// The suffix with these candidates, in a contest with `n` candidates.
    pub fn of(n: u32, list: &[Candidate]) -> Tail
        requires some { 1 ≤ n }
        requires room { n ≤ ROOM }
        requires suffix { IsTrue (is_suffix n list.now) }
        ensures number { result.n ≡ n }
        ensures list { result.list ≡ list.now }
    {
        Tail::none(n).fronts(list)
    }

    /// Returns the suffix with `c` eliminated before all its candidates.
    pub fn front(&self, c: Candidate) -> Tail
        requires below { c < self.now.n }
        requires other { IsFalse (is_in self.now.list c) }
        ensures { result ≡ with_front self.now c }
    {
        Tail {
            n: self.n,
            suffix: self.suffix.with(c),
        }
    }

    /// Returns the suffix with these candidates eliminated before all its own, first eliminated first.
    pub fn fronts(&self, list: &[Candidate]) -> Tail
        requires { IsTrue (is_suffix self.now.n (list.now ++ self.now.list)) }
        ensures number { result.n ≡ self.now.n }
        ensures list { result.list ≡ list.now ++ self.now.list }
    {
        let mut tail = *self;
        let mut at = list.len();
        while at > 0 {
            at -= 1;
            tail = tail.front(list[at]);
        }
        tail
    }

    /// The candidates, first eliminated first.
    pub fn list(&self) -> &[Candidate]
        ensures same { result.now ≡ self.now.list }
        ensures suffix { IsTrue (is_suffix self.now.n self.now.list) }
    {
        self.suffix.list()
    }

    /// Returns the suffix as an order, if it has all candidates of the contest.
    pub fn whole(&self) -> Option<Order>
        ensures { result ≡ whole self.now }
    {
        self.suffix.whole(self.n)
    }

    /// Whether the suffix has all candidates of the contest.
    pub fn is_whole(&self) -> bool
        ensures { result ≡ (length self.now.list == self.now.n) }
    {
        self.suffix.len() == self.n
    }

    /// The number of candidates in the contest.
    pub fn candidates(&self) -> u32
        ensures same { result ≡ self.now.n }
        ensures some { 1 ≤ result }
        ensures room { result ≤ ROOM }
    {
        self.n
    }

    /// The set of the candidates in the suffix.
    pub fn set(&self) -> CandSet
        ensures { result ≡ set_of self.now.list }
    {
        self.suffix.set()
    }

    /// Whether the candidate is in the suffix.
    pub fn has(&self, c: Candidate) -> bool
        ensures { result ≡ is_in self.now.list c }
    {
        self.suffix.contains(c)
    }
}
