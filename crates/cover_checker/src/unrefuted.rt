// The suffixes that no assertion of a list refutes.
ghost use Rattle.cover_checker.specs.Covers.{stands};
ghost use Rattle.cover_checker.specs.Shorter.{stands-shrinks};

use crate::index::Index;
use irv_base::Suffix;
use suffix_walk::Keeps;

/// A test that keeps the suffixes that no assertion of the list refutes.
#[derive(Drop)]
pub struct Unrefuted<'a> {
    /// The number of candidates in the contest.
    pub n: u32,
    /// The assertions.
    pub list: Index<'a>,
}

impl Keeps for Unrefuted<'_> {
    ghost size = { λ t. t.n };

    ghost kept = { λ t suffix. stands t.list suffix };

    ghost shrinks = { λ t c suffix proper h. stands-shrinks t.n t.list c suffix proper h };

    fn keeps(&self, suffix: &Suffix) -> bool {
        !self.list.is_any_new(suffix.first(), suffix.set())
    }
}
