// What a walk keeps.
ghost use Rattle.std.specs.Prelude.{◌≡◌, ℕ, List, Bool, ◌∷◌, ◌<◌, ◌≤◌, length, IsTrue};
ghost use Rattle.irv_base.specs.declared.limits.TheConstants.{ROOM};
ghost use Rattle.irv_base.specs.Suffixes.{is_suffix};
ghost use Rattle.suffix_walk.specs.Kept.{is_parent_kept};

use irv_base::Suffix;

/// A test of suffixes. If it keeps a suffix, it keeps each shorter suffix that this one ends in.
pub trait Keeps {
    /// The number of candidates in the contest.
    ghost size: { Self → ℕ };

    ghost kept: { Self → List ℕ → Bool };

    /// Whether the test keeps a suffix, given that it keeps the suffix's parent: the suffix without its first candidate.
    fn keeps(&self, suffix: &Suffix) -> bool
        requires room { size self.now ≤ ROOM }
        requires proper { IsTrue (is_suffix (size self.now) suffix.now) }
        requires some { 0 < length suffix.now }
        requires parent { IsTrue (is_parent_kept (kept self.now) suffix.now) }
        ensures { result ≡ kept self.now suffix.now };

    ghost shrinks: { (t : Self) (c : ℕ) (suffix : List ℕ) → IsTrue (is_suffix (size t) (c ∷ suffix))
        → IsTrue (kept t (c ∷ suffix)) → IsTrue (kept t suffix) };
}
