// The set of all candidates.
ghost use Rattle.std.specs.Prelude.{◌≡◌, ◌≤◌};
ghost use Rattle.irv_base.specs.Candidates.{candidates, set_of};
ghost use Rattle.irv_base.specs.declared.limits.TheConstants.{ROOM};

use irv_base::{CandSet, Candidate};

/// The set of all `n` candidates.
pub(crate) fn all_of(n: u32) -> CandSet
    requires { n ≤ ROOM }
    ensures { result ≡ set_of (candidates n) }
{
    let mut all = CandSet::empty();
    for c in 0..n as u8 {
        all = all.with(Candidate(c));
    }
    all
}
