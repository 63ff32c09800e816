// Which elimination orders an assertion refutes.
ghost use Rattle.std.specs.Prelude.{◌≡◌, IsTrue};
ghost use Rattle.irv_base.specs.Candidates.{is_distinct, set_of};
ghost use Rattle.assertions.specs.Refutation.{refutes, part_from};

use crate::Assertion;
use irv_base::{CandSet, Candidate};

/// The part of the suffix from `c` to the end.
fn part_from(suffix: &[Candidate], c: Candidate) -> &[Candidate]
    ensures { result.now ≡ part_from suffix.now c }
{
    for i in 0..suffix.len() {
        if suffix[i] == c {
            return &suffix[i..];
        }
    }
    &suffix[suffix.len()..]
}

fn set_of(suffix: &[Candidate]) -> CandSet
    requires { IsTrue (is_distinct suffix.now) }
    ensures { result ≡ set_of suffix.now }
{
    let mut set = CandSet::empty();
    for c in suffix {
        set = set.with(*c);
    }
    set
}

/// Whether the assertion refutes each elimination order that ends in the suffix `t`, first eliminated first.
///
/// NEB refutes a suffix that includes `l` and in which `w` comes before `l` or doesn't appear. NEN refutes a suffix that includes
/// `w` and whose candidates from `w` to the end are exactly `rest`.
pub fn refutes(a: &Assertion, t: &[Candidate]) -> bool
    requires { IsTrue (is_distinct t.now) }
    ensures { result ≡ refutes a.now t.now }
{
    match *a {
        Assertion::Neb { w, l } => t.contains(&l) && !part_from(t, l).contains(&w),
        Assertion::Nen { w, l: _, rest } => t.contains(&w) && set_of(part_from(t, w)) == rest,
    }
}
