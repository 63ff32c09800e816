// Tests of margins over ballots that were counted by hand.
ghost use Rattle.std.specs.Prelude.{◌≡◌};

use crate::contests::{ONE, ZERO, counted_of, one_against_two};
use assertions::{Assertion, margin};
use irv_base::CandSet;

fn zero_and_one() -> CandSet
    ensures { result ≡ 3 }
{
    CandSet::empty().with(ZERO).with(ONE)
}

#[test]
fn margins_have_a_sign(rt: HostRuntime) {
    let rankings = one_against_two();
    let counted = counted_of(&rt, 2, rankings.as_slice(), 1).expect(&rt, "counted");
    let mut tallies = counted.tallies().expect(&rt, "tallies");
    let neb = Assertion::Neb { w: ZERO, l: ONE };
    assert!(rt; margin(&neb, &mut tallies) == Ok(-1));
    let nen = Assertion::Nen {
        w: ONE,
        l: ZERO,
        rest: zero_and_one(),
    };
    assert!(rt; margin(&nen, &mut tallies) == Ok(1));
}
