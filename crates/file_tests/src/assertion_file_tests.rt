// Tests of `assertion_file`: the texts of whole files, byte for byte.
mod covering;
mod planned;
mod reading;

use assertion_file::{AssertionFile, Parts, print_file};
use assertions::{Assertion, Claim};
use irv_base::{CandSet, Candidate, Name, Order};
use std::test::Fail;

// The canonical certificate of a contest of three candidates.
const THREE_CANDIDATES: &str =
    "{\"assertions\":[{\"kind\":\"NEB\",\"loser\":\"3\",\"margin\":1,\"winner\":\"2\"},{\"kind\":\"NEN\",\"loser\":\"1\",\"margin\":2,\"rest\":[\"1\",\"2\"],\"winner\":\"2\"},{\"kind\":\"NEN\",\"loser\":\"1\",\"margin\":2,\"rest\":[\"1\",\"3\"],\"winner\":\"3\"}],\"candidates\":[\"1\",\"2\",\"3\"],\"contest\":\"1\",\"margin\":1,\"order\":[\"2\",\"1\",\"3\"],\"records\":12,\"version\":1,\"winner\":\"2\"}\n";

const ONE: Candidate = Candidate(0);

const TWO: Candidate = Candidate(1);

const THREE: Candidate = Candidate(2);

#[test]
fn three_candidates_canonical_certificate(rt: HostRuntime) -> Result<(), Fail> {
    let alloc = rt.alloc();
    let one = Name::read(b"1".as_slice()).expect(&rt, "name");
    let two = Name::read(b"2".as_slice()).expect(&rt, "name");
    let three = Name::read(b"3".as_slice()).expect(&rt, "name");
    let order = Order::read(3, [1, 0, 2].as_slice()).expect(&rt, "order");
    let neb = Assertion::Neb { w: TWO, l: THREE };
    let of_two = Assertion::Nen {
        w: TWO,
        l: ONE,
        rest: CandSet::empty().with(ONE).with(TWO),
    };
    let of_three = Assertion::Nen {
        w: THREE,
        l: ONE,
        rest: CandSet::empty().with(ONE).with(THREE),
    };
    let claims = vec![in alloc;
        Claim {
            assertion: neb,
            margin: 1
        },
        Claim {
            assertion: of_two,
            margin: 2
        },
        Claim {
            assertion: of_three,
            margin: 2
        },
    ]?;
    let candidates = vec![in alloc; one, two, three]?;
    let file = AssertionFile::new(Parts {
        contest: one,
        candidates,
        records: 12,
        winner: TWO,
        margin: 1,
        order: Some(order),
        claims,
        plan: None,
    });
    let text = print_file(alloc, &file)?;
    assert!(rt; text.as_slice() == THREE_CANDIDATES.as_bytes());
    Ok(())
}

#[test]
fn backslash_in_an_id(rt: HostRuntime) -> Result<(), Fail> {
    let alloc = rt.alloc();
    let contest = Name::read(b"7".as_slice()).expect(&rt, "name");
    let one = Name::read(b"A\\1".as_slice()).expect(&rt, "name");
    let two = Name::read(b"B".as_slice()).expect(&rt, "name");
    let order = Order::read(2, [0, 1].as_slice()).expect(&rt, "order");
    let neb = Assertion::Neb { w: ONE, l: TWO };
    let claims = vec![in alloc;
        Claim {
            assertion: neb,
            margin: 1
        },
    ]?;
    let candidates = vec![in alloc; one, two]?;
    let file = AssertionFile::new(Parts {
        contest,
        candidates,
        records: 5,
        winner: ONE,
        margin: 1,
        order: Some(order),
        claims,
        plan: None,
    });
    let text = print_file(alloc, &file)?;
    assert!(rt;
        text.as_slice()
            == b"{\"assertions\":[{\"kind\":\"NEB\",\"loser\":\"B\",\"margin\":1,\"winner\":\"A\\\\1\"}],\"candidates\":[\"A\\\\1\",\"B\"],\"contest\":\"7\",\"margin\":1,\"order\":[\"A\\\\1\",\"B\"],\"records\":5,\"version\":1,\"winner\":\"A\\\\1\"}\n".as_slice()
    );
    Ok(())
}
