// Claims about a contest of three candidates, which are read, and are adopted or not. Ids are one above the numbers of the candidates.
use crate::contests::{ONE, TWO, ZERO};
use adoption::{Adoption, adopt};
use assertions::Assertion;
use ballot_reader::read_ballots;
use budget::Budget;
use claims_file::read_claims;
use cover_checker::CoverFault;
use std::process::Abort;
use std::thread::Threads;

const BALLOTS: &str =
    "1\nContest,1,3,1,2,3\n1,t_1,1\n1,t_2,1\n1,t_3,1\n1,t_4,1\n1,t_5,1\n1,t_6,2,3\n1,t_7,2,3\n1,t_8,2,3\n1,t_9,2,3\n1,t_10,3,2\n1,t_11,3,2\n1,t_12,3,2\n";

// The claims in another order, one of them twice, and with margins that mean nothing.
const CLAIMS: &str =
    "{\"candidates\":[\"3\",\"1\",\"2\"],\"contest\":\"1\",\"winner\":\"2\",\"assertions\":[{\"kind\":\"NEN\",\"winner\":\"2\",\"loser\":\"1\",\"rest\":[\"2\",\"1\"],\"margin\":0},{\"kind\":\"NEB\",\"winner\":\"2\",\"loser\":\"3\"},{\"kind\":\"NEN\",\"winner\":\"2\",\"loser\":\"1\",\"rest\":[\"1\",\"2\"],\"margin\":7}]}";

const NEN: &str =
    "{\"kind\":\"NEN\",\"winner\":\"2\",\"loser\":\"1\",\"rest\":[\"1\",\"2\"],\"margin\":7}";

// Only the NEB.
const LESS: &str =
    "{\"candidates\":[\"1\",\"2\",\"3\"],\"contest\":\"1\",\"winner\":\"2\",\"assertions\":[{\"kind\":\"NEB\",\"winner\":\"2\",\"loser\":\"3\"}]}";

fn adopted<R: Abort + AllocGlobal + Threads + Sync>(
    rt: &R,
    claims: &str,
) -> Result<Adoption, CoverFault> {
    let alloc = rt.alloc();
    let ballots = read_ballots(alloc, BALLOTS.as_bytes(), None).expect(rt, "ballots");
    let votes = ballots.votes(alloc).expect(rt, "votes");
    let counted = votes.counted(rt, 1).expect(rt, "counted");
    let mut tallies = counted.tallies().expect(rt, "tallies");
    let claims = read_claims(
        alloc,
        votes.contest(),
        votes.candidates(),
        claims.as_bytes(),
    )
    .expect(rt, "claims");
    adopt(alloc, &votes, &mut tallies, &claims, Budget::Nodes(100))
}

// The result for the claims with one text replaced by another.
fn changed<R: Abort + AllocGlobal + Threads + Sync>(
    rt: &R,
    from: &str,
    to: &str,
) -> Result<Adoption, CoverFault> {
    let claims = CLAIMS.replace(rt.alloc(), from, to).expect(rt, "text");
    adopted(rt, claims.as_str())
}

#[test]
fn claims_are_adopted(rt: HostRuntime) {
    match adopted(&rt, CLAIMS) {
        Ok(Adoption::Adopted(file)) => {
            assert!(rt; file.records() == 12 && file.winner() == ONE && file.margin() == 1);
            assert!(rt; file.order().is_none());
            let claims = file.claims();
            assert!(rt; claims.len() == 2);
            assert!(rt; claims[0].assertion == Assertion::Neb { w: ONE, l: TWO });
            assert!(rt; claims[0].margin == 1 && claims[1].margin == 2);
        }
        _ => assert!(rt; false),
    }
}

#[test]
fn claim_is_not_true(rt: HostRuntime) {
    let untrue = "{\"kind\":\"NEB\",\"winner\":\"1\",\"loser\":\"2\"}";
    match &changed(&rt, NEN, untrue) {
        Ok(Adoption::Untrue(assertion)) => {
            assert!(rt; *assertion == Assertion::Neb { w: ZERO, l: ONE })
        }
        _ => assert!(rt; false),
    }
}

#[test]
fn order_stands(rt: HostRuntime) {
    match &adopted(&rt, LESS) {
        Ok(Adoption::Stands(order)) => {
            assert!(rt; order.candidates() == [TWO, ONE, ZERO].as_slice())
        }
        _ => assert!(rt; false),
    }
}

#[test]
fn winner_is_another(rt: HostRuntime) {
    let other = changed(
        &rt,
        "\"contest\":\"1\",\"winner\":\"2\"",
        "\"contest\":\"1\",\"winner\":\"3\"",
    );
    assert!(rt; matches!(other, Ok(Adoption::OtherWinner(ONE))));
}
