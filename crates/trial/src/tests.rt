// What is drawn from number 0.
use super::*;
use crate::draws::Draws;
use irv_base::Candidate;

#[test]
fn draws_four_numbers(rt: HostRuntime) {
    let mut draws = Draws::new(0);
    for (i, want) in [167_951_807, 218_396_424, 1_299_921_937, 861_605_236]
        .into_iter()
        .enumerate()
    {
        assert_eq!(rt; draws.next(), want, "draw {i}");
    }
}

#[test]
fn draws_one_ballot(rt: HostRuntime) {
    let records = trial_records(rt.alloc(), 0, 2, 1).expect(&rt, "records");
    assert!(rt; records.len() == 1);
    assert!(rt; records.at(0) == [Candidate(0)].as_slice());
}
