// Tests of the texts of small contests, byte for byte. If ids are numbers, they are one above those of the candidates.
ghost use Rattle.std.specs.Prelude.{length, IfOk};
ghost use Rattle.irv_tabulator.specs.Results.{IsTabulation};

use crate::contests::{ONE, TWO, ZERO};
use assertions::Assertion;
use ballot_reader::read_ballots;
use ballots::Votes;
use irv_base::{CandSet, Name, Order};
use irv_tabulator::{TabFault, Tabulated, tabulate};
use km_risk::Counts;
use report::{
    add_risk, add_signed_off, add_state, assertion_text, counts_text, order_text, set_text,
    spent_at, spent_text, state_text, tabulation, tie_text, yes_or_no,
};
use std::thread::Threads;

fn tabulated<R: AllocGlobal + Threads + Sync>(rt: &R, votes: &Votes) -> Result<Tabulated, TabFault>
    ensures { IfOk result (IsTabulation (length (votes.now).candidates) (votes.now).rankings) }
{
    let counted = votes.counted(rt, 1)?;
    let mut tallies = counted.tallies()?;
    tabulate(rt.alloc(), &mut tallies)
}

#[test]
fn two_candidates(rt: HostRuntime) {
    let file = b"1\nContest,7,2,A,B\n7,b_1,A\n7,b_2,B,A\n7,b_3,B\n7,b_4\n".as_slice();
    let ballots = read_ballots(rt.alloc(), file, None).expect(&rt, "ballots");
    let votes = ballots.votes(rt.alloc()).expect(&rt, "votes");
    match tabulated(&rt, &votes) {
        Ok(t) => {
            let text = tabulation(rt.alloc(), &votes, &t).expect(&rt, "text");
            assert!(rt;
                text.as_str()
                    == "contest 7\nrecords 4\nround 1: A=1 B=2 exhausted=1\neliminated A\nwinner B\n"
            );
        }
        Err(_) => assert!(rt; false),
    }
}

// Only the first round has a tie.
#[test]
fn tie_for_the_last_place(rt: HostRuntime) {
    let file = b"1\nContest,1,3,1,2,3\n1,t_1,1\n1,t_2,1\n1,t_3,1\n".as_slice();
    let ballots = read_ballots(rt.alloc(), file, None).expect(&rt, "ballots");
    let votes = ballots.votes(rt.alloc()).expect(&rt, "votes");
    match tabulated(&rt, &votes) {
        Ok(t) => {
            let text = tabulation(rt.alloc(), &votes, &t).expect(&rt, "text");
            assert!(rt;
                text.as_str()
                    == "contest 1\nrecords 3\nround 1: 1=3 2=0 3=0 exhausted=0\ntied 2,3\neliminated 2\nround 2: 1=3 3=0 exhausted=0\neliminated 3\nwinner 1\n"
            );
        }
        Err(_) => assert!(rt; false),
    }
}

#[test]
fn order_and_set_of_three(rt: HostRuntime) {
    let one = Name::read(b"1".as_slice()).expect(&rt, "name");
    let two = Name::read(b"2".as_slice()).expect(&rt, "name");
    let three = Name::read(b"3".as_slice()).expect(&rt, "name");
    let names = [one, two, three];
    let order = Order::read(3, [1, 0, 2].as_slice()).expect(&rt, "order");
    let text = order_text(rt.alloc(), names.as_slice(), &order).expect(&rt, "order");
    assert!(rt; text.as_str() == "2,1,3");
    let set = CandSet::empty().with(ZERO).with(TWO);
    let text = set_text(rt.alloc(), names.as_slice(), set).expect(&rt, "set");
    assert!(rt; text.as_str() == "1,3");
}

#[test]
fn assertions_of_two(rt: HostRuntime) {
    let one = Name::read(b"A".as_slice()).expect(&rt, "name");
    let two = Name::read(b"B".as_slice()).expect(&rt, "name");
    let names = [one, two];
    let neb = Assertion::Neb { w: ZERO, l: ONE };
    let text = assertion_text(rt.alloc(), names.as_slice(), &neb).expect(&rt, "NEB");
    assert!(rt; text.as_str() == "NEB A B");
    let nen = Assertion::Nen {
        w: ONE,
        l: ZERO,
        rest: CandSet::empty().with(ZERO).with(ONE),
    };
    let text = assertion_text(rt.alloc(), names.as_slice(), &nen).expect(&rt, "NEN");
    assert!(rt; text.as_str() == "NEN B A {A,B}");
}

#[test]
fn ends_of_three(rt: HostRuntime) {
    let one = Name::read(b"1".as_slice()).expect(&rt, "name");
    let two = Name::read(b"2".as_slice()).expect(&rt, "name");
    let three = Name::read(b"3".as_slice()).expect(&rt, "name");
    let names = [one, two, three];
    let tied = CandSet::empty().with(ONE).with(TWO);
    let text = tie_text(rt.alloc(), names.as_slice(), 1, tied, 4).expect(&rt, "tie");
    assert!(rt; text.as_str() == "tie\nround 1\ntied 2,3\ntally 4\n");
    let order = Order::read(3, [1, 0, 2].as_slice()).expect(&rt, "order");
    let text = spent_text(rt.alloc(), names.as_slice(), TWO, &order, 1).expect(&rt, "spent");
    assert!(rt; text.as_str() == "spent\ncandidate 3\norder 2,1,3\nmargin 1\n");
    let text = spent_at(rt.alloc(), "3").expect(&rt, "spent");
    assert!(rt; text.as_str() == "spent\ncandidate 3\n");
}

#[test]
fn risk_and_counts(rt: HostRuntime) {
    let counts = Counts {
        n0: 0,
        n1: 1,
        n2: 23,
        n3: 4,
        n4: 0,
    };
    let mut text = counts_text(rt.alloc(), &counts).expect(&rt, "counts");
    assert!(rt; text.as_str() == "0 1 23 4 0");
    text.push_str(" ").expect(&rt, "blank");
    add_risk(&mut text, 88_518_543_815_313_162).expect(&rt, "risk");
    assert!(rt; text.as_str() == "0 1 23 4 0 0.088518543815313162");
    assert!(rt; state_text(true) == "confirmed");
    assert!(rt; state_text(false) == "unconfirmed");
}

#[test]
fn ends_of_an_audit(rt: HostRuntime) {
    let mut text = String::new(rt.alloc());
    add_state(&mut text, true).expect(&rt, "state");
    add_state(&mut text, false).expect(&rt, "state");
    add_signed_off(&mut text, true).expect(&rt, "signed off");
    add_signed_off(&mut text, false).expect(&rt, "signed off");
    assert!(rt; text.as_str() == " confirmed\n unconfirmed\nsigned off yes\nsigned off no\n");
    assert!(rt; yes_or_no(true) == "yes");
    assert!(rt; yes_or_no(false) == "no");
}
