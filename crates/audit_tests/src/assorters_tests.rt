// Tests of `assorters`: assorters by closures, over linked cards.
use crate::reading::linked;
use assertions::{Assertion, value_of};
use assorters::{Assorter, Seen};
use irv_base::{Candidate, Ranking};
use manifest::{Recorded, read_manifest};

fn ranking(candidates: &[Candidate]) -> Ranking {
    let mut all = Ranking::empty();
    for c in candidates {
        all.push(*c);
    }
    all
}

#[test]
fn a_lead_over_three_cards(rt: HostRuntime) {
    let lead = Assorter::new(|r: &Ranking| {
        if r.place(Candidate(0)) == Some(0) {
            2
        } else if r.place(Candidate(1)) == Some(0) {
            0
        } else {
            1
        }
    });
    let for_first = Seen::Found(ranking(&[Candidate(0)]));
    let for_second = Seen::Found(ranking(&[Candidate(1)]));
    let read = read_manifest(rt.alloc(), b"batch,cards\nb,3\n");
    let manifest = read.expect(&rt, "manifest");
    let ballots = "1\nContest,7,2,1,2\n7,b_1,1\n7,b_2,1\n";
    let cards = linked(rt.alloc(), &manifest, ballots).expect(&rt, "linked cards");
    assert!(rt; cards.cards() == 3);
    assert_eq!(rt; lead.margin(&cards), 2);
    assert_eq!(rt; lead.overstated(&cards.recorded(1), &for_first), 2);
    assert_eq!(rt; lead.overstated(&cards.recorded(2), &for_second), 0);
    assert_eq!(rt; lead.overstated(&cards.recorded(3), &Seen::Missing), 1);
}

#[test]
fn not_eliminated_before(rt: HostRuntime) {
    let neb = Assertion::Neb {
        w: Candidate(1),
        l: Candidate(2),
    };
    let assorter = Assorter::new(|r: &Ranking| value_of(&neb, r));
    let listed = ranking(&[Candidate(1), Candidate(2)]);
    let reversed = ranking(&[Candidate(2), Candidate(1)]);
    assert_eq!(rt; assorter.value(&Ranking::empty()), 1);
    assert_eq!(rt;
        assorter.overstated(&Recorded::Ranked(listed), &Seen::Missing),
        0
    );
    assert_eq!(rt; assorter.overstated(&Recorded::Without, &Seen::Missing), 1);
    assert_eq!(rt;
        assorter.overstated(&Recorded::Ranked(listed), &Seen::Found(listed)),
        2
    );
    assert_eq!(rt;
        assorter.overstated(&Recorded::Ranked(reversed), &Seen::Found(listed)),
        4
    );
}
