// Tests of sessions and rounds of claims that aren't assertions. There is one claim, that the first candidate leads the second.
ghost use Rattle.std.specs.Prelude.{◌≡◌, ◌≤◌, ◌∷◌, [], length, IfSome};
ghost use Rattle.irv_base.specs.Records.{is_first};
ghost use Rattle.irv_base.specs.declared.limits.TheConstants.{MOST_DRAWS};
ghost use Rattle.assorters.specs.Examples.{lead};

use crate::one_card::{BALLOTS, MANIFEST, some_digests};
use crate::reading::linked;
use audit_session::{
    AdvanceFault, Claims, InputFault, SeenCards, Session, Unseen, advance_by, begin_plain,
    drawn_seen, first_round, read_seen, same_facts,
};
use irv_base::{Candidate, Name, Ranking};
use manifest::{Linked, read_manifest};
use sampler::Seed;
use std::alloc::Global;

fn is_first(ranking: &Ranking, c: Candidate) -> bool
    ensures { result ≡ is_first ranking.now c }
{
    ranking.candidates().first() == Some(&c)
}

struct Lead;

impl Claims for Lead {
    ghost values = { λ _. lead ∷ [] };

    fn count(&self) -> u64 {
        1
    }

    fn value(&self, _j: u64, r: &Ranking) -> u8 {
        if is_first(r, Candidate(0)) {
            2
        } else if is_first(r, Candidate(1)) {
            0
        } else {
            1
        }
    }
}

// The card's record, and what is seen of it.
fn inputs(rt: &HostRuntime, seen: &[u8]) -> Option<(Linked, SeenCards)> {
    let Ok(manifest) = read_manifest(rt.alloc(), MANIFEST.as_bytes()) else {
        return None;
    };
    let cards = linked(rt.alloc(), &manifest, BALLOTS)?;
    let ids = [Name::read(b"1".as_slice())?, Name::read(b"2".as_slice())?];
    let Ok(seen) = read_seen(rt.alloc(), seen, &manifest, ids.as_slice()) else {
        return None;
    };
    Some((cards, seen))
}

// A session of the claim with a margin of one vote, at the usual limit of 5 percent.
fn begun(alloc: Global, l: &Linked) -> Option<Session>
    ensures cards { IfSome result (λ session. session.session.cards ≡ length l.now) }
    ensures margins { IfSome result (λ session. length session.session.margins ≡ 1) }
{
    let cards = l.cards();
    if cards == 0 {
        return None;
    }
    let contest = Name::read(b"7".as_slice())?;
    let seed = Seed::read("2024").ok()?;
    let margins = vec![in alloc; 1].ok()?;
    begin_plain(
        alloc,
        contest,
        margins,
        cards,
        seed,
        50_000,
        100,
        some_digests(),
    )
    .ok()
}

// The next round. The session's cards and margins stay the same.
fn go_on(
    rt: &HostRuntime,
    session: &mut Session,
    l: &Linked,
    seen: &SeenCards,
    draws: u32,
) -> Result<bool, AdvanceFault>
    requires cards { session.old.session.cards ≡ length l.now }
    requires margins { length session.old.session.margins ≡ 1 }
    requires some { 1 ≤ draws }
    requires most { draws ≤ MOST_DRAWS }
    ensures cards { session.new.session.cards ≡ session.old.session.cards }
    ensures margins { session.new.session.margins ≡ session.old.session.margins }
{
    match advance_by(rt.alloc(), session, l, &Lead, seen, draws) {
        Ok(done) => Ok(done),
        Err(fault) => Err(fault),
    }
}

#[test]
fn five_draws_confirm_the_lead(rt: HostRuntime) {
    let (l, seen) = inputs(&rt, b"b_1,ballot,1\n").expect(&rt, "inputs");
    let mut session = begun(rt.alloc(), &l).expect(&rt, "a session");
    let four = go_on(&rt, &mut session, &l, &seen, 4);
    assert!(rt; four == Ok(false));
    let five = go_on(&rt, &mut session, &l, &seen, 5);
    assert!(rt; five == Ok(true));
    let again = go_on(&rt, &mut session, &l, &seen, 5);
    assert!(rt; again == Err(AdvanceFault::Smaller { had: 5 }));
}

#[test]
fn the_lead_is_compared(rt: HostRuntime) {
    let (l, seen) = inputs(&rt, b"b_1,ballot,2\n").expect(&rt, "inputs");
    let mut session = begun(rt.alloc(), &l).expect(&rt, "a session");
    let five = go_on(&rt, &mut session, &l, &seen, 5);
    assert!(rt; five == Ok(false));
    if let [round] = session.rounds() {
        if let [counts] = round.counts() {
            assert!(rt; counts.n0 == 5 && counts.n2 == 0);
        }
    }
}

#[test]
fn a_first_round_needs_no_session(rt: HostRuntime) {
    let (l, seen) = inputs(&rt, b"b_1,ballot,1\n").expect(&rt, "inputs");
    let seed = Seed::read("2024").ok().expect(&rt, "a seed");
    if l.cards() != 1 {
        panic!(rt; "one card");
    }
    let Ok(round) = first_round(rt.alloc(), [1].as_slice(), 100, &seed, &l, &Lead, &seen, 5) else {
        panic!(rt; "a round");
    };
    assert!(rt; round.draws() == 5);
    assert!(rt; round.risks() == [48_282_842_081_079_907].as_slice());
}

#[test]
fn each_draw_is_seen(rt: HostRuntime) {
    let (_, seen) = inputs(&rt, b"b_1,missing\n").expect(&rt, "inputs");
    let seed = Seed::read("2024").ok().expect(&rt, "a seed");
    let Ok(drawn) = drawn_seen(rt.alloc(), &seed, 1, &seen, 3) else {
        panic!(rt; "three draws");
    };
    assert!(rt; drawn.len() == 3);
    let (_, none) = inputs(&rt, b"").expect(&rt, "inputs");
    let Err(Unseen::NoRecord { card, k }) = drawn_seen(rt.alloc(), &seed, 1, &none, 3) else {
        panic!(rt; "no record");
    };
    assert!(rt; card == 1 && k == 1);
}

#[test]
fn facts_of_a_session(rt: HostRuntime) {
    let (l, _) = inputs(&rt, b"b_1,missing\n").expect(&rt, "inputs");
    let session = begun(rt.alloc(), &l).expect(&rt, "a session");
    let contest = Name::read(b"7".as_slice()).expect(&rt, "an id");
    let other = Name::read(b"8".as_slice()).expect(&rt, "an id");
    let digests = some_digests();
    let one = [1];
    let two = [2];
    assert!(rt; same_facts(&session, &digests, 1, &contest, one.as_slice()).is_ok());
    assert!(rt;
        same_facts(&session, &digests, 1, &other, one.as_slice()) == Err(InputFault::Facts)
    );
    assert!(rt;
        same_facts(&session, &digests, 2, &contest, one.as_slice()) == Err(InputFault::Facts)
    );
    assert!(rt;
        same_facts(&session, &digests, 1, &contest, two.as_slice()) == Err(InputFault::Facts)
    );
    let mut changed = digests;
    changed.manifest = [9; 32];
    assert!(rt;
        same_facts(&session, &changed, 1, &other, one.as_slice())
            == Err(InputFault::Differs {
                which: 2,
                expected: [2; 32],
                found: [9; 32]
            })
    );
}
