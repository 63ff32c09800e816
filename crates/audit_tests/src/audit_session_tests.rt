// Tests of `audit_session`: the audit of a single card, which is drawn again and again.
ghost use Rattle.std.specs.Prelude.{◌≡◌, ◌≤◌, map, length, IfSome};
ghost use Rattle.irv_base.specs.declared.limits.TheConstants.{MOST_DRAWS};

use crate::one_card::{ASSERTIONS, BALLOTS, MANIFEST, some_digests};
use crate::reading::linked;
use assertion_file::{AssertionFile, read_file};
use audit_session::{
    AdvanceFault, SeenCards, Session, advance, begin_session, read_seen, signed_off,
};
use manifest::{Linked, read_manifest};
use sampler::Seed;

// The card's record, the assertion file, and what is seen of the card.
fn inputs(rt: &HostRuntime, seen: &[u8]) -> Option<(Linked, AssertionFile, SeenCards)> {
    let Ok(manifest) = read_manifest(rt.alloc(), MANIFEST.as_bytes()) else {
        return None;
    };
    let cards = linked(rt.alloc(), &manifest, BALLOTS)?;
    let Ok(file) = read_file(rt.alloc(), ASSERTIONS.as_bytes()) else {
        return None;
    };
    let Ok(seen) = read_seen(rt.alloc(), seen, &manifest, file.candidates()) else {
        return None;
    };
    Some((cards, file, seen))
}

// A session at the usual limit of 5 percent.
fn begun(rt: &HostRuntime, linked: &Linked, file: &AssertionFile) -> Option<Session>
    ensures cards { IfSome result (λ session. session.session.cards ≡ length linked.now) }
    ensures margins { IfSome result (λ session.
        session.session.margins ≡ map (λ claim. claim.margin) file.now.claims) }
{
    let Ok(seed) = Seed::read("2024") else {
        return None;
    };
    let cards = linked.cards();
    if file.claims().is_empty() || file.records() > cards {
        return None;
    }
    begin_session(
        rt.alloc(),
        *file.contest(),
        cards,
        file,
        seed,
        50_000,
        100,
        some_digests(),
    )
    .ok()
}

// The next round. The session's cards and margins stay the same.
fn go_on(
    rt: &HostRuntime,
    session: &mut Session,
    linked: &Linked,
    file: &AssertionFile,
    seen: &SeenCards,
    draws: u32,
) -> Result<bool, AdvanceFault>
    requires cards { session.old.session.cards ≡ length linked.now }
    requires margins { session.old.session.margins ≡ map (λ claim. claim.margin) file.now.claims }
    requires some { 1 ≤ draws }
    requires most { draws ≤ MOST_DRAWS }
    ensures cards { session.new.session.cards ≡ session.old.session.cards }
    ensures margins { session.new.session.margins ≡ session.old.session.margins }
{
    match advance(rt.alloc(), session, linked, file, seen, draws) {
        Ok(done) => Ok(done),
        Err(fault) => Err(fault),
    }
}

#[test]
fn five_draws_confirm_a_single_card(rt: HostRuntime) {
    let (linked, file, seen) = inputs(&rt, b"b_1,ballot,1\n").expect(&rt, "inputs");
    let mut session = begun(&rt, &linked, &file).expect(&rt, "a session");
    assert!(rt; !signed_off(&session));
    let four = go_on(&rt, &mut session, &linked, &file, &seen, 4);
    assert!(rt; four == Ok(false));
    let five = go_on(&rt, &mut session, &linked, &file, &seen, 5);
    assert!(rt; five == Ok(true));
    let again = go_on(&rt, &mut session, &linked, &file, &seen, 5);
    assert!(rt; again == Err(AdvanceFault::Smaller { had: 5 }));
    assert!(rt; session.rounds().len() == 2);
}
