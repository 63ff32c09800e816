// Tests of `session_file`: the texts of whole sessions, byte for byte; session files that are read, and those that are refused. The risks
// come from outside: they were worked out in Python.
ghost use Rattle.std.specs.Prelude.{◌≡◌, ◌∷◌, [], IfOk};
ghost use Rattle.session_file.specs.Examples as examples;

use crate::texts::altered;
use irv_base::Name;
use km_risk::Counts;
use sampler::Seed;
use session_file::{SessionFault, print_session, read_session};
use session_state::{Digests, DoneRound, Session, signed_off};
use std::alloc::{AllocError, Global};
use std::test::Fail;

// Some draws for one claim, all as recorded, and their risk.
fn clean_round(alloc: Global, draws: u32, risk: u64) -> Result<DoneRound, AllocError>
    ensures { IfOk result (λ round. round ≡ examples.clean_round draws risk) }
{
    let counts = Counts {
        n0: 0,
        n1: 0,
        n2: draws,
        n3: 0,
        n4: 0,
    };
    Ok(DoneRound::new(draws, vec![in alloc; counts]?, vec![in alloc; risk]?))
}

// Four draws, and then one more.
fn rounds(alloc: Global) -> Result<Vec<DoneRound>, AllocError>
    ensures { IfOk result (λ rounds.
        rounds.items ≡ examples.four_draws ∷ examples.five_draws ∷ []) }
{
    let four = clean_round(alloc, 4, 88518543815313162)?;
    let five = clean_round(alloc, 5, 48282842081079907)?;
    Ok(vec![in alloc; four, five]?)
}

fn digests() -> Digests {
    let mut ballots = [0; 32];
    ballots[0] = 0xAB;
    let mut manifest = [1; 32];
    manifest[0] = 0x0A;
    Digests {
        ballots,
        manifest,
        assertions: [0x2C; 32],
    }
}

// The session of one card that is signed off.
fn session(alloc: Global, contest: Name, seed: Seed) -> Result<Session, AllocError> {
    let rounds = rounds(alloc)?;
    let margins = vec![in alloc; 1]?;
    Ok(Session::new(contest, 1, margins, seed, 50000, 100, digests(), rounds))
}

#[test]
fn session_of_one_card(rt: HostRuntime) -> Result<(), Fail> {
    let alloc = rt.alloc();
    let contest = Name::read(b"7".as_slice()).expect(&rt, "name");
    let seed = Seed::read("2024").expect(&rt, "seed");
    let text = print_session(alloc, &session(alloc, contest, seed)?)?;
    assert!(rt;
        text.as_slice()
            == b"{\"assertions\":\"2c2c2c2c2c2c2c2c2c2c2c2c2c2c2c2c2c2c2c2c2c2c2c2c2c2c2c2c2c2c2c2c\",\"ballots\":\"ab00000000000000000000000000000000000000000000000000000000000000\",\"cards\":1,\"contest\":\"7\",\"gamma\":100,\"limit\":50000,\"manifest\":\"0a01010101010101010101010101010101010101010101010101010101010101\",\"margins\":[1],\"rounds\":[{\"counts\":[[0,0,4,0,0]],\"draws\":4,\"risks\":[88518543815313162]},{\"counts\":[[0,0,5,0,0]],\"draws\":5,\"risks\":[48282842081079907]}],\"seed\":\"2024\",\"signed_off\":true,\"version\":1}\n".as_slice()
    );
    Ok(())
}

#[test]
fn seed_and_contest_with_escapes(rt: HostRuntime) -> Result<(), Fail> {
    let alloc = rt.alloc();
    let contest = Name::read(b"A\\1".as_slice()).expect(&rt, "name");
    let seed = Seed::read("a \"b\\").expect(&rt, "seed");
    let text = print_session(alloc, &session(alloc, contest, seed)?)?;
    assert!(rt;
        text.as_slice()
            == b"{\"assertions\":\"2c2c2c2c2c2c2c2c2c2c2c2c2c2c2c2c2c2c2c2c2c2c2c2c2c2c2c2c2c2c2c2c\",\"ballots\":\"ab00000000000000000000000000000000000000000000000000000000000000\",\"cards\":1,\"contest\":\"A\\\\1\",\"gamma\":100,\"limit\":50000,\"manifest\":\"0a01010101010101010101010101010101010101010101010101010101010101\",\"margins\":[1],\"rounds\":[{\"counts\":[[0,0,4,0,0]],\"draws\":4,\"risks\":[88518543815313162]},{\"counts\":[[0,0,5,0,0]],\"draws\":5,\"risks\":[48282842081079907]}],\"seed\":\"a \\\"b\\\\\",\"signed_off\":true,\"version\":1}\n".as_slice()
    );
    Ok(())
}

// One card that is drawn four times, and once more.
const ONE_CARD: &str =
    "{\"assertions\":\"a45aa98be5baa34ed2e14854ea741747e6ba9d2f22fed1f272171b835f5054c0\",\"ballots\":\"6bef42a85561289ce276aa0575127c99e4811a024d7352bfbcd55d956c8126be\",\"cards\":1,\"contest\":\"7\",\"gamma\":100,\"limit\":50000,\"manifest\":\"05b3abf2579a5eb66403cd78be557fd860633a1fe2103c7642030defe32c657f\",\"margins\":[1],\"rounds\":[{\"counts\":[[0,0,4,0,0]],\"draws\":4,\"risks\":[88518543815313162]},{\"counts\":[[0,0,5,0,0]],\"draws\":5,\"risks\":[48282842081079907]}],\"seed\":\"2024\",\"signed_off\":true,\"version\":1}\n";

fn is_read(alloc: Global, text: &str) -> bool {
    read_session(alloc, text.as_bytes()).is_ok()
}

fn is_refused(alloc: Global, text: &str) -> bool {
    match read_session(alloc, text.as_bytes()) {
        Err(SessionFault::Refused) => true,
        _ => false,
    }
}

#[test]
fn one_card_in_two_rounds(rt: HostRuntime) {
    let read = read_session(rt.alloc(), ONE_CARD.as_bytes());
    assert!(rt; read.is_ok());
    if let Ok(session) = read {
        assert!(rt; session.contest().text() == "7" && session.seed().text() == "2024");
        assert!(rt; session.cards() == 1 && session.limit() == 50_000 && session.gamma() == 100);
        assert!(rt; session.margins() == [1].as_slice());
        let digests = session.digests();
        assert!(rt; digests.ballots[0] == 0x6b && digests.ballots[31] == 0xbe);
        assert!(rt; digests.manifest[0] == 0x05 && digests.assertions[0] == 0xa4);
        let rounds = session.rounds();
        assert!(rt; rounds.len() == 2);
        if let [first, second] = rounds {
            assert!(rt; first.draws() == 4 && second.draws() == 5);
            assert!(rt; first.risks() == [88_518_543_815_313_162].as_slice());
            assert!(rt; second.risks() == [48_282_842_081_079_907].as_slice());
        }
        assert!(rt; signed_off(&session));
    }
}

#[test]
fn broken_once(rt: HostRuntime) -> Result<(), Fail> {
    for (old, new) in [
        ("{\"assertions\"", "\"assertions\""),
        (",\"gamma\":100", ""),
        ("\"seed\":\"2024\"", "\"seed\":2024"),
        ("\"cards\":1,", "\"cards\":1.0,"),
        ("\"cards\":1,", "\"cards\":10000001,"),
        ("\"limit\":50000", "\"limit\":1000000"),
        ("\"gamma\":100", "\"gamma\":0"),
        ("\"version\":1", "\"version\":2"),
        ("\"contest\":\"7\"", "\"contest\":\"7,\""),
        ("\"seed\":\"2024\"", "\"seed\":\"\""),
        ("c657f\"", "c657g\""),
        ("c657f\"", "c6\""),
        ("\"margins\":[1]", "\"margins\":[]"),
        ("\"margins\":[1]", "\"margins\":[2]"),
        ("[[0,0,4,0,0]]", "[[0,0,4,0,0],[0,0,4,0,0]]"),
        ("[88518543815313162]", "[]"),
        ("[[0,0,4,0,0]]", "[[0,0,4,0]]"),
        ("[[0,0,4,0,0]]", "[[0,0,4,0,0,0]]"),
        ("88518543815313162", "88518543815313163"),
        ("\"signed_off\":true", "\"signed_off\":false"),
    ] {
        let text = altered(rt.alloc(), ONE_CARD, old, new)?;
        assert!(rt; text.as_str() != ONE_CARD, "{old}");
        assert!(rt; is_refused(rt.alloc(), text.as_str()), "{new}");
    }
    Ok(())
}

// If the draws don't increase, or the counts have another sum, everything else is as it must be.
#[test]
fn broken_rounds(rt: HostRuntime) -> Result<(), Fail> {
    let open = altered(rt.alloc(), ONE_CARD, "true", "false")?;
    let first = "{\"counts\":[[0,0,4,0,0]],\"draws\":4,\"risks\":[88518543815313162]}";
    let second = "{\"counts\":[[0,0,5,0,0]],\"draws\":5,\"risks\":[48282842081079907]}";
    let others = [
        first,
        "{\"counts\":[[0,0,3,0,0]],\"draws\":5,\"risks\":[162283996994740797]}",
        "{\"counts\":[[0,0,0,0,0]],\"draws\":0,\"risks\":[1000000000000000000]}",
    ];
    for other in others {
        let text = altered(rt.alloc(), open.as_str(), second, other)?;
        assert!(rt; text.as_str() != open.as_str(), "{other}");
        assert!(rt; is_refused(rt.alloc(), text.as_str()), "{other}");
    }
    Ok(())
}

#[test]
fn other_forms(rt: HostRuntime) -> Result<(), Fail> {
    for (old, new) in [
        ("c8126be", "C8126Be"),
        (
            "\"version\":1}",
            "\"version\":1,\"audits\":[{\"by\":\"us\"}]}",
        ),
        ("{\"assertions\"", "{\"version\":2,\"assertions\""),
        (
            "\"cards\":1,\"contest\":\"7\"",
            "\"contest\" : \"7\", \"cards\" : 1",
        ),
    ] {
        let text = altered(rt.alloc(), ONE_CARD, old, new)?;
        assert!(rt; text.as_str() != ONE_CARD, "{old}");
        assert!(rt; is_read(rt.alloc(), text.as_str()), "{new}");
    }
    Ok(())
}

#[test]
fn no_rounds(rt: HostRuntime) {
    let text =
        "{\"assertions\":\"a45aa98be5baa34ed2e14854ea741747e6ba9d2f22fed1f272171b835f5054c0\",\"ballots\":\"6bef42a85561289ce276aa0575127c99e4811a024d7352bfbcd55d956c8126be\",\"cards\":1000,\"contest\":\"Mayor of A\",\"gamma\":500,\"limit\":999999,\"manifest\":\"05b3abf2579a5eb66403cd78be557fd860633a1fe2103c7642030defe32c657f\",\"margins\":[1,1000],\"rounds\":[],\"seed\":\"a seed\",\"signed_off\":false,\"version\":1}";
    assert!(rt; is_read(rt.alloc(), text));
}

#[test]
fn no_object(rt: HostRuntime) {
    assert!(rt;
        is_refused(rt.alloc(), "") && is_refused(rt.alloc(), "[]") && is_refused(rt.alloc(), "{}")
    );
}
