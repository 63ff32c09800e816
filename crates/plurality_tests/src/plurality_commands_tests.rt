// Tests of `plurality_commands`: a contest whose runoff another candidate wins, and the audit of a single card. The digests and the texts
// come from Python's hashlib and json.
ghost use Rattle.std.specs.Prelude.{◌≤◌};
ghost use Rattle.irv_base.specs.declared.limits.TheConstants.{MOST_DRAWS};

use cli_base::{Answer, Refusal};
use command::{AuditPluralityTask, FileName, OpenPluralityTask};
use desk::{MemoryDesk, Named};
use irv_base::Name;
use plurality_commands::{audit_plurality, open_plurality};
use sampler::Seed;
use std::alloc::{AllocError, Global};
use std::test::Fail;

const BALLOTS: &str = "1\nContest,7,2,1,2\n7,b_1,1\n";

const MANIFEST: &str = "batch,cards\nb,1\n";

const OPENED: &str =
    "{\"assertions\":\"e3b0c44298fc1c149afbf4c8996fb92427ae41e4649b934ca495991b7852b855\",\"ballots\":\"b2461326ededb6d109bceb693f72e5d9b613d18452c4eed4772b701916c96bdf\",\"cards\":1,\"contest\":\"7\",\"gamma\":100,\"limit\":50000,\"manifest\":\"93cc03b4bc437d870c95a76e4ea4dc8314b09c68164e0e5f6bcae09b62d0a14c\",\"margins\":[1],\"rounds\":[],\"seed\":\"2024\",\"signed_off\":false,\"version\":1}\n";

const FOUR_DRAWS: &str =
    "{\"assertions\":\"e3b0c44298fc1c149afbf4c8996fb92427ae41e4649b934ca495991b7852b855\",\"ballots\":\"b2461326ededb6d109bceb693f72e5d9b613d18452c4eed4772b701916c96bdf\",\"cards\":1,\"contest\":\"7\",\"gamma\":100,\"limit\":50000,\"manifest\":\"93cc03b4bc437d870c95a76e4ea4dc8314b09c68164e0e5f6bcae09b62d0a14c\",\"margins\":[1],\"rounds\":[{\"counts\":[[0,0,4,0,0]],\"draws\":4,\"risks\":[88518543815313162]}],\"seed\":\"2024\",\"signed_off\":false,\"version\":1}\n";

const FIVE_DRAWS: &str =
    "{\"assertions\":\"e3b0c44298fc1c149afbf4c8996fb92427ae41e4649b934ca495991b7852b855\",\"ballots\":\"b2461326ededb6d109bceb693f72e5d9b613d18452c4eed4772b701916c96bdf\",\"cards\":1,\"contest\":\"7\",\"gamma\":100,\"limit\":50000,\"manifest\":\"93cc03b4bc437d870c95a76e4ea4dc8314b09c68164e0e5f6bcae09b62d0a14c\",\"margins\":[1],\"rounds\":[{\"counts\":[[0,0,4,0,0]],\"draws\":4,\"risks\":[88518543815313162]},{\"counts\":[[0,0,5,0,0]],\"draws\":5,\"risks\":[48282842081079907]}],\"seed\":\"2024\",\"signed_off\":true,\"version\":1}\n";

// The same session with the digest of an assertion file.
const OF_ASSERTIONS: &str =
    "{\"assertions\":\"ae97f9d20b8752ebe368d7fbc111d71683ac56e920c45c7b945baa7045d72b2e\",\"ballots\":\"b2461326ededb6d109bceb693f72e5d9b613d18452c4eed4772b701916c96bdf\",\"cards\":1,\"contest\":\"7\",\"gamma\":100,\"limit\":50000,\"manifest\":\"93cc03b4bc437d870c95a76e4ea4dc8314b09c68164e0e5f6bcae09b62d0a14c\",\"margins\":[1],\"rounds\":[],\"seed\":\"2024\",\"signed_off\":false,\"version\":1}\n";

const TIE: &str = "tie\nround 1\ntied 1,2\ntally 1\n";

// The status that a command ends with, and its text.
#[derive(Drop)]
struct Said {
    status: u8,
    text: Vec<u8>,
}

fn desk_of(alloc: Global, files: &[(&str, &str)]) -> Result<MemoryDesk, AllocError> {
    let mut held = Vec::new(alloc);
    for &(name, text) in files {
        if let Some(name) = Name::read(name.as_bytes()) {
            let bytes = text.as_bytes().to_vec(alloc)?;
            held.push(Named { name, bytes })?;
        }
    }
    Ok(MemoryDesk::new(held, Vec::new(alloc)))
}

fn named(alloc: Global, name: &str) -> Result<FileName, AllocError> {
    Ok(FileName::of(String::from_str(alloc, name)?))
}

fn told_by(alloc: Global, answer: Result<Answer, Refusal>) -> Said {
    match answer {
        Ok(answer) => Said {
            status: answer.kind.status(),
            text: answer.text,
        },
        Err(Refusal::Line(kind, line)) => Said {
            status: kind.status(),
            text: line.into_bytes(),
        },
        Err(_) => Said {
            status: 9,
            text: Vec::new(alloc),
        },
    }
}

fn opened(alloc: Global, ballots: &str, manifest: &str) -> Result<Said, Fail> {
    let task = OpenPluralityTask {
        ballots: named(alloc, "ballots")?,
        manifest: named(alloc, "manifest")?,
        seed: Seed::read("2024")?,
        contest: None,
        limit: 50_000,
        gamma: 100,
    };
    let mut desk = desk_of(alloc, &[("ballots", ballots), ("manifest", manifest)])?;
    Ok(told_by(alloc, open_plurality::answer(alloc, &mut desk, &task)))
}

fn audited(
    alloc: Global,
    session: &'static str,
    seen: &'static str,
    draws: u32,
) -> Result<Said, Fail>
    requires { draws ≤ MOST_DRAWS }
{
    let task = AuditPluralityTask {
        session: named(alloc, "session")?,
        ballots: named(alloc, "ballots")?,
        manifest: named(alloc, "manifest")?,
        seen: named(alloc, "seen")?,
        draws,
    };
    let files = [
        ("session", session),
        ("ballots", BALLOTS),
        ("manifest", MANIFEST),
        ("seen", seen),
    ];
    let mut desk = desk_of(alloc, &files)?;
    Ok(told_by(alloc, audit_plurality::answer(alloc, &mut desk, &task)))
}

fn is(said: &Said, status: u8, text: &str) -> bool {
    said.status == status && said.text.as_slice() == text.as_bytes()
}

#[test]
fn a_contest_is_opened_or_tied(rt: HostRuntime) -> Result<(), Fail> {
    assert!(rt; is(&opened(rt.alloc(), BALLOTS, MANIFEST)?, 0, OPENED));
    let tied = "1\nContest,7,2,1,2\n7,b_1,1\n7,b_2,2\n";
    assert!(rt; is(&opened(rt.alloc(), tied, "batch,cards\nb,2\n")?, 3, TIE));
    let unplaced = opened(rt.alloc(), tied, MANIFEST)?;
    assert!(rt; is(&unplaced, 2, "raire: ballots: M7 at 4\n"));
    Ok(())
}

#[test]
fn five_draws_confirm_a_single_card(rt: HostRuntime) -> Result<(), Fail> {
    let seen = "b_1,ballot,1\n";
    assert!(rt; is(&audited(rt.alloc(), OPENED, seen, 4)?, 10, FOUR_DRAWS));
    assert!(rt; is(&audited(rt.alloc(), FOUR_DRAWS, seen, 5)?, 0, FIVE_DRAWS));
    Ok(())
}

#[test]
fn a_round_is_refused(rt: HostRuntime) -> Result<(), Fail> {
    for (session, seen, line) in [
        ("{}", "", "raire: session: S1\n"),
        (FIVE_DRAWS, "", "raire: session: S4 had 5\n"),
        (
            OF_ASSERTIONS,
            "",
            "raire: session: S2 expected ae97f9d20b8752ebe368d7fbc111d71683ac56e920c45c7b945baa7045d72b2e found e3b0c44298fc1c149afbf4c8996fb92427ae41e4649b934ca495991b7852b855\n",
        ),
        (OPENED, "b_2,missing\n", "raire: seen: V2 at 1\n"),
        (OPENED, "", "raire: seen: V4 card 1 draw 1\n"),
        (
            FOUR_DRAWS,
            "b_1,missing\n",
            "raire: session: S3 round 1 claim 1 expected 0 0 4 0 0 found 4 0 0 0 0\n",
        ),
    ] {
        assert!(rt;
            is(&audited(rt.alloc(), session, seen, 5)?, 2, line),
            "{line}"
        );
    }
    Ok(())
}
