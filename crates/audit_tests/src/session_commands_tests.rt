// Tests of `session_commands`: the audit of a single card, from its opening. The digests and the texts come from Python's hashlib and json.
ghost use Rattle.std.specs.Prelude.{◌≤◌};
ghost use Rattle.irv_base.specs.declared.limits.TheConstants.{MOST_DRAWS};

use crate::one_card::{ASSERTIONS, BALLOTS, MANIFEST};
use crate::reading::{desk_of, named};
use budget::Budget;
use cli_base::{Answer, Refusal};
use command::{AuditTask, OpenTask, ReportTask};
use desk::MemoryDesk;
use sampler::Seed;
use session_commands::{audit, open, session_report};
use std::alloc::{AllocError, Global};
use std::test::Fail;
use std::thread::Threads;

const OTHER_BALLOTS: &str = "1\nContest,7,2,1,2\n7,b_1,2\n";

const OPENED: &str =
    "{\"assertions\":\"ae97f9d20b8752ebe368d7fbc111d71683ac56e920c45c7b945baa7045d72b2e\",\"ballots\":\"b2461326ededb6d109bceb693f72e5d9b613d18452c4eed4772b701916c96bdf\",\"cards\":1,\"contest\":\"7\",\"gamma\":100,\"limit\":50000,\"manifest\":\"93cc03b4bc437d870c95a76e4ea4dc8314b09c68164e0e5f6bcae09b62d0a14c\",\"margins\":[1],\"rounds\":[],\"seed\":\"2024\",\"signed_off\":false,\"version\":1}\n";

const FOUR_DRAWS: &str =
    "{\"assertions\":\"ae97f9d20b8752ebe368d7fbc111d71683ac56e920c45c7b945baa7045d72b2e\",\"ballots\":\"b2461326ededb6d109bceb693f72e5d9b613d18452c4eed4772b701916c96bdf\",\"cards\":1,\"contest\":\"7\",\"gamma\":100,\"limit\":50000,\"manifest\":\"93cc03b4bc437d870c95a76e4ea4dc8314b09c68164e0e5f6bcae09b62d0a14c\",\"margins\":[1],\"rounds\":[{\"counts\":[[0,0,4,0,0]],\"draws\":4,\"risks\":[88518543815313162]}],\"seed\":\"2024\",\"signed_off\":false,\"version\":1}\n";

const FIVE_DRAWS: &str =
    "{\"assertions\":\"ae97f9d20b8752ebe368d7fbc111d71683ac56e920c45c7b945baa7045d72b2e\",\"ballots\":\"b2461326ededb6d109bceb693f72e5d9b613d18452c4eed4772b701916c96bdf\",\"cards\":1,\"contest\":\"7\",\"gamma\":100,\"limit\":50000,\"manifest\":\"93cc03b4bc437d870c95a76e4ea4dc8314b09c68164e0e5f6bcae09b62d0a14c\",\"margins\":[1],\"rounds\":[{\"counts\":[[0,0,4,0,0]],\"draws\":4,\"risks\":[88518543815313162]},{\"counts\":[[0,0,5,0,0]],\"draws\":5,\"risks\":[48282842081079907]}],\"seed\":\"2024\",\"signed_off\":true,\"version\":1}\n";

const MISSING: &str =
    "{\"assertions\":\"ae97f9d20b8752ebe368d7fbc111d71683ac56e920c45c7b945baa7045d72b2e\",\"ballots\":\"b2461326ededb6d109bceb693f72e5d9b613d18452c4eed4772b701916c96bdf\",\"cards\":1,\"contest\":\"7\",\"gamma\":100,\"limit\":50000,\"manifest\":\"93cc03b4bc437d870c95a76e4ea4dc8314b09c68164e0e5f6bcae09b62d0a14c\",\"margins\":[1],\"rounds\":[{\"counts\":[[5,0,0,0,0]],\"draws\":5,\"risks\":[1000000000000000000]}],\"seed\":\"2024\",\"signed_off\":false,\"version\":1}\n";

const TOLD: &str =
    "contest 7\ncards 1\nlimit 50000\ngamma 100\nseed 2024\nround 1 draws 4\nassertion 1 margin 1 counts 0 0 4 0 0 risk 0.088518543815313162 unconfirmed\nround 2 draws 5\nassertion 1 margin 1 counts 0 0 5 0 0 risk 0.048282842081079907 confirmed\nsigned off yes\n";

// The files of a case.
#[derive(Clone, Copy)]
struct Case {
    session: &'static str,
    ballots: &'static str,
    seen: &'static str,
}

// The status with which a command ends, and its text.
#[derive(Drop)]
struct Said {
    status: u8,
    text: Vec<u8>,
}

fn desk_for(alloc: Global, case: &Case) -> Result<MemoryDesk, AllocError> {
    let files = [
        ("session", case.session),
        ("ballots", case.ballots),
        ("manifest", MANIFEST),
        ("assertions", ASSERTIONS),
        ("seen", case.seen),
    ];
    desk_of(alloc, &files)
}

fn told_by(alloc: Global, answer: Result<Answer, Refusal>) -> Said {
    match answer {
        Ok(answer) => Said {
            status: answer.kind.status(),
            text: answer.text,
        },
        Err(Refusal::Line(kind, line)) => Said {
            status: kind.status(),
            text: line.into_bytes(),
        },
        Err(_) => Said {
            status: 9,
            text: Vec::new(alloc),
        },
    }
}

fn opened<R: AllocGlobal + Threads + Sync>(rt: &R, case: &Case) -> Result<Said, Fail> {
    let alloc = rt.alloc();
    let task = OpenTask {
        ballots: named(alloc, "ballots")?,
        manifest: named(alloc, "manifest")?,
        assertions: named(alloc, "assertions")?,
        seed: Seed::read("2024")?,
        contest: None,
        limit: 50_000,
        gamma: 100,
        budget: Budget::Nodes(100_000),
    };
    let mut desk = desk_for(alloc, case)?;
    Ok(told_by(alloc, open::answer(rt, &mut desk, &task)))
}

fn audited<R: AllocGlobal + Threads + Sync>(rt: &R, case: &Case, draws: u32) -> Result<Said, Fail>
    requires { draws ≤ MOST_DRAWS }
{
    let alloc = rt.alloc();
    let task = AuditTask {
        session: named(alloc, "session")?,
        ballots: named(alloc, "ballots")?,
        manifest: named(alloc, "manifest")?,
        assertions: named(alloc, "assertions")?,
        seen: named(alloc, "seen")?,
        draws,
        budget: Budget::Nodes(100_000),
    };
    let mut desk = desk_for(alloc, case)?;
    Ok(told_by(alloc, audit::answer(rt, &mut desk, &task)))
}

fn of(session: &'static str, ballots: &'static str, seen: &'static str) -> Case {
    Case {
        session,
        ballots,
        seen,
    }
}

fn is(said: &Said, status: u8, text: &str) -> bool {
    said.status == status && said.text.as_slice() == text.as_bytes()
}

#[test]
fn five_draws_confirm_a_single_card(rt: HostRuntime) -> Result<(), Fail> {
    let seen = "b_1,ballot,1\n";
    assert!(rt; is(&opened(&rt, &of("", BALLOTS, ""))?, 0, OPENED));
    assert!(rt;
        is(
            &audited(&rt, &of(OPENED, BALLOTS, seen), 4)?,
            10,
            FOUR_DRAWS
        )
    );
    assert!(rt;
        is(
            &audited(&rt, &of(FOUR_DRAWS, BALLOTS, seen), 5)?,
            0,
            FIVE_DRAWS
        )
    );
    let missing = audited(&rt, &of(OPENED, BALLOTS, "b_1,missing\n"), 5)?;
    assert!(rt; is(&missing, 10, MISSING));
    let mut desk = desk_for(rt.alloc(), &of(FIVE_DRAWS, "", ""))?;
    let task = ReportTask {
        session: named(rt.alloc(), "session")?,
    };
    let told = session_report::answer(rt.alloc(), &mut desk, &task);
    assert!(rt; is(&told_by(rt.alloc(), told), 0, TOLD));
    Ok(())
}

#[test]
fn a_round_is_refused(rt: HostRuntime) -> Result<(), Fail> {
    for (session, ballots, seen, line) in [
        ("{}", BALLOTS, "", "raire: session: S1\n"),
        (FIVE_DRAWS, BALLOTS, "", "raire: session: S4 had 5\n"),
        (
            OPENED,
            OTHER_BALLOTS,
            "",
            "raire: ballots: S2 expected b2461326ededb6d109bceb693f72e5d9b613d18452c4eed4772b701916c96bdf found 23efee81198a1bc544d67ad56251f7891c821a2ef23a7f0a835b250917df452f\n",
        ),
        (OPENED, BALLOTS, "b_2,missing\n", "raire: seen: V2 at 1\n"),
        (OPENED, BALLOTS, "", "raire: seen: V4 card 1 draw 1\n"),
        (
            FOUR_DRAWS,
            BALLOTS,
            "b_1,missing\n",
            "raire: session: S3 round 1 claim 1 expected 0 0 4 0 0 found 4 0 0 0 0\n",
        ),
    ] {
        assert!(rt;
            is(&audited(&rt, &of(session, ballots, seen), 5)?, 2, line),
            "{line}"
        );
    }
    let other = "1\nContest,7,2,1,2\n7,b_2,1\n";
    assert!(rt;
        is(
            &opened(&rt, &of("", other, ""))?,
            2,
            "raire: ballots: M7 at 3\n"
        )
    );
    Ok(())
}
