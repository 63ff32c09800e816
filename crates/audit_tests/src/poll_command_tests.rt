// Tests of `poll_command`: polls of a single card, and of assertions that don't prove their winner. The risks come from outside: they were
// worked out in Python. The rest is worked out by hand.
ghost use Rattle.irv_base.specs.declared.limits.TheConstants.{MOST_DRAWS};
ghost use Rattle.command.specs.Limits.{IsUpTo};
ghost use Rattle.budget.specs.declared.limits.TheConstants.{MOST_NODES};

use crate::one_card::{ASSERTIONS, MANIFEST};
use crate::reading::{desk_of, named};
use cli_base::{Answer, AnswerKind, Refusal, RefusalKind};
use command::PollTask;
use poll_command::poll;
use sampler::Seed;

const SEEN: &str = "b_1,ballot,1\n";

// The first of three candidates is before only the second: nothing refutes 2,1,3, and for the third candidate the suffixes 3 and 1,3 count.
const ONE_OF_TWO: &str =
    "{\"assertions\":[{\"kind\":\"NEB\",\"loser\":\"2\",\"margin\":1,\"winner\":\"1\"}],\"candidates\":[\"1\",\"2\",\"3\"],\"contest\":\"7\",\"margin\":1,\"order\":[\"2\",\"1\",\"3\"],\"records\":1,\"version\":1,\"winner\":\"1\"}\n";

const FOUR_DRAWS: &str =
    "cards 1\ndraws 4\nlimit 50000\ngamma 100\nNEB 1 2 counts 0 0 4 risk 0.088518543815313162 unconfirmed\nconfirmed no\n";

const FIVE_DRAWS: &str =
    "cards 1\ndraws 5\nlimit 50000\ngamma 100\nNEB 1 2 counts 0 0 5 risk 0.048282842081079907 confirmed\nconfirmed yes\n";

const MISSING: &str =
    "cards 1\ndraws 1\nlimit 50000\ngamma 100\nNEB 1 2 counts 1 0 0 risk 1.000000000000000000 unconfirmed\nconfirmed no\n";

// The files of a poll.
#[derive(Clone, Copy)]
struct Files {
    manifest: &'static str,
    assertions: &'static str,
    seen: &'static str,
}

// A single card, for which this is seen.
fn seen_as(seen: &'static str) -> Files {
    Files {
        manifest: MANIFEST,
        assertions: ASSERTIONS,
        seen,
    }
}

// Assertions that don't prove their winner, with a seen file that isn't one.
fn one_of_two() -> Files {
    Files {
        manifest: MANIFEST,
        assertions: ONE_OF_TWO,
        seen: "none",
    }
}

fn polled(rt: &HostRuntime, files: &Files, draws: u32, nodes: u32) -> Result<Answer, Refusal>
    requires draws { IsUpTo MOST_DRAWS draws }
    requires nodes { IsUpTo MOST_NODES nodes }
{
    let alloc = rt.alloc();
    let mut desk = desk_of(
        alloc,
        &[
            ("cards.csv", files.manifest),
            ("claims.json", files.assertions),
            ("seen.csv", files.seen),
        ],
    )?;
    let Ok(seed) = Seed::read("2024") else {
        return Err(Refusal::Words);
    };
    let task = PollTask {
        manifest: named(alloc, "cards.csv")?,
        assertions: named(alloc, "claims.json")?,
        seen: named(alloc, "seen.csv")?,
        seed,
        draws,
        limit: 50_000,
        gamma: 100,
        nodes,
    };
    poll::answer(alloc, &mut desk, &task)
}

// Whether it is an answer of this kind, with this text.
fn is(said: &Result<Answer, Refusal>, kind: AnswerKind, text: &str) -> bool {
    match said {
        Ok(answer) => answer.kind == kind && answer.text.as_slice() == text.as_bytes(),
        Err(_) => false,
    }
}

// Whether a file is refused with this line.
fn is_refused(said: &Result<Answer, Refusal>, text: &str) -> bool {
    match said {
        Err(Refusal::Line(RefusalKind::Input, line)) => line.as_str() == text,
        _ => false,
    }
}

#[test]
fn five_draws_confirm(rt: HostRuntime) {
    let said = polled(&rt, &seen_as(SEEN), 4, 10);
    assert!(rt; is(&said, AnswerKind::Unconfirmed, FOUR_DRAWS));
    let said = polled(&rt, &seen_as(SEEN), 5, 10);
    assert!(rt; is(&said, AnswerKind::Done, FIVE_DRAWS));
    let said = polled(&rt, &seen_as("b_1,missing\n"), 1, 10);
    assert!(rt; is(&said, AnswerKind::Unconfirmed, MISSING));
}

#[test]
fn nothing_is_seen_before_the_assertions_cover(rt: HostRuntime) {
    let said = polled(&rt, &one_of_two(), 1, 2);
    assert!(rt; is(&said, AnswerKind::Differs, "no: order 2,1,3 stands\n"));
    let said = polled(&rt, &one_of_two(), 1, 1);
    assert!(rt; is(&said, AnswerKind::Spent, "spent\ncandidate 3\n"));
}

#[test]
fn files_are_refused(rt: HostRuntime) {
    for (manifest, assertions, seen, line) in [
        ("b,1\n", "{}", "none", "raire: cards.csv: M1 at 1\n"),
        (MANIFEST, "{}", "none", "raire: claims.json: F2 at 0\n"),
        (MANIFEST, ASSERTIONS, "none", "raire: seen.csv: V1 at 1\n"),
        (
            MANIFEST,
            ASSERTIONS,
            "",
            "raire: seen.csv: V4 card 1 draw 1\n",
        ),
    ] {
        let files = Files {
            manifest,
            assertions,
            seen,
        };
        assert!(rt; is_refused(&polled(&rt, &files, 3, 10), line), "{line}");
    }
}
