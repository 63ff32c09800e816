// Tests of `audit_commands`: what the commands answer to files in memory, and what they refuse.
use crate::one_card::MANIFEST;
use crate::reading::{desk_of, named};
use audit_commands::{plan, sample};
use cli_base::{Answer, AnswerKind, Refusal, RefusalKind};
use command::{PlanTask, SampleTask};
use desk::MemoryDesk;
use sampler::Seed;
use std::alloc::{AllocError, Global};

const THOUSAND_CARDS: &str = "batch,cards\nb,1000\n";

const NO_NUMBER: &str = "batch,cards\na,1\nb,2\nc,3\nd,no\n";

const ONE_CLAIM: &str =
    "{\"assertions\":[{\"kind\":\"NEB\",\"loser\":\"B\",\"margin\":100,\"winner\":\"A\"}],\"candidates\":[\"A\",\"B\"],\"contest\":\"c\",\"margin\":100,\"order\":[\"A\",\"B\"],\"records\":1000,\"version\":1,\"winner\":\"A\"}\n";

const ONE_RECORD_MORE: &str =
    "{\"assertions\":[{\"kind\":\"NEB\",\"loser\":\"B\",\"margin\":100,\"winner\":\"A\"}],\"candidates\":[\"A\",\"B\"],\"contest\":\"c\",\"margin\":100,\"order\":[\"A\",\"B\"],\"records\":1001,\"version\":1,\"winner\":\"A\"}\n";

const NO_MARGIN: &str =
    "{\"assertions\":[{\"kind\":\"NEB\",\"loser\":\"B\",\"margin\":0,\"winner\":\"A\"}],\"candidates\":[\"A\",\"B\"],\"contest\":\"c\",\"margin\":100,\"order\":[\"A\",\"B\"],\"records\":1000,\"version\":1,\"winner\":\"A\"}\n";

// A desk with a manifest and an assertion file.
fn desk(alloc: Global, manifest: &str, assertions: &str) -> Result<MemoryDesk, AllocError> {
    desk_of(
        alloc,
        &[("cards.csv", manifest), ("claims.json", assertions)],
    )
}

// Whether it is an answer with this text.
fn is_done(said: &Result<Answer, Refusal>, text: &str) -> bool {
    match said {
        Ok(answer) => {
            answer.kind == AnswerKind::Done && answer.text.as_slice() == text.as_bytes()
        }
        Err(_) => false,
    }
}

// Whether a file is refused with this line.
fn is_refused(said: &Result<Answer, Refusal>, text: &str) -> bool {
    match said {
        Err(Refusal::Line(RefusalKind::Input, line)) => line.as_str() == text,
        _ => false,
    }
}

fn sampled(rt: &HostRuntime, manifest: &str) -> Result<Answer, Refusal> {
    let mut desk = desk(rt.alloc(), manifest, "")?;
    let Ok(seed) = Seed::read("2024") else {
        return Err(Refusal::Words);
    };
    let task = SampleTask {
        manifest: named(rt.alloc(), "cards.csv")?,
        seed,
        draws: 3,
    };
    sample::answer(rt.alloc(), &mut desk, &task)
}

#[test]
fn samples(rt: HostRuntime) {
    let said = sampled(&rt, MANIFEST);
    assert!(rt; is_done(&said, "1,1,b_1\n2,1,b_1\n3,1,b_1\n"));
    let said = sampled(&rt, NO_NUMBER);
    assert!(rt; is_refused(&said, "raire: cards.csv: M3 at 5\n"));
}

fn planned(rt: &HostRuntime, manifest: &str, assertions: &str) -> Result<Answer, Refusal> {
    let mut desk = desk(rt.alloc(), manifest, assertions)?;
    let task = PlanTask {
        manifest: named(rt.alloc(), "cards.csv")?,
        assertions: named(rt.alloc(), "claims.json")?,
        limit: 50_000,
        gamma: 100,
    };
    plan::answer(rt.alloc(), &mut desk, &task)
}

#[test]
fn plans(rt: HostRuntime) {
    let said = planned(&rt, THOUSAND_CARDS, ONE_CLAIM);
    assert!(rt; is_done(&said, "NEB A B margin 100: 70 draws\nall: 70 draws\n"));
    for (manifest, assertions, line) in [
        (
            THOUSAND_CARDS,
            ONE_RECORD_MORE,
            "raire: claims.json: F7 at 0\n",
        ),
        (THOUSAND_CARDS, NO_MARGIN, "raire: claims.json: F6 at 1\n"),
        (NO_NUMBER, NO_MARGIN, "raire: cards.csv: M3 at 5\n"),
    ] {
        let said = planned(&rt, manifest, assertions);
        assert!(rt; is_refused(&said, line));
    }
}
