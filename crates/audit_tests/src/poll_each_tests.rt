// Tests of `poll_command` when a poll looks at each draw: polls of a single card, and of assertions that don't prove their winner. The risks
// come from outside: they were worked out in Python. The rest is worked out by hand.
ghost use Rattle.std.specs.Prelude.{IfSome};
ghost use Rattle.irv_base.specs.declared.limits.TheConstants.{MOST_DRAWS};
ghost use Rattle.command.specs.Limits.{IsUpTo};
ghost use Rattle.km_risk.specs.declared.limits.TheConstants.{GREATEST_EACH_GAMMA};

use crate::one_card::{ASSERTIONS, MANIFEST};
use crate::reading::{desk_of, named};
use cli_base::{Answer, AnswerKind, Refusal, RefusalKind};
use command::PollEachTask;
use poll_command::each;
use sampler::Seed;

const FOUR_DRAWS: &str =
    "contest 7\nwinner 1\ncards 1\ndraws 4\nlimit 50000\ngamma 100\nseed 2024\nNEB 1 2 gamma 100 counts 0 0 4 risk 0.088518543815313162 unconfirmed\nconfirmed no\n";

// The fifth draw confirms, so the other four aren't needed.
const NINE_DRAWS: &str =
    "contest 7\nwinner 1\ncards 1\ndraws 9\nlimit 50000\ngamma 100\nseed 2024\nNEB 1 2 gamma 100 counts 0 0 5 risk 0.048282842081079907 confirmed 5\nconfirmed yes\n";

// A margin of one vote on one card.
const BEST: &str =
    "contest 7\nwinner 1\ncards 1\ndraws 9\nlimit 50000\ngamma best\nseed 2024\nNEB 1 2 gamma 1 counts 0 0 5 risk 0.031406406093750188 confirmed 5\nconfirmed yes\n";

// Each draw has the factor 6; the eighth is the first above a million.
const MISSING: &str =
    "contest 7\nwinner 1\ncards 1\ndraws 20\nlimit 50000\ngamma 100\nseed 2024\nNEB 1 2 gamma 100 counts 20 0 0 risk 1679616.000000000000000000 unconfirmed\nconfirmed no\n";

// A poll of the card, for which this is seen.
fn polled(
    rt: &HostRuntime,
    seen: &'static str,
    draws: u32,
    gamma: Option<u32>,
) -> Result<Answer, Refusal>
    requires draws { IsUpTo MOST_DRAWS draws }
    requires gamma { IfSome gamma (IsUpTo GREATEST_EACH_GAMMA) }
{
    let alloc = rt.alloc();
    let mut desk = desk_of(
        alloc,
        &[
            ("cards.csv", MANIFEST),
            ("claims.json", ASSERTIONS),
            ("seen.csv", seen),
        ],
    )?;
    let Ok(seed) = Seed::read("2024") else {
        return Err(Refusal::Words);
    };
    let task = PollEachTask {
        manifest: named(alloc, "cards.csv")?,
        assertions: named(alloc, "claims.json")?,
        seen: named(alloc, "seen.csv")?,
        seed,
        draws,
        limit: 50_000,
        gamma,
        nodes: 10,
    };
    each::answer(alloc, &mut desk, &task)
}

// Whether it is an answer of this kind, with this text.
fn is(said: &Result<Answer, Refusal>, kind: AnswerKind, text: &str) -> bool {
    match said {
        Ok(answer) => answer.kind == kind && answer.text.as_slice() == text.as_bytes(),
        Err(_) => false,
    }
}

#[test]
fn the_fifth_draw_confirms(rt: HostRuntime) {
    let seen = "b_1,ballot,1\n";
    let said = polled(&rt, seen, 4, Some(100));
    assert!(rt; is(&said, AnswerKind::Unconfirmed, FOUR_DRAWS));
    let said = polled(&rt, seen, 9, Some(100));
    assert!(rt; is(&said, AnswerKind::Done, NINE_DRAWS));
    let said = polled(&rt, seen, 9, None);
    assert!(rt; is(&said, AnswerKind::Done, BEST));
}

#[test]
fn a_risk_above_the_ceiling_stays(rt: HostRuntime) {
    let said = polled(&rt, "b_1,missing\n", 20, Some(100));
    assert!(rt; is(&said, AnswerKind::Unconfirmed, MISSING));
}

#[test]
fn a_card_has_a_record(rt: HostRuntime) {
    let line = "raire: seen.csv: V4 card 1 draw 1\n";
    let said = polled(&rt, "", 3, Some(100));
    let Err(Refusal::Line(RefusalKind::Input, text)) = &said else {
        panic!(rt; "a refusal");
    };
    assert!(rt; text.as_str() == line);
}
