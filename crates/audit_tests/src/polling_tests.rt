// Tests of `polling`: the polls of a single card, which is drawn again and again. The risks come from outside: they were worked out in Python.
ghost use Rattle.std.specs.Prelude.{◌≤◌};
ghost use Rattle.irv_base.specs.declared.limits.TheConstants.{MOST_DRAWS};

use crate::one_card::{ASSERTIONS, MANIFEST};
use assertion_file::read_file;
use audit_session::read_seen;
use manifest::read_manifest;
use polling::{PollCounts, PollEnd, PollFault, poll, poll_risk};
use sampler::Seed;

// The poll of the card at a limit of 5 percent and gamma 0.1, if this is seen of it.
fn polled(rt: &HostRuntime, seen: &[u8], draws: u32) -> Option<Result<PollEnd, PollFault>>
    requires { draws ≤ MOST_DRAWS }
{
    let Ok(manifest) = read_manifest(rt.alloc(), MANIFEST.as_bytes()) else {
        return None;
    };
    let Ok(file) = read_file(rt.alloc(), ASSERTIONS.as_bytes()) else {
        return None;
    };
    let Ok(seen) = read_seen(rt.alloc(), seen, &manifest, file.candidates()) else {
        return None;
    };
    let seed = Seed::read("2024").ok()?;
    Some(poll(
        rt.alloc(),
        &manifest,
        &file,
        &seen,
        &seed,
        draws,
        50_000,
        100,
    ))
}

#[test]
fn five_draws_confirm_a_single_card(rt: HostRuntime) {
    let Some(Ok(four)) = polled(&rt, b"b_1,ballot,1\n", 4) else {
        panic!(rt; "an end");
    };
    assert!(rt;
        four.counts.as_slice()
            == [PollCounts {
                n0: 0,
                n1: 0,
                n2: 4
            }]
            .as_slice()
    );
    assert!(rt; four.risks.as_slice() == [88_518_543_815_313_162].as_slice());
    assert!(rt; !four.confirmed);
    let Some(Ok(five)) = polled(&rt, b"b_1,ballot,1\n", 5) else {
        panic!(rt; "an end");
    };
    assert!(rt; five.risks.as_slice() == [48_282_842_081_079_907].as_slice());
    assert!(rt; five.confirmed);
}

#[test]
fn a_missing_card_counts_for_the_loser(rt: HostRuntime) {
    let Some(Ok(end)) = polled(&rt, b"b_1,missing\n", 1) else {
        panic!(rt; "an end");
    };
    assert!(rt;
        end.counts.as_slice()
            == [PollCounts {
                n0: 1,
                n1: 0,
                n2: 0
            }]
            .as_slice()
    );
    assert!(rt; end.risks.as_slice() == [1_000_000_000_000_000_000].as_slice());
    assert!(rt; !end.confirmed);
}

#[test]
fn a_card_without_a_record(rt: HostRuntime) {
    let Some(Err(fault)) = polled(&rt, b"", 3) else {
        panic!(rt; "no record");
    };
    assert!(rt; fault == PollFault::NoRecord { card: 1, k: 1 });
}

// The draws for neither change nothing; a draw for the loser after five for the winner has the factor 6.
#[test]
fn risks_of_counts(rt: HostRuntime) {
    let five = poll_risk(
        &PollCounts {
            n0: 0,
            n1: 0,
            n2: 5,
        },
        100,
    );
    assert!(rt; five == 48_282_842_081_079_907);
    assert!(rt;
        poll_risk(
            &PollCounts {
                n0: 0,
                n1: 7,
                n2: 5
            },
            100
        ) == five
    );
    assert!(rt;
        poll_risk(
            &PollCounts {
                n0: 1,
                n1: 0,
                n2: 5
            },
            100
        ) == 6 * five
    );
}
