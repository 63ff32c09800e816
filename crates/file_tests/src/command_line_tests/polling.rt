// Tests of lines of `poll` and of both forms of `plurality`, and of words that aren't a line like this.
use super::{is_taken, words};
use command_line::{Command, read};
use std::test::Fail;

#[test]
fn takes_polls_and_pluralities(rt: HostRuntime) -> Result<(), Fail> {
    let lines = [
        "poll m.csv f.json v.csv --seed 2024 --draws 4",
        "poll --draws=100000 m.csv --gamma 500 f.json --limit=999999 --nodes 200000 --seed=2 -- -v",
        "poll m.csv f.json v.csv --seed 2024 --draws 4 --each",
        "poll --each m.csv f.json v.csv --gamma best --seed 2024 --draws 4",
        "poll --gamma=1000000 m.csv f.json --each --seed=2 --draws=4 -- --each",
        "plurality a.raire m.csv --seed 2024",
        "plurality --gamma=500 a.raire --contest 7 m.csv --limit 999999 --seed=2024",
        "plurality --seed=2024 -- a.raire --draws",
        "plurality s.json a.raire m.csv v.csv --draws 4",
        "plurality s.json --draws=100000 -- a.raire m.csv --seed",
    ];
    for line in lines {
        assert!(rt; is_taken(rt.alloc(), line)?);
    }
    Ok(())
}

#[test]
fn takes_no_other_poll(rt: HostRuntime) -> Result<(), Fail> {
    let lines = [
        "poll m.csv f.json v.csv",
        "poll m.csv f.json v.csv --seed 2024",
        "poll m.csv f.json v.csv --draws 4",
        "poll m.csv f.json --seed 2024 --draws 4",
        "poll a.raire m.csv f.json v.csv --seed 2024 --draws 4",
        "poll m.csv f.json v.csv --seed 2024 --draws 0",
        "poll m.csv f.json v.csv --seed 2024 --draws 100001",
        "poll m.csv f.json v.csv --seed 2024 --draws 4 --draws 4",
        "poll m.csv f.json v.csv --seed= --draws 4",
        "poll m.csv f.json v.csv --seed 2024 --draws 4 --limit 0",
        "poll m.csv f.json v.csv --seed 2024 --draws 4 --limit 1000000",
        "poll m.csv f.json v.csv --seed 2024 --draws 4 --gamma 0",
        "poll m.csv f.json v.csv --seed 2024 --draws 4 --gamma 501",
        "poll m.csv f.json v.csv --seed 2024 --draws 4 --nodes 0",
        "poll m.csv f.json v.csv --seed 2024 --draws 4 --nodes 200001",
        "poll m.csv f.json v.csv --seed 2024 --draws 4 --contest 7",
        "poll m.csv f.json v.csv --seed 2024 --draws 4 --workers 1",
        "polls m.csv f.json v.csv --seed 2024 --draws 4",
        "poll m.csv f.json v.csv --seed 2024 --draws 4 --gamma best",
        "poll m.csv f.json v.csv --seed 2024 --draws 4 --each --gamma Best",
        "poll m.csv f.json v.csv --seed 2024 --draws 4 --each --gamma 0",
        "poll m.csv f.json v.csv --seed 2024 --draws 4 --each --gamma 1000001",
        "poll m.csv f.json v.csv --seed 2024 --draws 4 --each --each",
        "poll m.csv f.json v.csv --seed 2024 --draws 4 --each=",
        "poll m.csv f.json v.csv --seed 2024 --draws 4 --each yes",
        "poll m.csv f.json v.csv --seed 2024 --each",
        "audit s.json a.raire m.csv f.json v.csv --draws 4 --each",
    ];
    for line in lines {
        assert!(rt; !is_taken(rt.alloc(), line)?);
    }
    Ok(())
}

#[test]
fn takes_no_other_plurality(rt: HostRuntime) -> Result<(), Fail> {
    let lines = [
        "plurality",
        "plurality a.raire --seed 2024",
        "plurality a.raire m.csv",
        "plurality a.raire m.csv --draws 4",
        "plurality a.raire m.csv --seed 2024 --draws 4",
        "plurality a.raire m.csv --seed 2024 --seed 2024",
        "plurality a.raire m.csv --seed 2024 --nodes 9",
        "plurality a.raire m.csv --seed 2024 --limit 0",
        "plurality a.raire m.csv --seed 2024 --limit 1000000",
        "plurality a.raire m.csv --seed 2024 --gamma 0",
        "plurality a.raire m.csv --seed 2024 --gamma 501",
        "plurality a.raire m.csv v.csv --seed 2024",
        "plurality a.raire m.csv v.csv --draws 4",
        "plurality s.json a.raire m.csv v.csv",
        "plurality s.json a.raire m.csv v.csv --seed 2024",
        "plurality s.json a.raire m.csv v.csv --draws 4 --seed 2024",
        "plurality s.json a.raire m.csv v.csv --draws 4 --contest 7",
        "plurality s.json a.raire m.csv v.csv --draws 4 --nodes 9",
        "plurality s.json a.raire m.csv v.csv --draws 0",
        "plurality s.json a.raire m.csv v.csv --draws 100001",
        "plurality s.json a.raire m.csv f.json v.csv --draws 4",
    ];
    for line in lines {
        assert!(rt; !is_taken(rt.alloc(), line)?);
    }
    Ok(())
}

#[test]
fn reads_a_poll(rt: HostRuntime) -> Result<(), Fail> {
    let words = words(
        rt.alloc(),
        "poll m.csv --draws 4 f.json --seed 2024 --limit=9 v.csv --nodes 8",
    )?;
    let command = read(rt.alloc(), words.as_slice()).expect(&rt, "memory");
    let Some(Command::Poll(task)) = command else {
        panic!(rt; "no poll");
    };
    assert!(rt; task.manifest.as_str() == "m.csv");
    assert!(rt; task.assertions.as_str() == "f.json");
    assert!(rt; task.seen.as_str() == "v.csv");
    assert!(rt; task.seed.text() == "2024");
    assert!(rt; task.draws == 4);
    assert!(rt; task.limit == 9);
    assert!(rt; task.gamma == 100);
    assert!(rt; task.nodes == 8);
    Ok(())
}

#[test]
fn reads_a_poll_that_looks_at_each_draw(rt: HostRuntime) -> Result<(), Fail> {
    for (gamma, found) in [
        ("", Some(100)),
        (" --gamma 501", Some(501)),
        (" --gamma=0001000000", Some(1_000_000)),
        (" --gamma best", None),
    ] {
        let line = format!(in rt.alloc();
            "poll m.csv --draws 4 f.json --each --seed 2024 --limit=9 v.csv --nodes 8{gamma}"
        )?;
        let words = words(rt.alloc(), line.as_str())?;
        let command = read(rt.alloc(), words.as_slice()).expect(&rt, "memory");
        let Some(Command::PollEach(task)) = command else {
            panic!(rt; "no poll that looks at each draw");
        };
        assert!(rt; task.manifest.as_str() == "m.csv");
        assert!(rt; task.assertions.as_str() == "f.json");
        assert!(rt; task.seen.as_str() == "v.csv");
        assert!(rt; task.seed.text() == "2024");
        assert!(rt; task.draws == 4);
        assert!(rt; task.limit == 9);
        assert!(rt; task.gamma == found, "{gamma}");
        assert!(rt; task.nodes == 8);
    }
    Ok(())
}

#[test]
fn reads_an_opening_of_a_plurality(rt: HostRuntime) -> Result<(), Fail> {
    let words = words(
        rt.alloc(),
        "plurality --contest=7 a.raire --seed 2024 --gamma=9 m.csv",
    )?;
    let command = read(rt.alloc(), words.as_slice()).expect(&rt, "memory");
    let Some(Command::OpenPlurality(task)) = command else {
        panic!(rt; "no opening of a plurality");
    };
    assert!(rt; task.ballots.as_str() == "a.raire");
    assert!(rt; task.manifest.as_str() == "m.csv");
    assert!(rt; task.seed.text() == "2024");
    assert!(rt;
        task.contest
            .is_some_and(|name| name.bytes() == b"7".as_slice())
    );
    assert!(rt; task.limit == 50_000);
    assert!(rt; task.gamma == 9);
    Ok(())
}

#[test]
fn reads_a_round_of_a_plurality(rt: HostRuntime) -> Result<(), Fail> {
    let words = words(rt.alloc(), "plurality s.json a.raire --draws=4 m.csv v.csv")?;
    let command = read(rt.alloc(), words.as_slice()).expect(&rt, "memory");
    let Some(Command::AuditPlurality(task)) = command else {
        panic!(rt; "no round of a plurality");
    };
    assert!(rt; task.session.as_str() == "s.json");
    assert!(rt; task.ballots.as_str() == "a.raire");
    assert!(rt; task.manifest.as_str() == "m.csv");
    assert!(rt; task.seen.as_str() == "v.csv");
    assert!(rt; task.draws == 4);
    Ok(())
}
