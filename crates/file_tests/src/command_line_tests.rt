// Tests of `command_line`: lines, words that aren't a line, and what a line requests.
mod contests;
mod fewest;
mod polling;
mod sets;

use budget::Budget;
use command_line::{Command, is_line, read};
use std::alloc::{AllocError, Global};
use std::test::Fail;

pub(crate) fn words(alloc: Global, line: &str) -> Result<Vec<String>, AllocError> {
    let mut words = Vec::new(alloc);
    for word in line.split(' ') {
        words.push(String::from_str(alloc, word)?)?;
    }
    Ok(words)
}

pub(crate) fn is_taken(alloc: Global, line: &str) -> Result<bool, AllocError> {
    let words = words(alloc, line)?;
    Ok(is_line(words.as_slice()))
}

#[test]
fn takes_lines(rt: HostRuntime) -> Result<(), Fail> {
    let lines = [
        "search row1.raire",
        "search --contest 1 row1.raire",
        "search --contest=1 -- row1.raire",
        "search row1.raire --nodes 200000 --floor=0000000001",
        "search --workers 1 row1.raire",
        "search row1.raire --workers=08 --nodes 1",
        "tabulate --contest 7 -- --nodes",
        "tabulate a --nodes 1",
        "tabulate --nodes=200000 a --contest 7",
        "check row1.raire f.json",
        "check --nodes=200000 a --contest 7 -- -b",
        "sample m.csv --seed 2024 --draws 3",
        "sample --draws=100000 --seed=- -- -m",
        "plan m.csv f.json",
        "plan --limit=999999 m.csv --gamma 500 f.json",
        "open a.raire m.csv f.json --seed 2024",
        "open --nodes 9 a.raire --contest 7 m.csv --limit=1 f.json --gamma=1 --seed=2024",
        "audit s.json a.raire m.csv f.json v.csv --draws 4",
        "audit --draws=100000 s.json --nodes 200000 -- a.raire m.csv f.json -v",
        "report s.json",
        "trial --number 0",
        "trial --number=4294967295 --candidates 32 --ballots=1000000",
        "trial --workers 8 --candidates=2 --nodes 200000 --ballots 1 --number 0000000007",
    ];
    for line in lines {
        assert!(rt; is_taken(rt.alloc(), line)?);
    }
    Ok(())
}

#[test]
fn takes_no_other_words(rt: HostRuntime) -> Result<(), Fail> {
    let none = Vec::new(rt.alloc());
    assert!(rt; !is_line(none.as_slice()));
    let lines = [
        "search row1.raire --contest",
        "search --contest 1 --contest 1 row1.raire",
        "search a b",
        "find a",
        "search a --floor 0",
        "search a --workers 0",
        "search a --workers 9",
        "search a --workers",
        "search --workers a",
        "search a --workers=",
        "search a --workers 2 --workers 2",
        "check a b --workers 1",
        "search a --nodes 200001",
        "search a --nodes 00000000001",
        "search a --floor 1000001",
        "search a --contest -1",
        "search a --contest=",
        "tabulate a --nodes 0",
        "tabulate a --nodes 200001",
        "tabulate a --floor 1",
        "tabulate a --workers 1",
        "search -- --contest 1",
        "search ",
        "search a -h",
        "check a",
        "check a b c",
        "check a b --floor 1",
        "check a b --nodes 0",
        "check a -- b --nodes 1",
        "sample m.csv",
        "sample m.csv --seed 1",
        "sample m.csv --draws 1",
        "sample m.csv --seed= --draws 1",
        "sample m.csv --seed - --draws 1",
        "sample m.csv --seed 1 --draws 0",
        "sample m.csv --seed 1 --draws 100001",
        "sample m.csv --seed 1 --draws 1 --nodes 1",
        "sample a b --seed 1 --draws 1",
        "plan m.csv",
        "plan m.csv f.json --limit 0",
        "plan m.csv f.json --limit 1000000",
        "plan m.csv f.json --gamma 501",
        "plan m.csv f.json --contest 1",
        "open a.raire m.csv f.json",
        "open a.raire m.csv --seed 1",
        "open a.raire m.csv f.json --seed 1 --draws 1",
        "open a.raire m.csv f.json --seed 1 --floor 1",
        "audit s.json a.raire m.csv f.json v.csv",
        "audit s.json a.raire m.csv f.json --draws 4",
        "audit s.json a.raire m.csv f.json v.csv --draws 4 --contest 7",
        "audit s.json a.raire m.csv f.json v.csv --draws 4 --seed 1",
        "report",
        "report s.json --nodes 1",
        "trial",
        "trial 7",
        "trial --number",
        "trial --number 4294967296",
        "trial --number 7 --number 7",
        "trial --number 7 a.raire",
        "trial --number 7 --candidates 1",
        "trial --number 7 --candidates 33",
        "trial --number 7 --ballots 0",
        "trial --number 7 --ballots 1000001",
        "trial --number 7 --workers 0",
        "trial --number 7 --workers 9",
        "trial --number 7 --nodes 0",
        "trial --number 7 --nodes 200001",
        "trial --number 7 --floor 1",
        "trial --candidates 2 --ballots 1",
        "search a --number 7",
    ];
    for line in lines {
        assert!(rt; !is_taken(rt.alloc(), line)?);
    }
    Ok(())
}

#[test]
fn reads_a_search(rt: HostRuntime) -> Result<(), Fail> {
    let words = words(
        rt.alloc(),
        "search --contest 1 row1.raire --nodes=08 --workers 2",
    )?;
    let command = read(rt.alloc(), words.as_slice()).expect(&rt, "memory");
    let Some(Command::Search(task)) = command else {
        panic!(rt; "no search");
    };
    assert!(rt; task.ballots.as_str() == "row1.raire");
    assert!(rt;
        task.contest
            .is_some_and(|name| name.bytes() == b"1".as_slice())
    );
    assert!(rt; task.workers == 2);
    assert!(rt; task.budget == Budget::Nodes(8));
    assert!(rt; task.floor == 1);
    Ok(())
}

#[test]
fn reads_a_tabulation(rt: HostRuntime) -> Result<(), Fail> {
    let words = words(rt.alloc(), "tabulate row1.raire --nodes 3 --contest=7")?;
    let command = read(rt.alloc(), words.as_slice()).expect(&rt, "memory");
    let Some(Command::Tabulate(task)) = command else {
        panic!(rt; "no tabulation");
    };
    assert!(rt; task.ballots.as_str() == "row1.raire");
    assert!(rt;
        task.contest
            .is_some_and(|name| name.bytes() == b"7".as_slice())
    );
    assert!(rt; task.nodes == 3);
    Ok(())
}

#[test]
fn reads_a_check(rt: HostRuntime) -> Result<(), Fail> {
    let words = words(rt.alloc(), "check --nodes 3 row1.raire f.json")?;
    let command = read(rt.alloc(), words.as_slice()).expect(&rt, "memory");
    let Some(Command::Check(task)) = command else {
        panic!(rt; "no check");
    };
    assert!(rt; task.ballots.as_str() == "row1.raire");
    assert!(rt; task.assertions.as_str() == "f.json");
    assert!(rt; task.contest.is_none());
    assert!(rt; task.budget == Budget::Nodes(3));
    Ok(())
}

#[test]
fn reads_a_sample(rt: HostRuntime) -> Result<(), Fail> {
    let words = words(rt.alloc(), "sample --draws 07 m.csv --seed=20,24")?;
    let command = read(rt.alloc(), words.as_slice()).expect(&rt, "memory");
    let Some(Command::Sample(task)) = command else {
        panic!(rt; "no sample");
    };
    assert!(rt; task.manifest.as_str() == "m.csv");
    assert!(rt; task.seed.text() == "20,24");
    assert!(rt; task.draws == 7);
    Ok(())
}

#[test]
fn reads_a_plan(rt: HostRuntime) -> Result<(), Fail> {
    let words = words(rt.alloc(), "plan m.csv --gamma 9 f.json")?;
    let command = read(rt.alloc(), words.as_slice()).expect(&rt, "memory");
    let Some(Command::Plan(task)) = command else {
        panic!(rt; "no plan");
    };
    assert!(rt; task.manifest.as_str() == "m.csv");
    assert!(rt; task.assertions.as_str() == "f.json");
    assert!(rt; task.limit == 50_000);
    assert!(rt; task.gamma == 9);
    Ok(())
}

#[test]
fn reads_an_opening(rt: HostRuntime) -> Result<(), Fail> {
    let words = words(
        rt.alloc(),
        "open a.raire --seed 2024 m.csv --gamma 9 f.json --nodes=8",
    )?;
    let command = read(rt.alloc(), words.as_slice()).expect(&rt, "memory");
    let Some(Command::Open(task)) = command else {
        panic!(rt; "no opening");
    };
    assert!(rt; task.ballots.as_str() == "a.raire");
    assert!(rt; task.manifest.as_str() == "m.csv");
    assert!(rt; task.assertions.as_str() == "f.json");
    assert!(rt; task.seed.text() == "2024");
    assert!(rt; task.contest.is_none());
    assert!(rt; task.limit == 50_000);
    assert!(rt; task.gamma == 9);
    assert!(rt; task.budget == Budget::Nodes(8));
    Ok(())
}

#[test]
fn reads_an_audit(rt: HostRuntime) -> Result<(), Fail> {
    let words = words(
        rt.alloc(),
        "audit s.json a.raire m.csv --draws 4 -- f.json v.csv",
    )?;
    let command = read(rt.alloc(), words.as_slice()).expect(&rt, "memory");
    let Some(Command::Audit(task)) = command else {
        panic!(rt; "no audit");
    };
    assert!(rt; task.session.as_str() == "s.json");
    assert!(rt; task.ballots.as_str() == "a.raire");
    assert!(rt; task.manifest.as_str() == "m.csv");
    assert!(rt; task.assertions.as_str() == "f.json");
    assert!(rt; task.seen.as_str() == "v.csv");
    assert!(rt; task.draws == 4);
    assert!(rt; task.budget == Budget::Nodes(100_000));
    Ok(())
}

#[test]
fn reads_a_report(rt: HostRuntime) -> Result<(), Fail> {
    let words = words(rt.alloc(), "report s.json")?;
    let command = read(rt.alloc(), words.as_slice()).expect(&rt, "memory");
    let Some(Command::Report(task)) = command else {
        panic!(rt; "no report");
    };
    assert!(rt; task.session.as_str() == "s.json");
    Ok(())
}

#[test]
fn reads_a_trial(rt: HostRuntime) -> Result<(), Fail> {
    let words = words(rt.alloc(), "trial --candidates=3 --number 0 --workers 2")?;
    let command = read(rt.alloc(), words.as_slice()).expect(&rt, "memory");
    let Some(Command::Trial(task)) = command else {
        panic!(rt; "no trial");
    };
    assert!(rt; task.number == 0);
    assert!(rt; task.candidates == 3);
    assert!(rt; task.ballots == 10_000);
    assert!(rt; task.workers == 2);
    assert!(rt; task.budget == Budget::Nodes(100_000));
    Ok(())
}
