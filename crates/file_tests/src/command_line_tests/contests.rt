// Tests of lines of `contests`, and of words that aren't a line like this.
use super::{is_taken, words};
use command_line::{Command, read};
use std::test::Fail;

#[test]
fn takes_all_contests(rt: HostRuntime) -> Result<(), Fail> {
    let lines = [
        "contests a.raire m.csv v.csv --seed 2024 --draws 5",
        "contests --draws=100000 a.raire --limit 999999 m.csv --gamma=500 --workers 8 --nodes=200000 --seed=2 -- -v",
    ];
    for line in lines {
        assert!(rt; is_taken(rt.alloc(), line)?);
    }
    Ok(())
}

#[test]
fn takes_no_other_contests(rt: HostRuntime) -> Result<(), Fail> {
    let lines = [
        "contests a.raire m.csv v.csv",
        "contests a.raire m.csv v.csv --seed 2024",
        "contests a.raire m.csv v.csv --draws 5",
        "contests a.raire m.csv --seed 2024 --draws 5",
        "contests a.raire m.csv f.json v.csv --seed 2024 --draws 5",
        "contests a.raire m.csv v.csv --seed 2024 --draws 0",
        "contests a.raire m.csv v.csv --seed 2024 --draws 100001",
        "contests a.raire m.csv v.csv --seed 2024 --draws 5 --limit 0",
        "contests a.raire m.csv v.csv --seed 2024 --draws 5 --limit 1000000",
        "contests a.raire m.csv v.csv --seed 2024 --draws 5 --gamma 0",
        "contests a.raire m.csv v.csv --seed 2024 --draws 5 --gamma 501",
        "contests a.raire m.csv v.csv --seed 2024 --draws 5 --workers 0",
        "contests a.raire m.csv v.csv --seed 2024 --draws 5 --workers 9",
        "contests a.raire m.csv v.csv --seed 2024 --draws 5 --nodes 0",
        "contests a.raire m.csv v.csv --seed 2024 --draws 5 --nodes 200001",
        "contests a.raire m.csv v.csv --seed 2024 --draws 5 --contest 7",
        "contests a.raire m.csv v.csv --seed 2024 --draws 5 --floor 1",
        "contest a.raire m.csv v.csv --seed 2024 --draws 5",
    ];
    for line in lines {
        assert!(rt; !is_taken(rt.alloc(), line)?);
    }
    Ok(())
}

#[test]
fn reads_what_contests_are_asked_for(rt: HostRuntime) -> Result<(), Fail> {
    let words = words(
        rt.alloc(),
        "contests a.raire --draws 5 m.csv --seed 2024 --gamma=9 v.csv --workers 2 --nodes=8",
    )?;
    let command = read(rt.alloc(), words.as_slice()).expect(&rt, "memory");
    let Some(Command::Contests(task)) = command else {
        panic!(rt; "no contests");
    };
    assert!(rt; task.ballots.as_str() == "a.raire");
    assert!(rt; task.manifest.as_str() == "m.csv");
    assert!(rt; task.seen.as_str() == "v.csv");
    assert!(rt; task.seed.text() == "2024");
    assert!(rt; task.draws == 5);
    assert!(rt; task.limit == 50_000);
    assert!(rt; task.gamma == 9);
    assert!(rt; task.workers == 2);
    assert!(rt; task.nodes == 8);
    Ok(())
}
