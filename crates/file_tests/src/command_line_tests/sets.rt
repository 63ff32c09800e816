// Tests of lines with a number of sets, and of words with one that aren't a line.
use super::{is_taken, words};
use budget::Budget;
use command_line::{Command, read};
use std::test::Fail;

#[test]
fn takes_numbers_of_sets(rt: HostRuntime) -> Result<(), Fail> {
    let lines = [
        "search a --sets=8",
        "search --sets 1 a",
        "search a --workers 1 --sets 1048576",
        "trial --number 7 --sets 0000000001",
        "check a b --sets=1048576",
        "trim --sets 1 a b",
        "adopt --sets 1 a b",
        "open a.raire m.csv f.json --seed 1 --sets 8",
        "audit s.json a.raire m.csv f.json v.csv --draws 4 --sets 8",
    ];
    for line in lines {
        assert!(rt; is_taken(rt.alloc(), line)?);
    }
    Ok(())
}

#[test]
fn takes_no_other_numbers_of_sets(rt: HostRuntime) -> Result<(), Fail> {
    let lines = [
        "search a --sets 0",
        "search a --sets 1048577",
        "search a --sets",
        "search a --sets=",
        "search a --sets=-1",
        "search a --sets 1 --sets 1",
        "search a --nodes 1 --sets 1",
        "search a --sets=1 --nodes=1",
        "trial --number 7 --sets 1 --nodes 1",
        "check a b --sets 0",
        "check a b --nodes 1 --sets 1",
        "trim a b --sets 1 --nodes 1",
        "adopt a b --sets 1 --nodes 1",
        "open a.raire m.csv f.json --seed 1 --sets 8 --nodes 8",
        "audit s.json a.raire m.csv f.json v.csv --draws 4 --sets 8 --nodes 8",
        "tabulate a --sets 1",
        "sample m.csv --seed 1 --draws 1 --sets 1",
        "plan m.csv f.json --sets 1",
        "report s.json --sets 1",
        "poll m.csv f.json v.csv --seed 2024 --draws 4 --sets 1",
        "plurality a.raire m.csv --seed 2024 --sets 1",
        "plurality s.json a.raire m.csv v.csv --draws 4 --sets 1",
    ];
    for line in lines {
        assert!(rt; !is_taken(rt.alloc(), line)?);
    }
    Ok(())
}

#[test]
fn reads_a_search_by_sets(rt: HostRuntime) -> Result<(), Fail> {
    let words = words(rt.alloc(), "search row1.raire --workers 2 --sets=8")?;
    let command = read(rt.alloc(), words.as_slice()).expect(&rt, "memory");
    let Some(Command::Search(task)) = command else {
        panic!(rt; "no search");
    };
    assert!(rt; task.ballots.as_str() == "row1.raire");
    assert!(rt; task.workers == 2);
    assert!(rt; task.budget == Budget::Sets(8));
    assert!(rt; task.floor == 1);
    Ok(())
}

#[test]
fn reads_a_trim_by_sets(rt: HostRuntime) -> Result<(), Fail> {
    let words = words(rt.alloc(), "trim --sets 1048576 a.raire f.json")?;
    let command = read(rt.alloc(), words.as_slice()).expect(&rt, "memory");
    let Some(Command::Trim(task)) = command else {
        panic!(rt; "no trim");
    };
    assert!(rt; task.ballots.as_str() == "a.raire");
    assert!(rt; task.assertions.as_str() == "f.json");
    assert!(rt; task.budget == Budget::Sets(1_048_576));
    Ok(())
}
