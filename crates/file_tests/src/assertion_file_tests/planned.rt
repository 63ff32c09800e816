// Tests of files with a plan: those that are read and printed again, and those that are refused.
use crate::texts::altered;
use assertion_file::{FRule, FileFault, print_file, read_file};
use std::alloc::{AllocError, Global};
use std::test::Fail;

// Five ballots for one of two candidates, among five cards.
const FIVE_BALLOTS: &str =
    "{\"assertions\":[{\"draws\":5,\"kind\":\"NEB\",\"loser\":\"2\",\"margin\":5,\"winner\":\"1\"}],\"candidates\":[\"1\",\"2\"],\"cards\":5,\"contest\":\"1\",\"gamma\":100,\"limit\":50000,\"margin\":5,\"order\":[\"1\",\"2\"],\"records\":5,\"version\":2,\"winner\":\"1\"}\n";

// Whether the file, with `old` replaced by another text, is read and printed unchanged.
fn stays(alloc: Global, old: &str, new: &str) -> Result<bool, AllocError> {
    let text = altered(alloc, FIVE_BALLOTS, old, new)?;
    let Ok(file) = read_file(alloc, text.as_bytes()) else {
        return Ok(false);
    };
    match print_file(alloc, &file) {
        Ok(printed) => Ok(printed.as_slice() == text.as_bytes()),
        Err(_memory) => Ok(false),
    }
}

// Whether this file is refused by this rule at this place.
fn refuses(alloc: Global, old: &str, new: &str, rule: FRule, at: u64) -> Result<bool, AllocError> {
    let text = altered(alloc, FIVE_BALLOTS, old, new)?;
    match read_file(alloc, text.as_bytes()) {
        Err(
            FileFault::Refused {
                rule: found,
                at: place,
            },
        ) => Ok(found == rule && place == at),
        _ => Ok(false),
    }
}

#[test]
fn five_ballots(rt: HostRuntime) -> Result<(), Fail> {
    let read = read_file(rt.alloc(), FIVE_BALLOTS.as_bytes());
    assert!(rt; read.is_ok());
    if let Ok(file) = read {
        assert!(rt; file.plan().is_some());
        if let Some(plan) = file.plan() {
            assert!(rt; plan.cards == 5 && plan.gamma == 100 && plan.limit == 50_000);
            assert!(rt; plan.draws.as_slice() == [Some(5)].as_slice());
        }
    }
    Ok(())
}

#[test]
fn printed_as_it_was(rt: HostRuntime) -> Result<(), Fail> {
    assert!(rt; stays(rt.alloc(), "\"draws\":5", "\"draws\":5")?);
    assert!(rt; stays(rt.alloc(), "\"draws\":5", "\"draws\":null")?);
    assert!(rt; stays(rt.alloc(), "\"draws\":5", "\"draws\":100000")?);
    assert!(rt; stays(rt.alloc(), "\"cards\":5", "\"cards\":10000000")?);
    Ok(())
}

#[test]
fn version_one_looks_at_no_plan(rt: HostRuntime) -> Result<(), Fail> {
    let alloc = rt.alloc();
    let text = altered(alloc, FIVE_BALLOTS, "\"version\":2", "\"version\":1")?;
    let text = altered(alloc, text.as_str(), "\"cards\":5", "\"cards\":\"all\"")?;
    let read = read_file(alloc, text.as_bytes());
    assert!(rt; read.is_ok());
    if let Ok(file) = read {
        assert!(rt; file.plan().is_none());
    }
    Ok(())
}

#[test]
fn a_member_is_missing_or_of_another_kind(rt: HostRuntime) -> Result<(), Fail> {
    let alloc = rt.alloc();
    assert!(rt; refuses(alloc, "\"cards\":5,", "", FRule::F2, 0)?);
    assert!(rt; refuses(alloc, "\"gamma\":100", "\"gamma\":null", FRule::F2, 0)?);
    assert!(rt; refuses(alloc, "\"draws\":5,", "", FRule::F2, 1)?);
    assert!(rt; refuses(alloc, "\"draws\":5", "\"draws\":\"5\"", FRule::F2, 1)?);
    assert!(rt; refuses(alloc, "\"draws\":5", "\"draws\":5.0", FRule::F2, 1)?);
    Ok(())
}

#[test]
fn numbers_beyond_their_limits(rt: HostRuntime) -> Result<(), Fail> {
    let alloc = rt.alloc();
    assert!(rt; refuses(alloc, "\"cards\":5", "\"cards\":4", FRule::F6, 0)?);
    assert!(rt; refuses(alloc, "\"cards\":5", "\"cards\":10000001", FRule::F6, 0)?);
    assert!(rt; refuses(alloc, "\"gamma\":100", "\"gamma\":501", FRule::F6, 0)?);
    assert!(rt; refuses(alloc, "\"limit\":50000", "\"limit\":0", FRule::F6, 0)?);
    assert!(rt; refuses(alloc, "\"limit\":50000", "\"limit\":1000000", FRule::F6, 0)?);
    assert!(rt; refuses(alloc, "\"draws\":5", "\"draws\":0", FRule::F6, 1)?);
    assert!(rt; refuses(alloc, "\"draws\":5", "\"draws\":100001", FRule::F6, 1)?);
    Ok(())
}
