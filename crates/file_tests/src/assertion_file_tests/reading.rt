// Tests of files of three candidates: those that are read, and those that are refused.
use super::THREE_CANDIDATES;
use crate::texts::altered;
use assertion_file::{FRule, FileFault, print_file, read_file};
use file_fault::Rule;
use std::alloc::{AllocError, Global};
use std::test::Fail;

// Whether the file of three candidates, with `old` replaced by another text, is refused by this rule at this place.
fn refuses(alloc: Global, old: &str, new: &str, rule: FRule, at: u64) -> Result<bool, AllocError> {
    let text = altered(alloc, THREE_CANDIDATES, old, new)?;
    match read_file(alloc, text.as_bytes()) {
        Err(
            FileFault::Refused {
                rule: found,
                at: place,
            },
        ) => Ok(found == rule && place == at),
        _ => Ok(false),
    }
}

#[test]
fn three_candidates(rt: HostRuntime) -> Result<(), Fail> {
    let read = read_file(rt.alloc(), THREE_CANDIDATES.as_bytes());
    assert!(rt; read.is_ok());
    if let Ok(file) = read {
        assert!(rt; file.contest().bytes() == b"1".as_slice());
        assert!(rt; file.candidates().len() == 3 && file.records() == 12 && file.winner().0 == 1);
        assert!(rt; file.margin() == 1 && file.claims().len() == 3);
        assert!(rt; file.order().is_some_and(|order| order.at(0).0 == 1));
    }
    Ok(())
}

// Whether the file, with `old` replaced by another text, is read, and printed as the file of three candidates.
fn says_the_same(alloc: Global, old: &str, new: &str) -> Result<bool, AllocError> {
    let text = altered(alloc, THREE_CANDIDATES, old, new)?;
    let Ok(file) = read_file(alloc, text.as_bytes()) else {
        return Ok(false);
    };
    match print_file(alloc, &file) {
        Ok(printed) => Ok(printed.as_slice() == THREE_CANDIDATES.as_bytes()),
        Err(_memory) => Ok(false),
    }
}

#[test]
fn other_layouts(rt: HostRuntime) -> Result<(), Fail> {
    let alloc = rt.alloc();
    assert!(rt; says_the_same(alloc, "}\n", "}\n")?);
    assert!(rt; says_the_same(alloc, "}\n", "}")?);
    assert!(rt; says_the_same(alloc, ",\"loser\"", ", \"loser\"")?);
    assert!(rt; says_the_same(alloc, "[\"1\",\"3\"],", "[\"3\",\"1\"],")?);
    assert!(rt; says_the_same(alloc, "\"kind\":\"NEB\",", "\"kind\":\"NEB\",\"draws\":0,")?);
    Ok(())
}

#[test]
fn version_four(rt: HostRuntime) -> Result<(), Fail> {
    assert!(rt; refuses(rt.alloc(), "\"version\":1", "\"version\":4", FRule::F3, 0)?);
    Ok(())
}

#[test]
fn another_kind_in_the_second(rt: HostRuntime) -> Result<(), Fail> {
    let old = "\"NEN\",\"loser\":\"1\",\"margin\":2,\"rest\":[\"1\",\"2\"]";
    let new = "\"NEC\",\"loser\":\"1\",\"margin\":2,\"rest\":[\"1\",\"2\"]";
    assert!(rt; refuses(rt.alloc(), old, new, FRule::F2, 2)?);
    Ok(())
}

#[test]
fn unknown_loser_in_the_first(rt: HostRuntime) -> Result<(), Fail> {
    let old = "\"loser\":\"3\"";
    let new = "\"loser\":\"4\"";
    assert!(rt; refuses(rt.alloc(), old, new, FRule::F4, 1)?);
    Ok(())
}

#[test]
fn rest_of_one_in_the_second(rt: HostRuntime) -> Result<(), Fail> {
    let old = "\"rest\":[\"1\",\"2\"]";
    let new = "\"rest\":[\"1\"]";
    assert!(rt; refuses(rt.alloc(), old, new, FRule::F5, 2)?);
    Ok(())
}

#[test]
fn margin_above_the_records_in_the_third(rt: HostRuntime) -> Result<(), Fail> {
    let old = "\"margin\":2,\"rest\":[\"1\",\"3\"]";
    let new = "\"margin\":13,\"rest\":[\"1\",\"3\"]";
    assert!(rt; refuses(rt.alloc(), old, new, FRule::F6, 3)?);
    Ok(())
}

#[test]
fn no_last_brace(rt: HostRuntime) -> Result<(), Fail> {
    assert!(rt; refuses(rt.alloc(), "}\n", "\n", FRule::F1, 0)?);
    Ok(())
}

#[test]
fn records_with_a_point(rt: HostRuntime) -> Result<(), Fail> {
    let old = "\"records\":12";
    let new = "\"records\":12.0";
    assert!(rt; refuses(rt.alloc(), old, new, FRule::F2, 0)?);
    Ok(())
}

#[test]
fn records_above_32_bits(rt: HostRuntime) -> Result<(), Fail> {
    let old = "\"records\":12";
    let new = "\"records\":4294967296";
    assert!(rt; refuses(rt.alloc(), old, new, FRule::F2, 0)?);
    Ok(())
}

#[test]
fn no_records(rt: HostRuntime) -> Result<(), Fail> {
    assert!(rt; refuses(rt.alloc(), "\"records\":12", "\"records\":0", FRule::F6, 0)?);
    Ok(())
}

#[test]
fn names_of_rules(rt: HostRuntime) {
    assert!(rt; FRule::F1.name() == "F1" && FRule::F6.name() == "F6");
}
