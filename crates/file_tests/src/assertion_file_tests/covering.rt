// Tests of files of version 3: those that are read, and those that are refused.
use super::THREE_CANDIDATES;
use crate::texts::altered;
use assertion_file::{FRule, FileFault, print_file, read_file};
use std::alloc::{AllocError, Global};
use std::test::Fail;

// The certificate of three candidates without its order.
const COVERED: &str =
    "{\"assertions\":[{\"kind\":\"NEB\",\"loser\":\"3\",\"margin\":1,\"winner\":\"2\"},{\"kind\":\"NEN\",\"loser\":\"1\",\"margin\":2,\"rest\":[\"1\",\"2\"],\"winner\":\"2\"},{\"kind\":\"NEN\",\"loser\":\"1\",\"margin\":2,\"rest\":[\"1\",\"3\"],\"winner\":\"3\"}],\"candidates\":[\"1\",\"2\",\"3\"],\"contest\":\"1\",\"margin\":1,\"records\":12,\"version\":3,\"winner\":\"2\"}\n";

// Five cards for the first of two candidates, with draws and without an order.
const PLANNED: &str =
    "{\"assertions\":[{\"draws\":5,\"kind\":\"NEB\",\"loser\":\"2\",\"margin\":5,\"winner\":\"1\"}],\"candidates\":[\"1\",\"2\"],\"cards\":5,\"contest\":\"1\",\"gamma\":100,\"limit\":50000,\"margin\":5,\"records\":5,\"version\":3,\"winner\":\"1\"}\n";

// Whether the text is read, with a plan if one is expected, and printed again unchanged.
fn is_read(alloc: Global, text: &str, is_planned: bool) -> bool {
    let Ok(file) = read_file(alloc, text.as_bytes()) else {
        return false;
    };
    let Ok(printed) = print_file(alloc, &file) else {
        return false;
    };
    file.order().is_none()
        && file.plan().is_some() == is_planned
        && printed.as_slice() == text.as_bytes()
}

// Whether the text, with `old` replaced by another text, is refused by F2 at this place.
fn refuses(alloc: Global, text: &str, old: &str, new: &str, at: u64) -> Result<bool, AllocError> {
    let text = altered(alloc, text, old, new)?;
    match read_file(alloc, text.as_bytes()) {
        Err(FileFault::Refused { rule, at: place }) => Ok(rule == FRule::F2 && place == at),
        _ => Ok(false),
    }
}

#[test]
fn both_are_read(rt: HostRuntime) {
    assert!(rt; is_read(rt.alloc(), COVERED, false));
    assert!(rt; is_read(rt.alloc(), PLANNED, true));
}

#[test]
fn an_order_is_refused(rt: HostRuntime) -> Result<(), Fail> {
    let alloc = rt.alloc();
    let old = "\"records\"";
    assert!(rt;
        refuses(
            alloc,
            COVERED,
            old,
            "\"order\":[\"2\",\"1\",\"3\"],\"records\"",
            0
        )?
    );
    assert!(rt; refuses(alloc, COVERED, old, "\"order\":null,\"records\"", 0)?);
    assert!(rt;
        refuses(
            alloc,
            THREE_CANDIDATES,
            "\"order\":[\"2\",\"1\",\"3\"],",
            "",
            0
        )?
    );
    Ok(())
}

#[test]
fn a_part_of_a_plan_is_refused(rt: HostRuntime) -> Result<(), Fail> {
    let alloc = rt.alloc();
    assert!(rt; refuses(alloc, PLANNED, "\"cards\":5,", "", 0)?);
    assert!(rt; refuses(alloc, PLANNED, "\"gamma\":100,\"limit\":50000,", "", 0)?);
    assert!(rt; refuses(alloc, PLANNED, "\"limit\":50000", "\"limit\":null", 0)?);
    assert!(rt; refuses(alloc, PLANNED, "\"draws\":5,", "", 1)?);
    assert!(rt;
        refuses(
            alloc,
            COVERED,
            "\"margin\":2,\"rest\":[\"1\",\"3\"]",
            "\"draws\":5,\"margin\":2,\"rest\":[\"1\",\"3\"]",
            3
        )?
    );
    Ok(())
}
