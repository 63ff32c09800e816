// The search, compared with the plain program and with itself at other numbers of workers.
use crate::cases::{Ran, hold, ran_over};
use crate::contests::{SIZES, SMALL_SIZES, ballot_file, generated, generated_with_ties};
use crate::plain::{Contest, Plain, search};
use desk::Named;
use std::alloc::{AllocError, Global};
use std::test::Fail;
use std::thread::Threads;

// The name of a contest's file.
const FILE: &str = "generated.raire";

fn file_of(alloc: Global, contest: &Contest) -> Result<Vec<Named>, AllocError> {
    let mut files = Vec::new(alloc);
    let text = ballot_file(alloc, contest)?;
    hold(alloc, &mut files, FILE, text.as_str())?;
    Ok(files)
}

// Runs a search with this many workers.
fn searched<R: AllocGlobal + Threads + Sync>(
    rt: &R,
    contest: &Contest,
    workers: &str,
) -> Result<Ran, AllocError> {
    let files = file_of(rt.alloc(), contest)?;
    let words = ["search", FILE, "--workers", workers];
    ran_over(rt, files, &words, &[], &[])
}

// Whether the call came to the status and the bytes of the plain program, and wrote nothing about a fault.
fn is_same(ran: &Ran, plain: &Plain) -> bool {
    let (status, text) = match plain {
        Plain::Certificate(text) => (0, text.as_str()),
        Plain::Tie(text) => (3, text.as_str()),
    };
    ran.status == status && ran.out.as_slice() == text.as_bytes() && ran.err.is_empty()
}

fn agree<R: AllocGlobal + Threads + Sync>(rt: &R, number: u64) -> Result<bool, AllocError> {
    let contest = generated(rt.alloc(), number, SMALL_SIZES)?;
    let plain = search(rt.alloc(), &contest)?;
    let ran = searched(rt, &contest, "4")?;
    Ok(is_same(&ran, &plain))
}

// Whether the search gives the plain program's answer for a contest with many ties, at 1, 2, 4 and 8 workers.
fn agree_on_ties<R: AllocGlobal + Threads + Sync>(rt: &R, number: u64) -> Result<bool, AllocError> {
    let contest = generated_with_ties(rt.alloc(), number)?;
    let plain = search(rt.alloc(), &contest)?;
    let mut same = true;
    for workers in ["1", "2", "4", "8"] {
        let ran = searched(rt, &contest, workers)?;
        same = same && is_same(&ran, &plain);
    }
    Ok(same)
}

// Whether the search gives an answer or a tie, with the same bytes for 1, 2, 4 and 8 workers.
fn is_one<R: AllocGlobal + Threads + Sync>(rt: &R, number: u64) -> Result<bool, AllocError> {
    let contest = generated(rt.alloc(), number, SIZES)?;
    let one = searched(rt, &contest, "1")?;
    let mut same = matches!(one.status, 0 | 3) && one.err.is_empty();
    for workers in ["2", "4", "8"] {
        let more = searched(rt, &contest, workers)?;
        same = same && more.status == one.status && more.err.is_empty();
        same = same && more.out.as_slice() == one.out.as_slice();
    }
    Ok(same)
}

#[test]
fn a_hundred_contests(rt: HostRuntime) -> Result<(), Fail> {
    for number in 0..100 {
        assert!(rt; agree(&rt, number)?, "contest {number}");
    }
    Ok(())
}

#[test]
fn a_second_hundred(rt: HostRuntime) -> Result<(), Fail> {
    for number in 100..200 {
        assert!(rt; agree(&rt, number)?, "contest {number}");
    }
    Ok(())
}

#[test]
fn a_third_hundred(rt: HostRuntime) -> Result<(), Fail> {
    for number in 200..300 {
        assert!(rt; agree(&rt, number)?, "contest {number}");
    }
    Ok(())
}

#[test]
fn a_hundred_contests_at_any_number_of_workers(rt: HostRuntime) -> Result<(), Fail> {
    for number in 0..100 {
        assert!(rt; is_one(&rt, number)?, "contest {number}");
    }
    Ok(())
}

#[test]
fn a_second_hundred_at_any_number_of_workers(rt: HostRuntime) -> Result<(), Fail> {
    for number in 100..200 {
        assert!(rt; is_one(&rt, number)?, "contest {number}");
    }
    Ok(())
}

#[test]
fn a_third_hundred_at_any_number_of_workers(rt: HostRuntime) -> Result<(), Fail> {
    for number in 200..300 {
        assert!(rt; is_one(&rt, number)?, "contest {number}");
    }
    Ok(())
}

#[test]
fn a_hundred_contests_with_ties(rt: HostRuntime) -> Result<(), Fail> {
    for number in 0..100 {
        assert!(rt; agree_on_ties(&rt, number)?, "contest {number}");
    }
    Ok(())
}
