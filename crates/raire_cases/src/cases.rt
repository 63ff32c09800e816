// What a call takes, and what it comes to.
use crate::table::{CASES, FAILING, FILES, File};
use crate::{
    audit_table, cards_table, contests_table, plurality_table, poll_table, session_table,
    sets_table, tie_table,
};
use desk::{Gate, MemoryDesk, MemorySink, Named, NoGate};
use irv_base::{MOST_FILE_BYTES, Name};
use raire_cli::run;
use std::alloc::{AllocError, Global};
use std::test::Fail;
use std::thread::Threads;

// The number of bytes that a sink has room for.
const SINK_ROOM: u32 = 200_000;

/// What a call came to.
#[derive(Drop)]
pub(crate) struct Ran {
    pub(crate) status: u8,
    pub(crate) out: Vec<u8>,
    pub(crate) err: Vec<u8>,
}

fn texts_of(alloc: Global, words: &[&str]) -> Result<Vec<String>, AllocError> {
    let mut all = Vec::new(alloc);
    for word in words {
        all.push(String::from_str(alloc, word)?)?;
    }
    Ok(all)
}

/// The words of a line. One blank separates two words.
pub(crate) fn words_of(alloc: Global, line: &str) -> Result<Vec<String>, AllocError> {
    let mut all = Vec::new(alloc);
    for word in line.split(' ') {
        all.push(String::from_str(alloc, word)?)?;
    }
    Ok(all)
}

/// Adds a file with this name and this text.
pub(crate) fn hold(
    alloc: Global,
    files: &mut Vec<Named>,
    name: &str,
    text: &str,
) -> Result<(), AllocError> {
    if let Some(name) = Name::read(name.as_bytes()) {
        let bytes = text.as_bytes().to_vec(alloc)?;
        files.push(Named { name, bytes })?;
    }
    Ok(())
}

fn hold_all(alloc: Global, files: &mut Vec<Named>, more: &[File]) -> Result<(), AllocError> {
    for file in more {
        hold(alloc, files, file.name, file.text)?;
    }
    Ok(())
}

/// The files of all tables.
pub(crate) fn held(alloc: Global) -> Result<Vec<Named>, AllocError> {
    let mut files = Vec::new(alloc);
    hold_all(alloc, &mut files, &FILES)?;
    hold_all(alloc, &mut files, &audit_table::FILES)?;
    hold_all(alloc, &mut files, &cards_table::FILES)?;
    hold_all(alloc, &mut files, &session_table::FILES)?;
    hold_all(alloc, &mut files, &plurality_table::FILES)?;
    hold_all(alloc, &mut files, &contests_table::FILES)?;
    hold_all(alloc, &mut files, &sets_table::FILES)?;
    Ok(files)
}

/// Runs the words over some files, with these calls of the desk and these writes of both sinks failing.
pub(crate) fn ran_over<R: AllocGlobal + Threads + Sync>(
    rt: &R,
    files: Vec<Named>,
    words: &[&str],
    desk_fails: &[u32],
    sink_fails: &[u32],
) -> Result<Ran, AllocError> {
    ran_with(rt, files, words, desk_fails, sink_fails, &NoGate)
}

/// The same, with the workers of a search stopping at this gate.
pub(crate) fn ran_with<R: AllocGlobal + Threads + Sync, G: Gate + Sync>(
    rt: &R,
    files: Vec<Named>,
    words: &[&str],
    desk_fails: &[u32],
    sink_fails: &[u32],
    gate: &G,
) -> Result<Ran, AllocError> {
    let alloc = rt.alloc();
    let words = texts_of(alloc, words)?;
    let mut desk = MemoryDesk::new(files, desk_fails.to_vec(alloc)?);
    let mut out = sink(alloc, sink_fails)?;
    let mut err = sink(alloc, sink_fails)?;
    let status = run(rt, &words, &mut desk, &mut out, &mut err, gate);
    Ok(Ran {
        status,
        out: out.bytes().to_vec(alloc)?,
        err: err.bytes().to_vec(alloc)?,
    })
}

fn sink(alloc: Global, fails: &[u32]) -> Result<MemorySink, AllocError> {
    match MemorySink::new(alloc, SINK_ROOM, fails.to_vec(alloc)?) {
        Ok(sink) => Ok(sink),
        Err(_) => Err(AllocError),
    }
}

// Whether the text of this status goes to `out`.
fn is_answer(status: u8) -> bool {
    matches!(status, 0 | 3..=6 | 10)
}

/// Whether the run has this status, its text went to the sink for that status, and nothing else was written.
pub(crate) fn is_as_wanted(ran: &Ran, status: u8, text: &str) -> bool {
    let (said, silent) = if is_answer(status) {
        (&ran.out, &ran.err)
    } else {
        (&ran.err, &ran.out)
    };
    ran.status == status && said.as_slice() == text.as_bytes() && silent.is_empty()
}

/// Runs the words of a line over the files of all tables.
pub(crate) fn case_ran<R: AllocGlobal + Threads + Sync>(
    rt: &R,
    line: &str,
    desk_fails: &[u32],
    sink_fails: &[u32],
) -> Result<Ran, AllocError> {
    let files = held(rt.alloc())?;
    let mut words = Vec::new(rt.alloc());
    for word in line.split(' ') {
        words.push(word)?;
    }
    ran_over(rt, files, &words, desk_fails, sink_fails)
}

#[test]
fn each_case_comes_to_its_status_and_text(rt: HostRuntime) -> Result<(), Fail> {
    for (line, status, text) in CASES {
        let ran = case_ran(&rt, line, &[], &[])?;
        assert!(rt; is_as_wanted(&ran, status, text), "{line}");
    }
    Ok(())
}

#[test]
fn each_case_of_a_tie_comes_to_its_status_and_text(rt: HostRuntime) -> Result<(), Fail> {
    for (line, status, text) in tie_table::CASES {
        let ran = case_ran(&rt, line, &[], &[])?;
        assert!(rt; is_as_wanted(&ran, status, text), "{line}");
    }
    Ok(())
}

#[test]
fn each_case_of_an_audit_comes_to_its_status_and_text(rt: HostRuntime) -> Result<(), Fail> {
    for (line, status, text) in audit_table::CASES {
        let ran = case_ran(&rt, line, &[], &[])?;
        assert!(rt; is_as_wanted(&ran, status, text), "{line}");
    }
    Ok(())
}

#[test]
fn each_case_of_clean_draws_comes_to_its_status_and_text(rt: HostRuntime) -> Result<(), Fail> {
    for (line, status, text) in cards_table::CASES {
        let ran = case_ran(&rt, line, &[], &[])?;
        assert!(rt; is_as_wanted(&ran, status, text), "{line}");
    }
    Ok(())
}

#[test]
fn each_case_of_a_session_comes_to_its_status_and_text(rt: HostRuntime) -> Result<(), Fail> {
    for (line, status, text) in session_table::CASES {
        let ran = case_ran(&rt, line, &[], &[])?;
        assert!(rt; is_as_wanted(&ran, status, text), "{line}");
    }
    Ok(())
}

#[test]
fn each_case_of_a_poll_comes_to_its_status_and_text(rt: HostRuntime) -> Result<(), Fail> {
    for (line, status, text) in poll_table::CASES {
        let ran = case_ran(&rt, line, &[], &[])?;
        assert!(rt; is_as_wanted(&ran, status, text), "{line}");
    }
    Ok(())
}

#[test]
fn each_case_of_a_plurality_comes_to_its_status_and_text(rt: HostRuntime) -> Result<(), Fail> {
    for (line, status, text) in plurality_table::CASES {
        let ran = case_ran(&rt, line, &[], &[])?;
        assert!(rt; is_as_wanted(&ran, status, text), "{line}");
    }
    Ok(())
}

#[test]
fn each_case_of_all_contests_comes_to_its_status_and_text(rt: HostRuntime) -> Result<(), Fail> {
    for (line, status, text) in contests_table::CASES {
        let ran = case_ran(&rt, line, &[], &[])?;
        assert!(rt; is_as_wanted(&ran, status, text), "{line}");
    }
    Ok(())
}

#[test]
fn each_case_by_sets_comes_to_its_status_and_text(rt: HostRuntime) -> Result<(), Fail> {
    for (line, status, text) in sets_table::CASES {
        let ran = case_ran(&rt, line, &[], &[])?;
        assert!(rt; is_as_wanted(&ran, status, text), "{line}");
    }
    Ok(())
}

#[test]
fn each_failing_call_comes_to_its_status_and_line(rt: HostRuntime) -> Result<(), Fail> {
    for (line, desk_fails, sink_fails, status, text) in FAILING {
        let ran = case_ran(&rt, line, desk_fails, sink_fails)?;
        assert!(rt; is_as_wanted(&ran, status, text), "{line}");
    }
    Ok(())
}

// Runs a search over a file of this many zero bytes, whose first field isn't a number.
fn zeros<R: AllocGlobal + Threads + Sync>(rt: &R, bytes: u64) -> Result<Ran, AllocError> {
    let alloc = rt.alloc();
    let mut files = Vec::new(alloc);
    if let Some(name) = Name::read(b"large.raire") {
        let bytes = vec![in alloc; 0u8; bytes as usize]?;
        files.push(Named { name, bytes })?;
    }
    ran_over(rt, files, &["search", "large.raire"], &[], &[])
}

#[test]
fn the_largest_file_is_read(rt: HostRuntime) -> Result<(), Fail> {
    let ran = zeros(&rt, MOST_FILE_BYTES)?;
    assert_eq!(rt; ran.status, 2);
    assert_eq!(rt;
        ran.err.as_slice(),
        b"raire: large.raire: B1 at 1\n".as_slice()
    );
    Ok(())
}

#[test]
fn one_byte_more_is_too_long(rt: HostRuntime) -> Result<(), Fail> {
    let ran = zeros(&rt, MOST_FILE_BYTES + 1)?;
    assert_eq!(rt; ran.status, 11);
    assert_eq!(rt;
        ran.err.as_slice(),
        b"raire: large.raire: too long\n".as_slice()
    );
    assert_eq!(rt; ran.out.len(), 0);
    Ok(())
}
