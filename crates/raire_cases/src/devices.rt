// Each call of the desk and each write of a sink fails in turn.
ghost use Rattle.std.specs.Prelude.{None};

use crate::cases::{Ran, case_ran, held, is_as_wanted, words_of};
use desk::{Failed, MemoryDesk, NoGate, Sink};
use raire_cli::run;
use std::alloc::{AllocError, Global};
use std::test::Fail;
use std::thread::Threads;

// The number of desk calls for a file: it is begun, its bytes come, and its end comes.
const CALLS: u32 = 3;

// The maximum number of bytes that a narrow sink takes of a write.
const NARROW: usize = 7;

// Calls that have an answer: their words, status, and the files that they read, in that order. These calls are about a contest.
const OF_CONTESTS: [(&str, u8, &[&str]); 11] = [
    ("search row1.raire", 0, &["row1.raire"]),
    ("search tie.raire", 3, &["tie.raire"]),
    ("search row1.raire --nodes 1", 4, &["row1.raire"]),
    ("search row1.raire --floor 2", 5, &["row1.raire"]),
    ("search five_ones.raire --cards 5", 0, &["five_ones.raire"]),
    ("trial --number 7 --candidates 4 --ballots 30", 0, &[]),
    ("tabulate row1.raire", 0, &["row1.raire"]),
    (
        "check row1.raire row1.json",
        0,
        &["row1.raire", "row1.json"],
    ),
    (
        "check row1.raire no_neb.json",
        6,
        &["row1.raire", "no_neb.json"],
    ),
    ("trim row1.raire row1.json", 0, &["row1.raire", "row1.json"]),
    (
        "adopt row1.raire row1.json",
        0,
        &["row1.raire", "row1.json"],
    ),
];

// These calls are about an audit.
const OF_AUDITS: [(&str, u8, &[&str]); 11] = [
    ("sample three.csv --seed 2024! --draws 6", 0, &["three.csv"]),
    ("plan twelve.csv row1.json", 0, &["twelve.csv", "row1.json"]),
    (
        "open one_card.raire m.csv one_card.json --seed 2024",
        0,
        &["one_card.raire", "m.csv", "one_card.json"],
    ),
    (
        "audit opened.json one_card.raire m.csv one_card.json seen.csv --draws 4",
        10,
        &[
            "opened.json",
            "one_card.raire",
            "m.csv",
            "one_card.json",
            "seen.csv",
        ],
    ),
    (
        "audit unconfirmed.json one_card.raire m.csv one_card.json seen.csv --draws 5",
        0,
        &[
            "unconfirmed.json",
            "one_card.raire",
            "m.csv",
            "one_card.json",
            "seen.csv",
        ],
    ),
    ("report signed_off.json", 0, &["signed_off.json"]),
    (
        "poll m.csv one_card.json seen.csv --seed 2024 --draws 5",
        0,
        &["m.csv", "one_card.json", "seen.csv"],
    ),
    (
        "poll m.csv nothing.json seen.csv --seed 1 --draws 1",
        6,
        &["m.csv", "nothing.json"],
    ),
    (
        "plurality one_card.raire m.csv --seed 2024",
        0,
        &["one_card.raire", "m.csv"],
    ),
    (
        "plurality plural.json one_card.raire m.csv seen.csv --draws 4",
        10,
        &["plural.json", "one_card.raire", "m.csv", "seen.csv"],
    ),
    (
        "contests two_contests.raire m.csv seen_of_two.csv --seed 2024 --draws 5",
        10,
        &["two_contests.raire", "m.csv", "seen_of_two.csv"],
    ),
];

// Calls that are refused: their words, the desk call that fails, or 0, and their status.
const REFUSED: [(&str, u32, u8); 12] = [
    ("", 0, 1),
    ("search", 0, 1),
    ("search cut.raire", 0, 2),
    ("check row1.raire rest_of_one.json", 0, 2),
    ("sample twice.csv --seed 1 --draws 1", 0, 2),
    ("plan thousand.csv more.json", 0, 2),
    (
        "open other_card.raire m.csv one_card.json --seed 2024",
        0,
        2,
    ),
    (
        "audit opened.json other_byte.raire m.csv one_card.json seen.csv --draws 4",
        0,
        2,
    ),
    ("report other_risk.json", 0, 2),
    ("tabulate none.raire", 0, 12),
    ("search row1.raire", 2, 7),
    ("check row1.raire row1.json", 4, 7),
];

// ---- the desk

// The first failing call after which something is wrong: each call of the desk for a file fails in turn, and then one that isn't made.
fn wrong_call<R: AllocGlobal + Threads + Sync>(
    rt: &R,
    line: &str,
    files: &[&str],
    own: &Ran,
) -> Result<Option<u32>, AllocError> {
    let alloc = rt.alloc();
    let mut call = 0u32;
    for file in files {
        let said = format!(in alloc; "raire: {file}: read fault\n")?;
        for _ in 0..CALLS {
            call = call.saturating_add(1);
            let ran = case_ran(rt, line, &[call], &[])?;
            if !is_as_wanted(&ran, 7, said.as_str()) {
                return Ok(Some(call));
            }
        }
    }
    call = call.saturating_add(1);
    let ran = case_ran(rt, line, &[call], &[])?;
    Ok(if is_same(&ran, own) { None } else { Some(call) })
}

#[test]
fn each_call_of_the_desk_fails(rt: HostRuntime) -> Result<(), Fail> {
    for (line, status, files) in OF_CONTESTS {
        let own = case_ran(&rt, line, &[], &[])?;
        assert!(rt; own.status == status, "{line}");
        assert!(rt; wrong_call(&rt, line, files, &own)?.is_none(), "{line}");
    }
    Ok(())
}

#[test]
fn each_call_of_the_desk_fails_in_an_audit(rt: HostRuntime) -> Result<(), Fail> {
    for (line, status, files) in OF_AUDITS {
        let own = case_ran(&rt, line, &[], &[])?;
        assert!(rt; own.status == status, "{line}");
        assert!(rt; wrong_call(&rt, line, files, &own)?.is_none(), "{line}");
    }
    Ok(())
}

fn is_same(ran: &Ran, own: &Ran) -> bool {
    ran.status == own.status
        && ran.out.as_slice() == own.out.as_slice()
        && ran.err.as_slice() == own.err.as_slice()
}

// ---- the sinks

// A sink that takes a few bytes of each write. One of its writes may be set to fail. Writes are counted from 1.
#[derive(Drop)]
struct NarrowSink {
    taken: Vec<u8>,
    writes: u32,
    fails: u32,
    faults: u64,
}

impl NarrowSink {
    fn new(alloc: Global, fails: u32) -> NarrowSink {
        NarrowSink {
            taken: Vec::new(alloc),
            writes: 0,
            fails,
            faults: 0,
        }
    }
}

impl Sink for NarrowSink {
    ghost taken = { λ _. None };

    ghost faults = { λ s. s.faults };

    fn write(&mut self, bytes: &[u8]) -> Result<usize, Failed> {
        self.writes = self.writes.saturating_add(1);
        let count = bytes.len().min(NARROW);
        if self.writes == self.fails || self.taken.extend_from_slice(&bytes[..count]).is_err() {
            self.faults = self.faults.saturating_add(1);
            return Err(Failed);
        }
        Ok(count)
    }
}

// Runs the words into narrow sinks, with a failing call of the desk and a failing write of both sinks.
fn ran_narrowly<R: AllocGlobal + Threads + Sync>(
    rt: &R,
    line: &str,
    call: u32,
    write: u32,
) -> Result<Ran, AllocError> {
    let alloc = rt.alloc();
    let words = words_of(alloc, line)?;
    let mut desk = MemoryDesk::new(held(alloc)?, [call].to_vec(alloc)?);
    let mut out = NarrowSink::new(alloc, write);
    let mut err = NarrowSink::new(alloc, write);
    let status = run(rt, &words, &mut desk, &mut out, &mut err, &NoGate);
    Ok(Ran {
        status,
        out: out.taken,
        err: err.taken,
    })
}

// The first failing write after which something is wrong: each write of the text of a run fails in turn.
fn wrong_write<R: AllocGlobal + Threads + Sync>(
    rt: &R,
    line: &str,
    call: u32,
    own: &Ran,
) -> Result<Option<u32>, AllocError> {
    let mut write = 0u32;
    for taken in (0..own.out.len().max(own.err.len())).step_by(NARROW) {
        write = write.saturating_add(1);
        let ran = ran_narrowly(rt, line, call, write)?;
        if ran.status != 8 || !has_prefixes(&ran, own, taken) {
            return Ok(Some(write));
        }
    }
    write = write.saturating_add(1);
    let ran = ran_narrowly(rt, line, call, write)?;
    Ok(if is_same(&ran, own) {
        None
    } else {
        Some(write)
    })
}

// Whether the first `taken` bytes of each text of a run came, or the whole text if it is shorter.
fn has_prefixes(ran: &Ran, own: &Ran, taken: usize) -> bool {
    is_prefix(&ran.out, &own.out, taken) && is_prefix(&ran.err, &own.err, taken)
}

fn is_prefix(part: &[u8], text: &[u8], taken: usize) -> bool {
    part.len() == text.len().min(taken) && text.starts_with(part)
}

#[test]
fn each_write_of_an_answer_fails(rt: HostRuntime) -> Result<(), Fail> {
    for (line, status, _) in OF_CONTESTS {
        let own = case_ran(&rt, line, &[], &[])?;
        assert!(rt; own.status == status, "{line}");
        assert!(rt; own.err.is_empty() && !own.out.is_empty(), "{line}");
        assert!(rt; wrong_write(&rt, line, 0, &own)?.is_none(), "{line}");
    }
    Ok(())
}

#[test]
fn each_write_of_an_answer_fails_in_an_audit(rt: HostRuntime) -> Result<(), Fail> {
    for (line, status, _) in OF_AUDITS {
        let own = case_ran(&rt, line, &[], &[])?;
        assert!(rt; own.status == status, "{line}");
        assert!(rt; own.err.is_empty() && !own.out.is_empty(), "{line}");
        assert!(rt; wrong_write(&rt, line, 0, &own)?.is_none(), "{line}");
    }
    Ok(())
}

#[test]
fn each_write_of_a_refusal_fails(rt: HostRuntime) -> Result<(), Fail> {
    for (line, call, status) in REFUSED {
        let own = case_ran(&rt, line, &[call], &[])?;
        assert!(rt; own.status == status && own.out.is_empty(), "{line}");
        assert!(rt; wrong_write(&rt, line, call, &own)?.is_none(), "{line}");
    }
    Ok(())
}
