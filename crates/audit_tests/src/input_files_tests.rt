// Tests of `input_files`: what files in memory say, and how they are refused.
use crate::one_card::{ASSERTIONS, BALLOTS, MANIFEST};
use crate::reading::{desk_of, named};
use ballots::Ballots;
use cli_base::{Refusal, RefusalKind};
use input_files::{
    assertions_in, ballots_in, bytes_of, cards_for, manifest_in, no_record_text, refuse_for,
    seen_in,
};
use manifest::Manifest;
use std::alloc::{AllocError, Global};

const SEEN: &str = "b_1,ballot,1\n";

// Whether the desk gives the bytes of a file.
fn is_held(alloc: Global) -> Result<bool, Refusal> {
    let mut desk = desk_of(alloc, &[("seen", SEEN)])?;
    let bytes = bytes_of(alloc, &mut desk, &named(alloc, "seen")?)?;
    Ok(bytes.as_slice() == SEEN.as_bytes())
}

fn ballots(alloc: Global) -> Result<Ballots, Refusal> {
    ballots_in(alloc, &named(alloc, "ballots")?, BALLOTS.as_bytes(), None)
}

fn manifest(alloc: Global) -> Result<Manifest, Refusal> {
    manifest_in(alloc, &named(alloc, "manifest")?, MANIFEST.as_bytes())
}

// The number of candidates.
fn candidates(alloc: Global) -> Result<usize, Refusal> {
    Ok(ballots(alloc)?.candidates().len())
}

// The number of cards to which the ballots are linked.
fn cards(alloc: Global) -> Result<u32, Refusal> {
    let ballots = ballots(alloc)?;
    let file = named(alloc, "ballots")?;
    let name = named(alloc, "manifest")?;
    let cards = cards_for(alloc, &file, &ballots, &name, MANIFEST.as_bytes())?;
    Ok(cards.manifest.cards())
}

// The number of claims.
fn claims(alloc: Global) -> Result<usize, Refusal> {
    let name = named(alloc, "assertions")?;
    Ok(
        assertions_in(alloc, &name, ASSERTIONS.as_bytes())?
            .claims()
            .len(),
    )
}

// Whether the card is seen.
fn is_seen(alloc: Global) -> Result<bool, Refusal> {
    let ballots = ballots(alloc)?;
    let manifest = manifest(alloc)?;
    let name = named(alloc, "seen")?;
    let seen = seen_in(
        alloc,
        &name,
        &manifest,
        ballots.candidates(),
        SEEN.as_bytes(),
    )?;
    Ok(seen.get(1).is_some())
}

#[test]
fn files_are_read(rt: HostRuntime) {
    let alloc = rt.alloc();
    assert!(rt; matches!(is_held(alloc), Ok(true)));
    assert!(rt; matches!(candidates(alloc), Ok(2)));
    assert!(rt; matches!(cards(alloc), Ok(1)));
    assert!(rt; matches!(claims(alloc), Ok(1)));
    assert!(rt; matches!(is_seen(alloc), Ok(true)));
}

// The line of a refusal by the rules of a file.
fn line_of(refusal: &Refusal) -> &str {
    match refusal {
        Refusal::Line(RefusalKind::Input, line) => line.as_str(),
        _ => "",
    }
}

#[test]
fn files_are_refused(rt: HostRuntime) -> Result<(), AllocError> {
    let alloc = rt.alloc();
    let name = named(alloc, "a.csv")?;
    let bytes = b"{}".as_slice();
    let Err(refusal) = ballots_in(alloc, &name, bytes, None) else {
        return Ok(());
    };
    assert!(rt; line_of(&refusal) == "raire: a.csv: B1 at 1\n");
    let Err(refusal) = manifest_in(alloc, &name, bytes) else {
        return Ok(());
    };
    assert!(rt; line_of(&refusal) == "raire: a.csv: M1 at 1\n");
    let Err(refusal) = assertions_in(alloc, &name, bytes) else {
        return Ok(());
    };
    assert!(rt; line_of(&refusal) == "raire: a.csv: F2 at 0\n");
    let refusal = refuse_for(alloc, &name, String::from_str(alloc, "why"));
    assert!(rt; line_of(&refusal) == "raire: a.csv: why\n");
    let refusal = refuse_for(alloc, &name, no_record_text(alloc, 4, 20));
    assert!(rt; line_of(&refusal) == "raire: a.csv: V4 card 4 draw 20\n");
    Ok(())
}
