// Tests of `audit_report`: the texts of small audits, byte for byte. The expected texts are those of `acceptance/plain_audit.py`.
use crate::one_card::{MANIFEST, some_digests};
use assertion_file::read_file;
use audit_report::{plan_table, sample_table, session_table};
use irv_base::{Memory, Name};
use km_risk::Counts;
use manifest::read_manifest;
use sampler::Seed;
use session_state::{DoneRound, Session};
use std::alloc::Global;
use std::test::Fail;

const TWELVE_CARDS: &str = "batch,cards\nA,4\nB_1,1\nC,7\n";

const NO_CLAIM: &str =
    "{\"assertions\":[],\"candidates\":[\"A\",\"B\"],\"contest\":\"c\",\"margin\":100,\"order\":[\"A\",\"B\"],\"records\":1000,\"version\":1,\"winner\":\"A\"}\n";

const THREE_CLAIMS: &str =
    "{\"assertions\":[{\"kind\":\"NEB\",\"loser\":\"B\",\"margin\":100,\"winner\":\"A\"},{\"kind\":\"NEN\",\"loser\":\"C\",\"margin\":40,\"rest\":[\"A\",\"C\"],\"winner\":\"A\"},{\"kind\":\"NEB\",\"loser\":\"C\",\"margin\":1000,\"winner\":\"A\"}],\"candidates\":[\"A\",\"B\",\"C\"],\"contest\":\"c\",\"margin\":40,\"order\":[\"C\",\"B\",\"A\"],\"records\":1000,\"version\":1,\"winner\":\"A\"}\n";

const CLOSE_CLAIM: &str =
    "{\"assertions\":[{\"kind\":\"NEB\",\"loser\":\"B\",\"margin\":1,\"winner\":\"A\"},{\"kind\":\"NEB\",\"loser\":\"A\",\"margin\":100,\"winner\":\"B\"}],\"candidates\":[\"A\",\"B\"],\"contest\":\"c\",\"margin\":1,\"order\":[\"A\",\"B\"],\"records\":1000,\"version\":1,\"winner\":\"A\"}\n";

fn sample(rt: &HostRuntime, manifest: &str, draws: u32) -> Option<Vec<u8>> {
    let Ok(manifest) = read_manifest(rt.alloc(), manifest.as_bytes()) else {
        return None;
    };
    let Ok(seed) = Seed::read("2024") else {
        return None;
    };
    sample_table(rt.alloc(), &manifest, &seed, draws).ok()
}

#[test]
fn draws_name_cards(rt: HostRuntime) {
    for (manifest, draws, table) in [
        (MANIFEST, 3, "1,1,b_1\n2,1,b_1\n3,1,b_1\n"),
        (
            TWELVE_CARDS,
            12,
            "1,1,A_1\n2,2,A_2\n3,11,C_6\n4,4,A_4\n5,1,A_1\n6,6,C_1\n7,11,C_6\n8,2,A_2\n9,10,C_5\n10,4,A_4\n11,9,C_4\n12,4,A_4\n",
        ),
        (MANIFEST, 0, ""),
    ] {
        let found = sample(&rt, manifest, draws).expect(&rt, "a sample");
        assert!(rt; found.as_slice() == table.as_bytes());
    }
}

// Over 1,000 cards, at a limit of 5 percent.
fn plan(rt: &HostRuntime, file: &str) -> Option<Vec<u8>> {
    let Ok(file) = read_file(rt.alloc(), file.as_bytes()) else {
        return None;
    };
    if file.records() > 1_000 {
        return None;
    }
    plan_table(rt.alloc(), &file, 1_000, 100, 50_000).ok()
}

#[test]
fn plans_count_draws(rt: HostRuntime) {
    for (file, table) in [
        (NO_CLAIM, "all: 0 draws\n"),
        (
            THREE_CLAIMS,
            "NEB A B margin 100: 70 draws\nNEN A C {A,C} margin 40: 178 draws\nNEB A C margin 1000: 5 draws\nall: 178 draws\n",
        ),
        (
            CLOSE_CLAIM,
            "NEB A B margin 1: full count\nNEB B A margin 100: 70 draws\nall: full count\n",
        ),
    ] {
        let found = plan(&rt, file).expect(&rt, "a plan");
        assert!(rt; found.as_slice() == table.as_bytes());
    }
}

// One card that was drawn four times.
fn one_card(alloc: Global, contest: Name, seed: Seed) -> Result<Session, Memory> {
    let clean = Counts {
        n0: 0,
        n1: 0,
        n2: 4,
        n3: 0,
        n4: 0,
    };
    let margins = vec![in alloc; 1]?;
    let counts = vec![in alloc; clean]?;
    let risks = vec![in alloc; 88_518_543_815_313_162]?;
    let rounds = vec![in alloc; DoneRound::new(4, counts, risks)]?;
    let digests = some_digests();
    Ok(Session::new(contest, 1, margins, seed, 50_000, 100, digests, rounds))
}

#[test]
fn session_of_one_card(rt: HostRuntime) -> Result<(), Fail> {
    let contest = Name::read(b"7".as_slice()).expect(&rt, "an id");
    let seed = Seed::read("2024")?;
    let session = one_card(rt.alloc(), contest, seed)?;
    let found = session_table(rt.alloc(), &session)?;
    assert!(rt;
        found.as_slice()
            == b"contest 7\ncards 1\nlimit 50000\ngamma 100\nseed 2024\nround 1 draws 4\nassertion 1 margin 1 counts 0 0 4 0 0 risk 0.088518543815313162 unconfirmed\nsigned off no\n".as_slice()
    );
    Ok(())
}
