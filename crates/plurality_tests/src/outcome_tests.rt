// Tests of `plurality`: contests of a few ballots, counted by hand.
ghost use Rattle.std.specs.Prelude.{◌≤◌};

use audit_session::Claims;
use ballot_reader::read_ballots;
use ballots::Ballots;
use irv_base::{CandSet, Candidate, Rankings};
use plurality::{Plural, PluralFault, plurality};
use std::alloc::{AllocError, Global};

// The ballots of three candidates, each of whom is first on as many ballots as the lines say.
fn ballots(alloc: Global, lines: &str) -> Option<Ballots> {
    let text = format!(in alloc; "1\nContest,7,3,1,2,3\n{lines}").ok()?;
    read_ballots(alloc, text.as_bytes(), None).ok()
}

// What each claim counts the rankings for, claim by claim.
fn values_of<T: Claims>(
    alloc: Global,
    claims: &T,
    rankings: &Rankings,
) -> Result<Vec<u8>, AllocError> {
    let mut values = Vec::new(alloc);
    for j in 0..claims.count() {
        for i in 0..rankings.len() {
            values.push(claims.value(j, &rankings.ranking(i)))?;
        }
    }
    Ok(values)
}

fn is(plural: &Plural, winner: Candidate, losers: &[Candidate], margins: &[u32]) -> bool {
    plural.winner() == winner && plural.losers() == losers && plural.margins() == margins
}

#[test]
fn most_first_preferences_win(rt: HostRuntime) -> Result<(), AllocError> {
    let lines = "7,b_1,2,1\n7,b_2,3,1\n7,b_3,2\n7,b_4,1,3\n7,b_5\n7,b_6,2,3,1\n";
    let Some(ballots) = ballots(rt.alloc(), lines) else {
        panic!(rt; "no ballots");
    };
    let Ok(plural) = plurality(rt.alloc(), &ballots) else {
        panic!(rt; "no winner");
    };
    assert!(rt;
        is(
            &plural,
            Candidate(1),
            &[Candidate(0), Candidate(2)],
            &[2, 2]
        )
    );
    let values = values_of(rt.alloc(), &plural, ballots.rankings())?;
    assert!(rt; values.as_slice() == [2, 1, 2, 0, 1, 2, 2, 0, 2, 1, 1, 2].as_slice());
    Ok(())
}

#[test]
fn as_many_are_tied(rt: HostRuntime) -> Result<(), AllocError> {
    for (lines, members, tally) in [
        ("7,b_1,1\n7,b_2,3\n", 0b101, 1),
        ("7,b_1\n", 0b111, 0),
        ("7,b_1,2\n7,b_2,3\n7,b_3,3,2\n7,b_4,2,1\n", 0b110, 2),
    ] {
        let Some(ballots) = ballots(rt.alloc(), lines) else {
            panic!(rt; "no ballots");
        };
        let Err(fault) = plurality(rt.alloc(), &ballots) else {
            panic!(rt; "a winner");
        };
        let PluralFault::Tie { tied, tally: found } = fault else {
            panic!(rt; "no memory");
        };
        assert!(rt; tied.number() == members && found == tally);
    }
    let fault = PluralFault::Tie {
        tied: CandSet::empty().with(Candidate(0)).with(Candidate(2)),
        tally: 4,
    };
    assert!(rt;
        format!(in rt.alloc(); "{fault}")?.as_str() == "2 candidates have 4 first preferences each"
    );
    Ok(())
}
