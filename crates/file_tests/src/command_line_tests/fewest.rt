// Tests of lines of `search --fewest`, and of words that aren't a line like this.
use super::{is_taken, words};
use command_line::{Command, read};
use std::test::Fail;

#[test]
fn takes_searches_for_the_fewest(rt: HostRuntime) -> Result<(), Fail> {
    let lines = [
        "search a --fewest",
        "search --fewest a --sets 1048576 --floor=1000000",
        "search --cards 9 --workers=8 --fewest --contest 7 --limit=1 --gamma=500 -- -a",
        "search --fewest -- --fewest",
    ];
    for line in lines {
        assert!(rt; is_taken(rt.alloc(), line)?);
    }
    let others = [
        "search --fewest",
        "search a --fewest --nodes 1",
        "search a --fewest --sets 0",
        "search a --fewest --sets 1048577",
        "search a --fewest --limit 9",
        "search a --fewest --fewest",
        "search a --fewest=",
        "search a --fewest 9",
        "check a f.json --fewest",
        "trial --number 0 --fewest",
    ];
    for line in others {
        assert!(rt; !is_taken(rt.alloc(), line)?);
    }
    Ok(())
}

#[test]
fn reads_a_search_for_the_fewest(rt: HostRuntime) -> Result<(), Fail> {
    for (given, sets) in [("", 1_048_576), (" --sets=8", 8)] {
        let line = format!(in rt.alloc(); "search --fewest row1.raire --workers 2{given}")?;
        let words = words(rt.alloc(), line.as_str())?;
        let command = read(rt.alloc(), words.as_slice()).expect(&rt, "memory");
        let Some(Command::SearchFewest(task)) = command else {
            panic!(rt; "no search for the fewest");
        };
        assert!(rt; task.ballots.as_str() == "row1.raire");
        assert!(rt; task.contest.is_none());
        assert!(rt; task.workers == 2);
        assert!(rt; task.sets == sets, "{given}");
        assert!(rt; task.floor == 1);
        assert!(rt; task.plan.is_none());
    }
    Ok(())
}
