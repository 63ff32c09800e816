// Trims of what a search of one contest printed. Each row is a call over the ballots and that file, or that file with a change.
use crate::cases::{hold, ran_over};
use crate::table::{BALLOTS, PRINTED};
use std::test::Fail;

// The file without the assertion that can be removed.
const TRIMMED: &str = "\
{\"assertions\":[{\"kind\":\"NEB\",\"loser\":\"3\",\"margin\":1,\"winner\":\"2\"},{\"kind\":\"NEN\",\"loser\":\"1\",\"margin\":2,\"rest\":[\"1\",\"2\"],\
\"winner\":\"2\"}],\"candidates\":[\"1\",\"2\",\"3\"],\"contest\":\"1\",\"margin\":1,\"order\":[\"2\",\"1\",\"3\"],\"records\":12,\"version\":1,\"winner\":\"2\"}\n";

// The file says that another candidate won.
const OTHER_WINNER: &str = "\
{\"assertions\":[{\"kind\":\"NEB\",\"loser\":\"3\",\"margin\":1,\"winner\":\"2\"}],\"candidates\":[\"1\",\"2\",\"3\"],\"contest\":\"1\",\"margin\":1,\
\"order\":[\"2\",\"1\",\"3\"],\"records\":12,\"version\":1,\"winner\":\"1\"}\n";

struct Row<'a> {
    shows: &'static str,
    file: &'static str,
    words: &'a [&'static str],
    status: u8,
    out: &'static str,
    err: &'static str,
}

const ROWS: [Row<'static>; 9] = [
    Row {
        shows: "an assertion that can go",
        file: PRINTED,
        words: &["trim", "row1.raire", "f.json"],
        status: 0,
        out: TRIMMED,
        err: "",
    },
    Row {
        shows: "trimmed again",
        file: TRIMMED,
        words: &["trim", "row1.raire", "f.json"],
        status: 0,
        out: TRIMMED,
        err: "",
    },
    Row {
        shows: "nodes that suffice",
        file: PRINTED,
        words: &["trim", "row1.raire", "f.json", "--nodes", "3"],
        status: 0,
        out: TRIMMED,
        err: "",
    },
    Row {
        shows: "nodes that suffice, trimmed again",
        file: TRIMMED,
        words: &["trim", "row1.raire", "f.json", "--nodes=3"],
        status: 0,
        out: TRIMMED,
        err: "",
    },
    Row {
        shows: "sets that suffice",
        file: PRINTED,
        words: &["trim", "row1.raire", "f.json", "--sets", "2"],
        status: 0,
        out: TRIMMED,
        err: "",
    },
    Row {
        shows: "sets that suffice, trimmed again",
        file: TRIMMED,
        words: &["trim", "row1.raire", "f.json", "--sets=2"],
        status: 0,
        out: TRIMMED,
        err: "",
    },
    Row {
        shows: "a file that doesn't hold",
        file: OTHER_WINNER,
        words: &["trim", "row1.raire", "f.json"],
        status: 6,
        out: "no: winner is 2\n",
        err: "",
    },
    Row {
        shows: "a file that isn't one",
        file: "{}",
        words: &["trim", "row1.raire", "f.json"],
        status: 2,
        out: "",
        err: "raire: f.json: F2 at 0\n",
    },
    Row {
        shows: "an option of another command",
        file: PRINTED,
        words: &["trim", "row1.raire", "f.json", "--workers", "1"],
        status: 1,
        out: "",
        err: "raire: bad words\n",
    },
];

#[test]
fn each_trim_comes_to_its_status_and_texts(rt: HostRuntime) -> Result<(), Fail> {
    let alloc = rt.alloc();
    for row in &ROWS {
        let shows = row.shows;
        let mut files = Vec::new(alloc);
        hold(alloc, &mut files, "row1.raire", BALLOTS)?;
        hold(alloc, &mut files, "f.json", row.file)?;
        let ran = ran_over(&rt, files, row.words, &[], &[])?;
        assert_eq!(rt; ran.status, row.status, "{shows}");
        assert_eq!(rt; ran.out.as_slice(), row.out.as_bytes(), "{shows}");
        assert_eq!(rt; ran.err.as_slice(), row.err.as_bytes(), "{shows}");
    }
    Ok(())
}
