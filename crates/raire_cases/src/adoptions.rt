// Adoptions of the claims about one contest. Each row is a call over the ballots and a claims file.
use crate::cases::{hold, ran_over};
use crate::table::{BALLOTS, PRINTED};
use std::test::Fail;

// The file that is printed.
const ADOPTED: &str = "\
{\"assertions\":[{\"kind\":\"NEB\",\"loser\":\"3\",\"margin\":1,\"winner\":\"2\"},{\"kind\":\"NEN\",\"loser\":\"1\",\
\"margin\":2,\"rest\":[\"1\",\"2\"],\"winner\":\"2\"},{\"kind\":\"NEN\",\"loser\":\"1\",\"margin\":2,\"rest\":[\"1\",\"3\"],\
\"winner\":\"3\"}],\"candidates\":[\"1\",\"2\",\"3\"],\"contest\":\"1\",\"margin\":1,\"records\":12,\"version\":3,\
\"winner\":\"2\"}\n";

// Only the assertions.
const CLAIMS: &str = "\
{\"candidates\":[\"1\",\"2\",\"3\"],\"contest\":\"1\",\"winner\":\"2\",\"assertions\":[{\"kind\":\"NEB\",\"winner\":\"2\",\
\"loser\":\"3\"},{\"kind\":\"NEN\",\"winner\":\"2\",\"loser\":\"1\",\"rest\":[\"1\",\"2\"]},{\"kind\":\"NEN\",\
\"winner\":\"3\",\"loser\":\"1\",\"rest\":[\"1\",\"3\"]}]}";

// The assertions in another order, one of them twice, with margins that mean nothing.
const OTHER_MARGINS: &str = "\
{\"candidates\":[\"1\",\"2\",\"3\"],\"contest\":\"1\",\"winner\":\"2\",\"assertions\":[{\"kind\":\"NEN\",\"winner\":\"3\",\
\"loser\":\"1\",\"rest\":[\"1\",\"3\"]},{\"kind\":\"NEB\",\"winner\":\"2\",\"loser\":\"3\",\"margin\":0},{\"kind\":\"NEN\",\
\"winner\":\"2\",\"loser\":\"1\",\"rest\":[\"1\",\"2\"]},{\"kind\":\"NEB\",\"winner\":\"2\",\"loser\":\"3\",\"margin\":7}]}";

// The assertions without one that is needed.
const LESS: &str = "\
{\"candidates\":[\"1\",\"2\",\"3\"],\"contest\":\"1\",\"winner\":\"2\",\"assertions\":[{\"kind\":\"NEB\",\"winner\":\"2\",\
\"loser\":\"3\"},{\"kind\":\"NEN\",\"winner\":\"3\",\"loser\":\"1\",\"rest\":[\"1\",\"3\"]}]}";

// The assertions with one that isn't true.
const UNTRUE: &str = "\
{\"candidates\":[\"1\",\"2\",\"3\"],\"contest\":\"1\",\"winner\":\"2\",\"assertions\":[{\"kind\":\"NEB\",\"winner\":\"2\",\
\"loser\":\"3\"},{\"kind\":\"NEB\",\"winner\":\"1\",\"loser\":\"2\"},{\"kind\":\"NEN\",\"winner\":\"2\",\"loser\":\"1\",\
\"rest\":[\"1\",\"2\"]},{\"kind\":\"NEN\",\"winner\":\"3\",\"loser\":\"1\",\"rest\":[\"1\",\"3\"]}]}";

// Another candidate is said to have won.
const OTHER_WINNER: &str = "\
{\"candidates\":[\"1\",\"2\",\"3\"],\"contest\":\"1\",\"winner\":\"1\",\"assertions\":[]}";

// The assertions are about another contest.
const OTHER_CONTEST: &str = "\
{\"candidates\":[\"1\",\"2\",\"3\"],\"contest\":\"2\",\"winner\":\"2\",\"assertions\":[]}";

// Someone who isn't a candidate is named.
const OTHER_CANDIDATE: &str = "\
{\"candidates\":[\"1\",\"2\",\"3\"],\"contest\":\"1\",\"winner\":\"2\",\"assertions\":[{\"kind\":\"NEB\",\"winner\":\"2\",\
\"loser\":\"3\"},{\"kind\":\"NEB\",\"winner\":\"2\",\"loser\":\"4\"}]}";

struct Row<'a> {
    shows: &'static str,
    file: &'static str,
    words: &'a [&'static str],
    status: u8,
    out: &'static str,
    err: &'static str,
}

const ROWS: [Row<'static>; 10] = [
    Row {
        shows: "claims",
        file: CLAIMS,
        words: &["adopt", "row1.raire", "f.json"],
        status: 0,
        out: ADOPTED,
        err: "",
    },
    Row {
        shows: "an assertion file is a claims file",
        file: PRINTED,
        words: &["adopt", "row1.raire", "f.json"],
        status: 0,
        out: ADOPTED,
        err: "",
    },
    Row {
        shows: "what is adopted is adopted as it is",
        file: ADOPTED,
        words: &["adopt", "row1.raire", "f.json"],
        status: 0,
        out: ADOPTED,
        err: "",
    },
    Row {
        shows: "margins aren't read",
        file: OTHER_MARGINS,
        words: &["adopt", "row1.raire", "f.json"],
        status: 0,
        out: ADOPTED,
        err: "",
    },
    Row {
        shows: "sets that suffice",
        file: CLAIMS,
        words: &["adopt", "row1.raire", "f.json", "--sets=1"],
        status: 0,
        out: ADOPTED,
        err: "",
    },
    Row {
        shows: "an order stands",
        file: LESS,
        words: &["adopt", "row1.raire", "f.json"],
        status: 6,
        out: "no: order 3,2,1 stands\n",
        err: "",
    },
    Row {
        shows: "an assertion isn't true",
        file: UNTRUE,
        words: &["adopt", "row1.raire", "f.json"],
        status: 6,
        out: "no: assertion NEB 1 2 isn't true\n",
        err: "",
    },
    Row {
        shows: "another winner",
        file: OTHER_WINNER,
        words: &["adopt", "row1.raire", "f.json"],
        status: 6,
        out: "no: winner is 2\n",
        err: "",
    },
    Row {
        shows: "another contest",
        file: OTHER_CONTEST,
        words: &["adopt", "row1.raire", "f.json"],
        status: 2,
        out: "",
        err: "raire: f.json: C3 at 0\n",
    },
    Row {
        shows: "no candidate",
        file: OTHER_CANDIDATE,
        words: &["adopt", "row1.raire", "f.json"],
        status: 2,
        out: "",
        err: "raire: f.json: C4 at 2\n",
    },
];

#[test]
fn each_adoption_comes_to_its_status_and_texts(rt: HostRuntime) -> Result<(), Fail> {
    let alloc = rt.alloc();
    for row in &ROWS {
        let shows = row.shows;
        let mut files = Vec::new(alloc);
        hold(alloc, &mut files, "row1.raire", BALLOTS)?;
        hold(alloc, &mut files, "f.json", row.file)?;
        let ran = ran_over(&rt, files, row.words, &[], &[])?;
        assert_eq!(rt; ran.status, row.status, "{shows}");
        assert_eq!(rt; ran.out.as_slice(), row.out.as_bytes(), "{shows}");
        assert_eq!(rt; ran.err.as_slice(), row.err.as_bytes(), "{shows}");
    }
    Ok(())
}
