// Assertion files of one contest: what a search of it prints, with one text replaced, and what a check of that comes to.
use crate::cases::{hold, ran_over};
use crate::table::{BALLOTS, PRINTED};
use std::alloc::{AllocError, Global};
use std::test::Fail;

// What is replaced, and what the check then comes to.
struct Change {
    shows: &'static str,
    old: &'static str,
    new: &'static str,
    status: u8,
    out: &'static str,
    err: &'static str,
}

const CHANGES: [Change; 27] = [
    Change {
        shows: "a record twice: the last stands",
        old: "\"records\":12",
        new: "\"records\":\"x\",\"records\":12",
        status: 0,
        out: "yes\nassertions 3\nmargin 1\n",
        err: "",
    },
    Change {
        shows: "a rest in another order",
        old: "\"rest\":[\"1\",\"2\"]",
        new: "\"rest\":[\"2\",\"1\"]",
        status: 0,
        out: "yes\nassertions 3\nmargin 1\n",
        err: "",
    },
    Change {
        shows: "an assertion that isn't needed left out",
        old: ",{\"kind\":\"NEN\",\"loser\":\"1\",\"margin\":2,\"rest\":[\"1\",\"3\"],\"winner\":\"3\"}",
        new: "",
        status: 0,
        out: "yes\nassertions 2\nmargin 1\n",
        err: "",
    },
    Change {
        shows: "further members and blanks",
        old: "\"version\":1",
        new: "\"note\":[1.5,{}] , \"version\" : 1",
        status: 0,
        out: "yes\nassertions 3\nmargin 1\n",
        err: "",
    },
    Change {
        shows: "no NEB",
        old: "{\"kind\":\"NEB\",\"loser\":\"3\",\"margin\":1,\"winner\":\"2\"},",
        new: "",
        status: 6,
        out: "no: order 2,1,3 stands\n",
        err: "",
    },
    Change {
        shows: "another margin for the NEB",
        old: "\"margin\":1,\"winner\":\"2\"}",
        new: "\"margin\":2,\"winner\":\"2\"}",
        status: 6,
        out: "no: assertion 1 has margin 1\n",
        err: "",
    },
    Change {
        shows: "an assertion that isn't true",
        old: "{\"kind\":\"NEN\",\"loser\":\"1\",\"margin\":2,\"rest\":[\"1\",\"2\"],\"winner\":\"2\"}",
        new: "{\"kind\":\"NEN\",\"loser\":\"1\",\"margin\":2,\"rest\":[\"1\",\"2\"],\"winner\":\"2\"},{\"kind\":\"NEB\",\"loser\":\"3\",\"margin\":2,\"winner\":\"1\"}",
        status: 6,
        out: "no: assertion 3 has margin -2\n",
        err: "",
    },
    Change {
        shows: "a harder order",
        old: "[\"2\",\"1\",\"3\"]",
        new: "[\"3\",\"2\",\"1\"]",
        status: 6,
        out: "no: order is refuted by NEN 2 1 {1,2} margin 2\n",
        err: "",
    },
    Change {
        shows: "an order for the winner",
        old: "[\"2\",\"1\",\"3\"]",
        new: "[\"3\",\"1\",\"2\"]",
        status: 6,
        out: "no: order elects the winner\n",
        err: "",
    },
    Change {
        shows: "no assertions",
        old: "\
        {\"kind\":\"NEB\",\"loser\":\"3\",\"margin\":1,\"winner\":\"2\"},{\"kind\":\"NEN\",\"loser\":\"1\",\"margin\":2,\"rest\":[\"1\",\
        \"2\"],\"winner\":\"2\"},{\"kind\":\"NEN\",\"loser\":\"1\",\"margin\":2,\"rest\":[\"1\",\"3\"],\"winner\":\"3\"}",
        new: "",
        status: 6,
        out: "no: order 3,2,1 stands\n",
        err: "",
    },
    Change {
        shows: "another winner",
        old: "\"winner\":\"2\"}\n",
        new: "\"winner\":\"1\"}\n",
        status: 6,
        out: "no: winner is 2\n",
        err: "",
    },
    Change {
        shows: "a larger margin",
        old: "\"margin\":1,\"order\"",
        new: "\"margin\":2,\"order\"",
        status: 6,
        out: "no: smallest margin is 1\n",
        err: "",
    },
    Change {
        shows: "a record more",
        old: "\"records\":12",
        new: "\"records\":13",
        status: 6,
        out: "no: contest differs\n",
        err: "",
    },
    Change {
        shows: "another version",
        old: "\"version\":1",
        new: "\"version\":4",
        status: 2,
        out: "",
        err: "raire: f.json: F3 at 0\n",
    },
    Change {
        shows: "version 3 with an order",
        old: "\"version\":1",
        new: "\"version\":3",
        status: 2,
        out: "",
        err: "raire: f.json: F2 at 0\n",
    },
    Change {
        shows: "another kind",
        old: "{\"kind\":\"NEN\",\"loser\":\"1\",\"margin\":2,\"rest\":[\"1\",\"2\"],\"winner\":\"2\"}",
        new: "{\"kind\":\"NEC\",\"loser\":\"1\",\"margin\":2,\"rest\":[\"1\",\"2\"],\"winner\":\"2\"}",
        status: 2,
        out: "",
        err: "raire: f.json: F2 at 2\n",
    },
    Change {
        shows: "an unknown loser",
        old: "\"loser\":\"3\"",
        new: "\"loser\":\"4\"",
        status: 2,
        out: "",
        err: "raire: f.json: F4 at 1\n",
    },
    Change {
        shows: "a rest of one",
        old: "\"rest\":[\"1\",\"2\"]",
        new: "\"rest\":[\"1\"]",
        status: 2,
        out: "",
        err: "raire: f.json: F5 at 2\n",
    },
    Change {
        shows: "a margin above the records",
        old: "{\"kind\":\"NEN\",\"loser\":\"1\",\"margin\":2,\"rest\":[\"1\",\"3\"],\"winner\":\"3\"}",
        new: "{\"kind\":\"NEN\",\"loser\":\"1\",\"margin\":13,\"rest\":[\"1\",\"3\"],\"winner\":\"3\"}",
        status: 2,
        out: "",
        err: "raire: f.json: F6 at 3\n",
    },
    Change {
        shows: "no last brace",
        old: "\"}\n",
        new: "\"\n",
        status: 2,
        out: "",
        err: "raire: f.json: F1 at 0\n",
    },
    Change {
        shows: "records with a point",
        old: "\"records\":12",
        new: "\"records\":12.0",
        status: 2,
        out: "",
        err: "raire: f.json: F2 at 0\n",
    },
    Change {
        shows: "records of 2 to the 32",
        old: "\"records\":12",
        new: "\"records\":4294967296",
        status: 2,
        out: "",
        err: "raire: f.json: F2 at 0\n",
    },
    Change {
        shows: "no records",
        old: "\"records\":12",
        new: "\"records\":0",
        status: 2,
        out: "",
        err: "raire: f.json: F6 at 0\n",
    },
    Change {
        shows: "a candidate twice in the order",
        old: "[\"2\",\"1\",\"3\"]",
        new: "[\"2\",\"1\",\"1\"]",
        status: 2,
        out: "",
        err: "raire: f.json: F5 at 0\n",
    },
    Change {
        shows: "200 opening brackets",
        old: PRINTED,
        new: "\
        [[[[[[[[[[[[[[[[[[[[[[[[[[[[[[[[[[[[[[[[[[[[[[[[[[[[[[[[[[[[[[[[[[[[[[[[[[[[[[[[[[[[[[[[[[[[[[[[[[[[\
        [[[[[[[[[[[[[[[[[[[[[[[[[[[[[[[[[[[[[[[[[[[[[[[[[[[[[[[[[[[[[[[[[[[[[[[[[[[[[[[[[[[[[[[[[[[[[[[[[[[[",
        status: 2,
        out: "",
        err: "raire: f.json: F1 at 0\n",
    },
    Change {
        shows: "a number out of range",
        old: "\"version\":1",
        new: "\"note\":1e999,\"version\":1",
        status: 2,
        out: "",
        err: "raire: f.json: F1 at 0\n",
    },
    Change {
        shows: "half of a pair of surrogates",
        old: "\"version\":1",
        new: "\"note\":\"\\ud800\",\"version\":1",
        status: 2,
        out: "",
        err: "raire: f.json: F1 at 0\n",
    },
];

// The printed text with the change, if it has the text to be replaced.
fn changed(alloc: Global, change: &Change) -> Result<Option<String>, AllocError> {
    let Some((before, after)) = PRINTED.split_once(change.old) else {
        return Ok(None);
    };
    let mut text = String::from_str(alloc, before)?;
    text.push_str(change.new)?;
    text.push_str(after)?;
    Ok(Some(text))
}

#[test]
fn each_change_comes_to_its_status_and_texts(rt: HostRuntime) -> Result<(), Fail> {
    let alloc = rt.alloc();
    for change in &CHANGES {
        let shows = change.shows;
        let text = changed(alloc, change)?.expect(&rt, "the text that is replaced");
        let mut files = Vec::new(alloc);
        hold(alloc, &mut files, "row1.raire", BALLOTS)?;
        hold(alloc, &mut files, "f.json", text.as_str())?;
        let ran = ran_over(&rt, files, &["check", "row1.raire", "f.json"], &[], &[])?;
        assert_eq!(rt; ran.status, change.status, "{shows}");
        assert_eq!(rt; ran.out.as_slice(), change.out.as_bytes(), "{shows}");
        assert_eq!(rt; ran.err.as_slice(), change.err.as_bytes(), "{shows}");
    }
    Ok(())
}
