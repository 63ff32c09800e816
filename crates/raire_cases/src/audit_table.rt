// Worked cases of the audit commands that need no ballots: the files, and what a call over them comes to. The cards and the numbers of draws
// were worked out by a plain program (acceptance/plain_audit.py), which shares no code with the suite.
use crate::table::{BAD_WORDS, File};

/// The files of the commands that need no ballots.
pub const FILES: [File; 14] = [
    File {
        name: "m.csv",
        text: "batch,cards\nb,1\n",
    },
    File {
        name: "thousand.csv",
        text: "batch,cards\nb,1000\n",
    },
    File {
        name: "three.csv",
        text: "\u{feff}batch , cards\n\na,3\nb 2 , 5\n c_x,4\n",
    },
    File {
        name: "count.csv",
        text: "batch,count\nb,1\n",
    },
    File {
        name: "no_cards.csv",
        text: "batch,cards\nb,0\n",
    },
    File {
        name: "no_batch.csv",
        text: "batch,cards\n",
    },
    File {
        name: "twice.csv",
        text: "batch,cards\nb,1\nb,2\n",
    },
    File {
        name: "thousand.json",
        text: "\
        {\"assertions\":[{\"kind\":\"NEB\",\"loser\":\"B\",\"margin\":100,\"winner\":\"A\"}],\"candidates\":[\"A\",\"B\"],\
        \"contest\":\"1\",\"margin\":100,\"order\":[\"A\",\"B\"],\"records\":1000,\"version\":1,\"winner\":\"A\"}\n",
    },
    File {
        name: "more.json",
        text: "\
        {\"assertions\":[{\"kind\":\"NEB\",\"loser\":\"B\",\"margin\":100,\"winner\":\"A\"}],\"candidates\":[\"A\",\"B\"],\
        \"contest\":\"1\",\"margin\":100,\"order\":[\"A\",\"B\"],\"records\":1001,\"version\":1,\"winner\":\"A\"}\n",
    },
    File {
        name: "nothing.json",
        text: "{\"assertions\":[],\"candidates\":[\"A\",\"B\"],\"contest\":\"1\",\"margin\":100,\"order\":[\"A\",\"B\"],\"records\":1000,\"version\":1,\"winner\":\"A\"}\n",
    },
    File {
        name: "one.json",
        text: "\
        {\"assertions\":[{\"kind\":\"NEB\",\"loser\":\"B\",\"margin\":1,\"winner\":\"A\"}],\"candidates\":[\"A\",\"B\"],\"contest\":\"1\",\
        \"margin\":1,\"order\":[\"A\",\"B\"],\"records\":1,\"version\":1,\"winner\":\"A\"}\n",
    },
    File {
        name: "twelve.csv",
        text: "batch,cards\nt,12\n",
    },
    File {
        name: "wide.csv",
        text: "batch,cards\nt,1000\nu,2000\n",
    },
    File {
        name: "mixed.json",
        text: "\
        {\"assertions\":[{\"kind\":\"NEB\",\"loser\":\"B\",\"margin\":100,\"winner\":\"A\"},{\"kind\":\"NEB\",\"loser\":\"C\",\"margin\":1,\
        \"winner\":\"A\"}],\"candidates\":[\"A\",\"B\",\"C\"],\"contest\":\"1\",\"margin\":1,\"order\":[\"C\",\"B\",\"A\"],\
        \"records\":3000,\"version\":1,\"winner\":\"A\"}\n",
    },
];

/// The words of a call, its status, and the text that goes to `out` if it is an answer, and to `err` otherwise.
pub const CASES: [(&str, u8, &str); 37] = [
    (
        "sample m.csv --seed 2024 --draws 3",
        0,
        "1,1,b_1\n2,1,b_1\n3,1,b_1\n",
    ),
    ("sample --draws=1 --seed=2024 -- m.csv", 0, "1,1,b_1\n"),
    (
        "sample three.csv --seed 2024! --draws 6",
        0,
        "1,4,b 2_1\n2,4,b 2_1\n3,4,b 2_1\n4,2,a_2\n5,5,b 2_2\n6,2,a_2\n",
    ),
    (
        "sample m.csv --seed aaaaaaaaaaaaaaaaaaaaaaaaaaaaaaaaaaaaaaaaaaaaaaaaaaaaaaaaaaaaaaaa --draws 1",
        0,
        "1,1,b_1\n",
    ),
    (
        "sample count.csv --seed 1 --draws 1",
        2,
        "raire: count.csv: M1 at 1\n",
    ),
    (
        "sample no_cards.csv --seed 1 --draws 1",
        2,
        "raire: no_cards.csv: M3 at 2\n",
    ),
    (
        "sample no_batch.csv --seed 1 --draws 1",
        2,
        "raire: no_batch.csv: M6 at 1\n",
    ),
    (
        "sample twice.csv --seed 1 --draws 1",
        2,
        "raire: twice.csv: M4 at 3\n",
    ),
    (
        "sample none.csv --seed 1 --draws 1",
        12,
        "raire: none.csv: no such file\n",
    ),
    ("sample m.csv --draws 3 --seed=", 1, BAD_WORDS),
    (
        "sample m.csv --draws 3 --seed aaaaaaaaaaaaaaaaaaaaaaaaaaaaaaaaaaaaaaaaaaaaaaaaaaaaaaaaaaaaaaaaa",
        1,
        BAD_WORDS,
    ),
    ("sample m.csv --draws 3 --seed \u{e9}", 1, BAD_WORDS),
    ("sample m.csv --draws 3 --seed \u{7f}", 1, BAD_WORDS),
    ("sample m.csv --draws 3", 1, BAD_WORDS),
    ("sample m.csv --seed 1", 1, BAD_WORDS),
    ("sample m.csv --seed 1 --draws 0", 1, BAD_WORDS),
    ("sample m.csv --seed 1 --draws 100001", 1, BAD_WORDS),
    ("sample m.csv --seed 1 --draws 1 --limit 1", 1, BAD_WORDS),
    (
        "plan thousand.csv thousand.json",
        0,
        "NEB A B margin 100: 70 draws\nall: 70 draws\n",
    ),
    (
        "plan thousand.csv thousand.json --limit 999999 --gamma 500",
        0,
        "NEB A B margin 100: 1 draws\nall: 1 draws\n",
    ),
    (
        "plan thousand.csv thousand.json --limit 1 --gamma 1",
        0,
        "NEB A B margin 100: 270 draws\nall: 270 draws\n",
    ),
    (
        "plan --gamma=100 thousand.csv --limit=50000 thousand.json",
        0,
        "NEB A B margin 100: 70 draws\nall: 70 draws\n",
    ),
    (
        "plan thousand.csv more.json",
        2,
        "raire: more.json: F7 at 0\n",
    ),
    ("plan thousand.csv nothing.json", 0, "all: 0 draws\n"),
    (
        "plan m.csv one.json",
        0,
        "NEB A B margin 1: full count\nall: full count\n",
    ),
    (
        "plan m.csv one.json --limit 600000",
        0,
        "NEB A B margin 1: 1 draws\nall: 1 draws\n",
    ),
    (
        "plan twelve.csv row1.json",
        0,
        "NEB 2 3 margin 1: full count\nNEN 2 1 {1,2} margin 2: full count\nNEN 3 1 {1,3} margin 2: full count\nall: full count\n",
    ),
    (
        "plan wide.csv mixed.json",
        0,
        "NEB A B margin 100: 214 draws\nNEB A C margin 1: full count\nall: full count\n",
    ),
    (
        "plan no_batch.csv none.json",
        2,
        "raire: no_batch.csv: M6 at 1\n",
    ),
    (
        "plan m.csv none.json",
        12,
        "raire: none.json: no such file\n",
    ),
    ("plan thousand.csv m.csv", 2, "raire: m.csv: F1 at 0\n"),
    ("plan thousand.csv", 1, BAD_WORDS),
    ("plan thousand.csv thousand.json --limit 0", 1, BAD_WORDS),
    (
        "plan thousand.csv thousand.json --limit 1000000",
        1,
        BAD_WORDS,
    ),
    ("plan thousand.csv thousand.json --gamma 0", 1, BAD_WORDS),
    ("plan thousand.csv thousand.json --gamma 501", 1, BAD_WORDS),
    ("plan thousand.csv thousand.json --seed 1", 1, BAD_WORDS),
];
