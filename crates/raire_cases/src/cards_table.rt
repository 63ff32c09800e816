// Worked cases of assertion files that carry their clean draws. The draws were worked out by a plain program (acceptance/plain_draws.py),
// which shares no code with the suite.
use crate::table::{BAD_WORDS, File};

// What a search of five_ones.raire over five cards prints.
const PRINTED: &str = "\
    {\"assertions\":[{\"draws\":5,\"kind\":\"NEB\",\"loser\":\"2\",\"margin\":5,\"winner\":\"1\"}],\"candidates\":[\"1\",\"2\"],\"cards\":5,\
    \"contest\":\"1\",\"gamma\":100,\"limit\":50000,\"margin\":5,\"order\":[\"1\",\"2\"],\"records\":5,\"version\":2,\"winner\":\"1\"}\n";

// What a search of row1.raire prints over twelve cards. No number of draws that is tried is enough for the margin of one vote.
const PRINTED_OF_TWELVE: &str = "\
    {\"assertions\":[{\"draws\":null,\"kind\":\"NEB\",\"loser\":\"3\",\"margin\":1,\"winner\":\"2\"},{\"draws\":7,\"kind\":\"NEN\",\
    \"loser\":\"1\",\"margin\":2,\"rest\":[\"1\",\"2\"],\"winner\":\"2\"},{\"draws\":7,\"kind\":\"NEN\",\"loser\":\"1\",\"margin\":2,\
    \"rest\":[\"1\",\"3\"],\"winner\":\"3\"}],\"candidates\":[\"1\",\"2\",\"3\"],\"cards\":12,\"contest\":\"1\",\"gamma\":100,\
    \"limit\":600000,\"margin\":1,\"order\":[\"2\",\"1\",\"3\"],\"records\":12,\"version\":2,\"winner\":\"2\"}\n";

/// The files of these cases.
pub const FILES: [File; 6] = [
    File {
        name: "five_ones.raire",
        text: "1\nContest,1,2,1,2\n1,b_1,1\n1,b_2,1\n1,b_3,1\n1,b_4,1\n1,b_5,1\n",
    },
    File {
        name: "five_draws.json",
        text: PRINTED,
    },
    File {
        name: "twelve_cards.json",
        text: PRINTED_OF_TWELVE,
    },
    File {
        name: "four_draws.json",
        text: "\
        {\"assertions\":[{\"draws\":4,\"kind\":\"NEB\",\"loser\":\"2\",\"margin\":5,\"winner\":\"1\"}],\"candidates\":[\"1\",\"2\"],\"cards\":5,\
        \"contest\":\"1\",\"gamma\":100,\"limit\":50000,\"margin\":5,\"order\":[\"1\",\"2\"],\"records\":5,\"version\":2,\"winner\":\"1\"}\n",
    },
    File {
        name: "no_draws.json",
        text: "\
        {\"assertions\":[{\"draws\":null,\"kind\":\"NEB\",\"loser\":\"2\",\"margin\":5,\"winner\":\"1\"}],\"candidates\":[\"1\",\"2\"],\
        \"cards\":5,\"contest\":\"1\",\"gamma\":100,\"limit\":50000,\"margin\":5,\"order\":[\"1\",\"2\"],\"records\":5,\"version\":2,\
        \"winner\":\"1\"}\n",
    },
    File {
        name: "four_cards.json",
        text: "\
        {\"assertions\":[{\"draws\":4,\"kind\":\"NEB\",\"loser\":\"2\",\"margin\":4,\"winner\":\"1\"}],\"candidates\":[\"1\",\"2\"],\"cards\":4,\
        \"contest\":\"1\",\"gamma\":100,\"limit\":50000,\"margin\":4,\"order\":[\"1\",\"2\"],\"records\":5,\"version\":2,\"winner\":\"1\"}\n",
    },
];

/// The words of a call, its status, and the text that goes to `out` if it is an answer, and to `err` otherwise.
pub const CASES: [(&str, u8, &str); 24] = [
    ("search five_ones.raire --cards 5", 0, PRINTED),
    (
        "search --gamma=100 --limit=50000 five_ones.raire --cards=5",
        0,
        PRINTED,
    ),
    (
        "search five_ones.raire --cards 4",
        2,
        "raire: five_ones.raire: B11 at 0\n",
    ),
    (
        "search row1.raire --cards 12 --limit 600000",
        0,
        PRINTED_OF_TWELVE,
    ),
    (
        "search row1.raire --cards 11 --nodes 1",
        2,
        "raire: row1.raire: B11 at 0\n",
    ),
    (
        "search row1.raire --cards 12 --nodes 1",
        4,
        "spent\ncandidate 3\norder 2,1,3\nmargin 1\n",
    ),
    (
        "search row1.raire --cards 12 --floor 2",
        5,
        "full count\norder 2,1,3\nmargin 1\nfloor 2\n",
    ),
    (
        "search tie.raire --cards 1",
        2,
        "raire: tie.raire: B11 at 0\n",
    ),
    (
        "search tie.raire --cards 2",
        3,
        "tie\nround 1\ntied a b,c\\d\ntally 1\n",
    ),
    (
        "search cut.raire --cards 1",
        2,
        "raire: cut.raire: B3 at 2\n",
    ),
    ("search five_ones.raire --limit 50000", 1, BAD_WORDS),
    ("search five_ones.raire --gamma 100", 1, BAD_WORDS),
    ("search five_ones.raire --cards 0", 1, BAD_WORDS),
    ("search five_ones.raire --cards 10000001", 1, BAD_WORDS),
    ("search five_ones.raire --cards 5 --cards 5", 1, BAD_WORDS),
    (
        "search five_ones.raire --cards 5 --limit 1000000",
        1,
        BAD_WORDS,
    ),
    (
        "check five_ones.raire five_draws.json --cards 5",
        1,
        BAD_WORDS,
    ),
    (
        "check five_ones.raire five_draws.json",
        0,
        "yes\nassertions 1\nmargin 5\n",
    ),
    (
        "check row1.raire twelve_cards.json",
        0,
        "yes\nassertions 3\nmargin 1\n",
    ),
    (
        "check five_ones.raire four_draws.json",
        6,
        "no: assertion 1 needs 5 draws\n",
    ),
    (
        "check five_ones.raire no_draws.json",
        6,
        "no: assertion 1 needs 5 draws\n",
    ),
    (
        "check five_ones.raire four_cards.json",
        2,
        "raire: four_cards.json: F6 at 0\n",
    ),
    ("trim five_ones.raire five_draws.json", 0, PRINTED),
    (
        "search five_ones.raire",
        0,
        "\
        {\"assertions\":[{\"kind\":\"NEB\",\"loser\":\"2\",\"margin\":5,\"winner\":\"1\"}],\"candidates\":[\"1\",\"2\"],\"contest\":\"1\",\
        \"margin\":5,\"order\":[\"1\",\"2\"],\"records\":5,\"version\":1,\"winner\":\"1\"}\n",
    ),
];
