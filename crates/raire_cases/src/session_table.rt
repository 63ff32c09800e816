// Worked cases of the audit of one card, from its opening to its end, and of what is refused along the way. The digests, risks and texts were
// worked out by a plain program (acceptance/plain_audit.py), which shares no code with the suite.
use crate::table::{BAD_WORDS, File};

// The session of one card before its first round.
const OPENED: &str = "\
    {\"assertions\":\"ae97f9d20b8752ebe368d7fbc111d71683ac56e920c45c7b945baa7045d72b2e\",\
    \"ballots\":\"b2461326ededb6d109bceb693f72e5d9b613d18452c4eed4772b701916c96bdf\",\"cards\":1,\"contest\":\"7\",\"gamma\":100,\
    \"limit\":50000,\"manifest\":\"93cc03b4bc437d870c95a76e4ea4dc8314b09c68164e0e5f6bcae09b62d0a14c\",\"margins\":[1],\"rounds\":[],\
    \"seed\":\"2024\",\"signed_off\":false,\"version\":1}\n";

// After four draws it isn't signed off.
const UNCONFIRMED: &str = "\
    {\"assertions\":\"ae97f9d20b8752ebe368d7fbc111d71683ac56e920c45c7b945baa7045d72b2e\",\
    \"ballots\":\"b2461326ededb6d109bceb693f72e5d9b613d18452c4eed4772b701916c96bdf\",\"cards\":1,\"contest\":\"7\",\"gamma\":100,\
    \"limit\":50000,\"manifest\":\"93cc03b4bc437d870c95a76e4ea4dc8314b09c68164e0e5f6bcae09b62d0a14c\",\"margins\":[1],\
    \"rounds\":[{\"counts\":[[0,0,4,0,0]],\"draws\":4,\"risks\":[88518543815313162]}],\"seed\":\"2024\",\"signed_off\":false,\
    \"version\":1}\n";

// After a fifth draw it is.
const SIGNED: &str = "\
    {\"assertions\":\"ae97f9d20b8752ebe368d7fbc111d71683ac56e920c45c7b945baa7045d72b2e\",\
    \"ballots\":\"b2461326ededb6d109bceb693f72e5d9b613d18452c4eed4772b701916c96bdf\",\"cards\":1,\"contest\":\"7\",\"gamma\":100,\
    \"limit\":50000,\"manifest\":\"93cc03b4bc437d870c95a76e4ea4dc8314b09c68164e0e5f6bcae09b62d0a14c\",\"margins\":[1],\
    \"rounds\":[{\"counts\":[[0,0,4,0,0]],\"draws\":4,\"risks\":[88518543815313162]},{\"counts\":[[0,0,5,0,0]],\"draws\":5,\
    \"risks\":[48282842081079907]}],\"seed\":\"2024\",\"signed_off\":true,\"version\":1}\n";

/// The files of the audit of one card.
pub const FILES: [File; 22] = [
    File {
        name: "one_card.raire",
        text: "1\nContest,7,2,1,2\n7,b_1,1\n",
    },
    File {
        name: "one_card.json",
        text: "\
        {\"assertions\":[{\"kind\":\"NEB\",\"loser\":\"2\",\"margin\":1,\"winner\":\"1\"}],\"candidates\":[\"1\",\"2\"],\"contest\":\"7\",\
        \"margin\":1,\"order\":[\"1\",\"2\"],\"records\":1,\"version\":1,\"winner\":\"1\"}\n",
    },
    File {
        name: "opened.json",
        text: OPENED,
    },
    File {
        name: "seen.csv",
        text: "b_1,ballot,1\n",
    },
    File {
        name: "missing.csv",
        text: "b_1,missing\n",
    },
    File {
        name: "none_seen.csv",
        text: "",
    },
    File {
        name: "unconfirmed.json",
        text: UNCONFIRMED,
    },
    File {
        name: "signed_off.json",
        text: SIGNED,
    },
    File {
        name: "other_card.raire",
        text: "1\nContest,7,2,1,2\n7,b_2,1\n",
    },
    File {
        name: "leading_zero.raire",
        text: "1\nContest,7,2,1,2\n7,b_01,1\n",
    },
    File {
        name: "other_byte.raire",
        text: "1\nContest,7,2,1,2\n7,b_1,2\n",
    },
    File {
        name: "other_margin.json",
        text: "\
        {\"assertions\":[{\"kind\":\"NEB\",\"loser\":\"2\",\"margin\":2,\"winner\":\"1\"}],\"candidates\":[\"1\",\"2\"],\"contest\":\"7\",\
        \"margin\":2,\"order\":[\"1\",\"2\"],\"records\":1,\"version\":1,\"winner\":\"1\"}\n",
    },
    File {
        name: "two_cards.csv",
        text: "batch,cards\nb,2\n",
    },
    File {
        name: "other_winner.json",
        text: "\
        {\"assertions\":[{\"kind\":\"NEB\",\"loser\":\"1\",\"margin\":1,\"winner\":\"2\"}],\"candidates\":[\"1\",\"2\"],\"contest\":\"7\",\
        \"margin\":1,\"order\":[\"2\",\"1\"],\"records\":1,\"version\":1,\"winner\":\"2\"}\n",
    },
    File {
        name: "cut_session.json",
        text: "\
        {\"assertions\":\"ae97f9d20b8752ebe368d7fbc111d71683ac56e920c45c7b945baa7045d72b2e\",\
        \"ballots\":\"b2461326ededb6d109bceb693f72e5d9b613d18452c4eed4772b701916c96bdf\",\"cards\":1,\"contest\":\"7\",\"gamma\":100,\
        \"limit\":50000,\"manifest\":\"93cc03b4bc437d870c95a76e4ea4dc8314b09c68164e0e5f6bcae09b62d0a14c\",\"margins\":[1],\"rounds\":[],\
        \"seed\":\"2024\",\"signed_off\":false,\"version\":",
    },
    File {
        name: "other_risk.json",
        text: "\
        {\"assertions\":\"ae97f9d20b8752ebe368d7fbc111d71683ac56e920c45c7b945baa7045d72b2e\",\
        \"ballots\":\"b2461326ededb6d109bceb693f72e5d9b613d18452c4eed4772b701916c96bdf\",\"cards\":1,\"contest\":\"7\",\"gamma\":100,\
        \"limit\":50000,\"manifest\":\"93cc03b4bc437d870c95a76e4ea4dc8314b09c68164e0e5f6bcae09b62d0a14c\",\"margins\":[1],\
        \"rounds\":[{\"counts\":[[0,0,4,0,0]],\"draws\":4,\"risks\":[88518543815313161]}],\"seed\":\"2024\",\"signed_off\":false,\
        \"version\":1}\n",
    },
    File {
        name: "other_contest.json",
        text: "\
        {\"assertions\":\"ae97f9d20b8752ebe368d7fbc111d71683ac56e920c45c7b945baa7045d72b2e\",\
        \"ballots\":\"b2461326ededb6d109bceb693f72e5d9b613d18452c4eed4772b701916c96bdf\",\"cards\":1,\"contest\":\"8\",\"gamma\":100,\
        \"limit\":50000,\"manifest\":\"93cc03b4bc437d870c95a76e4ea4dc8314b09c68164e0e5f6bcae09b62d0a14c\",\"margins\":[1],\"rounds\":[],\
        \"seed\":\"2024\",\"signed_off\":false,\"version\":1}\n",
    },
    File {
        name: "no_candidate.csv",
        text: "b_1,ballot,1,3\n",
    },
    File {
        name: "no_word.csv",
        text: "b_1,found\n",
    },
    File {
        name: "no_card.csv",
        text: "b_1,ballot,1\nb_2,missing\n",
    },
    File {
        name: "seen_twice.csv",
        text: "b_1,ballot,1\nb_1,missing\n",
    },
    File {
        name: "five_cards.json",
        text: "\
        {\"assertions\":\"ae97f9d20b8752ebe368d7fbc111d71683ac56e920c45c7b945baa7045d72b2e\",\
        \"ballots\":\"b2461326ededb6d109bceb693f72e5d9b613d18452c4eed4772b701916c96bdf\",\"cards\":5,\"contest\":\"7\",\"gamma\":100,\
        \"limit\":50000,\"manifest\":\"93cc03b4bc437d870c95a76e4ea4dc8314b09c68164e0e5f6bcae09b62d0a14c\",\"margins\":[1],\"rounds\":[],\
        \"seed\":\"2024\",\"signed_off\":false,\"version\":1}\n",
    },
];

/// The words of a call, its status, and the text that goes to `out` if it is an answer, and to `err` otherwise.
pub const CASES: [(&str, u8, &str); 43] = [
    (
        "open one_card.raire m.csv one_card.json --seed 2024",
        0,
        OPENED,
    ),
    (
        "open --contest 7 one_card.raire --limit=50000 m.csv --gamma 100 one_card.json --seed=2024 --nodes 1",
        0,
        OPENED,
    ),
    (
        "audit opened.json one_card.raire m.csv one_card.json seen.csv --draws 4",
        10,
        UNCONFIRMED,
    ),
    (
        "audit unconfirmed.json one_card.raire m.csv one_card.json seen.csv --draws 5",
        0,
        SIGNED,
    ),
    (
        "audit signed_off.json one_card.raire m.csv one_card.json seen.csv --draws 5",
        2,
        "raire: signed_off.json: S4 had 5\n",
    ),
    (
        "audit signed_off.json one_card.raire m.csv one_card.json seen.csv --draws 6",
        0,
        "\
        {\"assertions\":\"ae97f9d20b8752ebe368d7fbc111d71683ac56e920c45c7b945baa7045d72b2e\",\
        \"ballots\":\"b2461326ededb6d109bceb693f72e5d9b613d18452c4eed4772b701916c96bdf\",\"cards\":1,\"contest\":\"7\",\"gamma\":100,\
        \"limit\":50000,\"manifest\":\"93cc03b4bc437d870c95a76e4ea4dc8314b09c68164e0e5f6bcae09b62d0a14c\",\"margins\":[1],\
        \"rounds\":[{\"counts\":[[0,0,4,0,0]],\"draws\":4,\"risks\":[88518543815313162]},{\"counts\":[[0,0,5,0,0]],\"draws\":5,\
        \"risks\":[48282842081079907]},{\"counts\":[[0,0,6,0,0]],\"draws\":6,\"risks\":[26336095680589041]}],\"seed\":\"2024\",\
        \"signed_off\":true,\"version\":1}\n",
    ),
    (
        "audit opened.json one_card.raire m.csv one_card.json missing.csv --draws 5",
        10,
        "\
        {\"assertions\":\"ae97f9d20b8752ebe368d7fbc111d71683ac56e920c45c7b945baa7045d72b2e\",\
        \"ballots\":\"b2461326ededb6d109bceb693f72e5d9b613d18452c4eed4772b701916c96bdf\",\"cards\":1,\"contest\":\"7\",\"gamma\":100,\
        \"limit\":50000,\"manifest\":\"93cc03b4bc437d870c95a76e4ea4dc8314b09c68164e0e5f6bcae09b62d0a14c\",\"margins\":[1],\
        \"rounds\":[{\"counts\":[[5,0,0,0,0]],\"draws\":5,\"risks\":[1000000000000000000]}],\"seed\":\"2024\",\"signed_off\":false,\
        \"version\":1}\n",
    ),
    (
        "audit opened.json one_card.raire m.csv one_card.json none_seen.csv --draws 5",
        2,
        "raire: none_seen.csv: V4 card 1 draw 1\n",
    ),
    (
        "audit unconfirmed.json one_card.raire m.csv one_card.json missing.csv --draws 5",
        2,
        "raire: unconfirmed.json: S3 round 1 claim 1 expected 0 0 4 0 0 found 4 0 0 0 0\n",
    ),
    (
        "audit opened.json other_byte.raire m.csv one_card.json seen.csv --draws 4",
        2,
        "raire: other_byte.raire: S2 expected b2461326ededb6d109bceb693f72e5d9b613d18452c4eed4772b701916c96bdf found 23efee81198a1bc544d67ad56251f7891c821a2ef23a7f0a835b250917df452f\n",
    ),
    (
        "audit opened.json one_card.raire two_cards.csv one_card.json seen.csv --draws 4",
        2,
        "raire: two_cards.csv: S2 expected 93cc03b4bc437d870c95a76e4ea4dc8314b09c68164e0e5f6bcae09b62d0a14c found a0c1c32b4c35027464ef722e94b6caa74394888419edfc11a651cc6dbde13fd2\n",
    ),
    (
        "audit opened.json one_card.raire m.csv other_margin.json seen.csv --draws 4",
        2,
        "raire: other_margin.json: S2 expected ae97f9d20b8752ebe368d7fbc111d71683ac56e920c45c7b945baa7045d72b2e found de69bbc7bf26b284c2323adf19967f6e5418b992fd25f63f39ba9acccd8ba15d\n",
    ),
    (
        "audit other_contest.json one_card.raire m.csv one_card.json seen.csv --draws 4",
        2,
        "raire: one_card.raire: B5 at 1\n",
    ),
    (
        "audit five_cards.json one_card.raire m.csv one_card.json seen.csv --draws 4",
        2,
        "raire: five_cards.json: S5\n",
    ),
    (
        "audit opened.json one_card.raire m.csv one_card.json no_candidate.csv --draws 4",
        2,
        "raire: no_candidate.csv: V5 at 1\n",
    ),
    (
        "audit opened.json one_card.raire m.csv one_card.json no_word.csv --draws 4",
        2,
        "raire: no_word.csv: V1 at 1\n",
    ),
    (
        "audit opened.json one_card.raire m.csv one_card.json no_card.csv --draws 4",
        2,
        "raire: no_card.csv: V2 at 2\n",
    ),
    (
        "audit opened.json one_card.raire m.csv one_card.json seen_twice.csv --draws 4",
        2,
        "raire: seen_twice.csv: V3 at 2\n",
    ),
    (
        "audit cut_session.json one_card.raire m.csv one_card.json seen.csv --draws 4",
        2,
        "raire: cut_session.json: S1\n",
    ),
    (
        "audit other_risk.json one_card.raire m.csv one_card.json seen.csv --draws 5",
        2,
        "raire: other_risk.json: S1\n",
    ),
    (
        "audit opened.json one_card.raire m.csv one_card.json none.csv --draws 4",
        12,
        "raire: none.csv: no such file\n",
    ),
    (
        "audit none.json one_card.raire m.csv one_card.json seen.csv --draws 4",
        12,
        "raire: none.json: no such file\n",
    ),
    (
        "audit opened.json one_card.raire m.csv one_card.json seen.csv",
        1,
        BAD_WORDS,
    ),
    (
        "audit opened.json one_card.raire m.csv one_card.json seen.csv --draws 0",
        1,
        BAD_WORDS,
    ),
    (
        "audit opened.json one_card.raire m.csv one_card.json seen.csv --draws 100001",
        1,
        BAD_WORDS,
    ),
    (
        "audit opened.json one_card.raire m.csv one_card.json --draws 4",
        1,
        BAD_WORDS,
    ),
    (
        "open other_card.raire m.csv one_card.json --seed 2024",
        2,
        "raire: other_card.raire: M7 at 3\n",
    ),
    (
        "open leading_zero.raire m.csv one_card.json --seed 2024",
        2,
        "raire: leading_zero.raire: M7 at 3\n",
    ),
    (
        "open one_card.raire m.csv other_winner.json --seed 2024",
        6,
        "no: winner is 1\n",
    ),
    (
        "open one_card.raire m.csv other_margin.json --seed 2024",
        2,
        "raire: other_margin.json: F6 at 0\n",
    ),
    (
        "open tie.raire two_cards.csv tie.json --seed 1",
        6,
        "no: winner is c\\d\n",
    ),
    (
        "open row1.raire twelve.csv empty.json --seed 1 --nodes 1",
        4,
        "spent\ncandidate 1\n",
    ),
    (
        "open row1.raire twelve.csv empty.json --seed 1 --nodes 2",
        6,
        "no: order 3,2,1 stands\n",
    ),
    (
        "open one_card.raire none.csv one_card.json --seed 2024",
        12,
        "raire: none.csv: no such file\n",
    ),
    ("open one_card.raire m.csv one_card.json", 1, BAD_WORDS),
    (
        "open one_card.raire m.csv one_card.json --seed 1 --limit 0",
        1,
        BAD_WORDS,
    ),
    (
        "report opened.json",
        0,
        "contest 7\ncards 1\nlimit 50000\ngamma 100\nseed 2024\nsigned off no\n",
    ),
    (
        "report unconfirmed.json",
        0,
        "contest 7\ncards 1\nlimit 50000\ngamma 100\nseed 2024\nround 1 draws 4\nassertion 1 margin 1 counts 0 0 4 0 0 risk 0.088518543815313162 unconfirmed\nsigned off no\n",
    ),
    (
        "report signed_off.json",
        0,
        "\
        contest 7\ncards 1\nlimit 50000\ngamma 100\nseed 2024\nround 1 draws 4\n\
        assertion 1 margin 1 counts 0 0 4 0 0 risk 0.088518543815313162 unconfirmed\nround 2 draws 5\n\
        assertion 1 margin 1 counts 0 0 5 0 0 risk 0.048282842081079907 confirmed\nsigned off yes\n",
    ),
    (
        "report cut_session.json",
        2,
        "raire: cut_session.json: S1\n",
    ),
    ("report other_risk.json", 2, "raire: other_risk.json: S1\n"),
    ("report none.json", 12, "raire: none.json: no such file\n"),
    ("report", 1, BAD_WORDS),
];
