// Worked cases of the audit of a plurality contest, from its opening to its end, of a tie, and of what is refused along the way. The digests
// and risks were worked out by a plain program, which shares no code with the suite.
use crate::table::{BAD_WORDS, File};

// The session of one card before its first round. In place of an assertion file's digest it has that of no bytes.
const OPENED: &str = "\
    {\"assertions\":\"e3b0c44298fc1c149afbf4c8996fb92427ae41e4649b934ca495991b7852b855\",\
    \"ballots\":\"b2461326ededb6d109bceb693f72e5d9b613d18452c4eed4772b701916c96bdf\",\"cards\":1,\"contest\":\"7\",\"gamma\":100,\
    \"limit\":50000,\"manifest\":\"93cc03b4bc437d870c95a76e4ea4dc8314b09c68164e0e5f6bcae09b62d0a14c\",\"margins\":[1],\"rounds\":[],\
    \"seed\":\"2024\",\"signed_off\":false,\"version\":1}\n";

// After four draws it isn't signed off.
const UNCONFIRMED: &str = "\
    {\"assertions\":\"e3b0c44298fc1c149afbf4c8996fb92427ae41e4649b934ca495991b7852b855\",\
    \"ballots\":\"b2461326ededb6d109bceb693f72e5d9b613d18452c4eed4772b701916c96bdf\",\"cards\":1,\"contest\":\"7\",\"gamma\":100,\
    \"limit\":50000,\"manifest\":\"93cc03b4bc437d870c95a76e4ea4dc8314b09c68164e0e5f6bcae09b62d0a14c\",\"margins\":[1],\
    \"rounds\":[{\"counts\":[[0,0,4,0,0]],\"draws\":4,\"risks\":[88518543815313162]}],\"seed\":\"2024\",\"signed_off\":false,\
    \"version\":1}\n";

// After a fifth draw it is.
const SIGNED: &str = "\
    {\"assertions\":\"e3b0c44298fc1c149afbf4c8996fb92427ae41e4649b934ca495991b7852b855\",\
    \"ballots\":\"b2461326ededb6d109bceb693f72e5d9b613d18452c4eed4772b701916c96bdf\",\"cards\":1,\"contest\":\"7\",\"gamma\":100,\
    \"limit\":50000,\"manifest\":\"93cc03b4bc437d870c95a76e4ea4dc8314b09c68164e0e5f6bcae09b62d0a14c\",\"margins\":[1],\
    \"rounds\":[{\"counts\":[[0,0,4,0,0]],\"draws\":4,\"risks\":[88518543815313162]},{\"counts\":[[0,0,5,0,0]],\"draws\":5,\
    \"risks\":[48282842081079907]}],\"seed\":\"2024\",\"signed_off\":true,\"version\":1}\n";

// After five draws at once it is, too.
const SIGNED_AT_ONCE: &str = "\
    {\"assertions\":\"e3b0c44298fc1c149afbf4c8996fb92427ae41e4649b934ca495991b7852b855\",\
    \"ballots\":\"b2461326ededb6d109bceb693f72e5d9b613d18452c4eed4772b701916c96bdf\",\"cards\":1,\"contest\":\"7\",\"gamma\":100,\
    \"limit\":50000,\"manifest\":\"93cc03b4bc437d870c95a76e4ea4dc8314b09c68164e0e5f6bcae09b62d0a14c\",\"margins\":[1],\
    \"rounds\":[{\"counts\":[[0,0,5,0,0]],\"draws\":5,\"risks\":[48282842081079907]}],\"seed\":\"2024\",\"signed_off\":true,\
    \"version\":1}\n";

// Candidate 1 has the most first preferences, though 2 wins the instant runoff.
const ROW1_OPENED: &str = "\
    {\"assertions\":\"e3b0c44298fc1c149afbf4c8996fb92427ae41e4649b934ca495991b7852b855\",\
    \"ballots\":\"f0e0345c5dbb9b4605ecd1a9cdc12a09779d122cc56c493b18f6bedb460bc4ba\",\"cards\":12,\"contest\":\"1\",\"gamma\":100,\
    \"limit\":50000,\"manifest\":\"fbbb65ee714b540622a537be22f4995ef5255032eae1a14a91cd86ce449550e7\",\"margins\":[1,2],\
    \"rounds\":[],\"seed\":\"2024\",\"signed_off\":false,\"version\":1}\n";

/// The files of an audit of a plurality contest.
pub const FILES: [File; 5] = [
    File {
        name: "plural.json",
        text: OPENED,
    },
    File {
        name: "plural_unconfirmed.json",
        text: UNCONFIRMED,
    },
    File {
        name: "plural_signed.json",
        text: SIGNED_AT_ONCE,
    },
    // The session has more cards than the manifest.
    File {
        name: "plural_five.json",
        text: FIVE_CARDS,
    },
    // The session's ballots have a tie.
    File {
        name: "plural_tied.json",
        text: TIED,
    },
];

const FIVE_CARDS: &str = "\
    {\"assertions\":\"e3b0c44298fc1c149afbf4c8996fb92427ae41e4649b934ca495991b7852b855\",\
    \"ballots\":\"b2461326ededb6d109bceb693f72e5d9b613d18452c4eed4772b701916c96bdf\",\"cards\":5,\"contest\":\"7\",\"gamma\":100,\
    \"limit\":50000,\"manifest\":\"93cc03b4bc437d870c95a76e4ea4dc8314b09c68164e0e5f6bcae09b62d0a14c\",\"margins\":[1],\"rounds\":[],\
    \"seed\":\"2024\",\"signed_off\":false,\"version\":1}\n";

const TIED: &str = "\
    {\"assertions\":\"e3b0c44298fc1c149afbf4c8996fb92427ae41e4649b934ca495991b7852b855\",\
    \"ballots\":\"da5101d234ea1cc40649850d66c5ed98b9fd6620bef49c6b5c15fa84a457f43e\",\"cards\":2,\"contest\":\"7\",\"gamma\":100,\
    \"limit\":50000,\"manifest\":\"a0c1c32b4c35027464ef722e94b6caa74394888419edfc11a651cc6dbde13fd2\",\"margins\":[1],\"rounds\":[],\
    \"seed\":\"2024\",\"signed_off\":false,\"version\":1}\n";

/// The words of a call, its status, and its text.
pub const CASES: [(&str, u8, &str); 27] = [
    ("plurality one_card.raire m.csv --seed 2024", 0, OPENED),
    (
        "plurality row1.raire twelve.csv --seed 2024",
        0,
        ROW1_OPENED,
    ),
    (
        "plurality row1.raire twelve.csv --seed 2024 --contest 1 --limit 50000 --gamma 100",
        0,
        ROW1_OPENED,
    ),
    (
        "plurality tie.raire two_cards.csv --seed 2024",
        3,
        "tie\nround 1\ntied a b,c\\d\ntally 1\n",
    ),
    (
        "plurality one_card.raire none.csv --seed 2024",
        12,
        "raire: none.csv: no such file\n",
    ),
    (
        "plurality other_card.raire m.csv --seed 2024",
        2,
        "raire: other_card.raire: M7 at 3\n",
    ),
    (
        "plurality one_card.raire no_cards.csv --seed 2024",
        2,
        "raire: no_cards.csv: M3 at 2\n",
    ),
    (
        "plurality row1.raire twelve.csv --seed 2024 --contest 2",
        2,
        "raire: row1.raire: B5 at 1\n",
    ),
    (
        "plurality plural.json one_card.raire m.csv seen.csv --draws 4",
        10,
        UNCONFIRMED,
    ),
    (
        "plurality plural_unconfirmed.json one_card.raire m.csv seen.csv --draws 5",
        0,
        SIGNED,
    ),
    (
        "plurality plural.json one_card.raire m.csv seen.csv --draws 5",
        0,
        SIGNED_AT_ONCE,
    ),
    (
        "plurality plural_tied.json tie.raire two_cards.csv none_seen.csv --draws 1",
        3,
        "tie\nround 1\ntied a b,c\\d\ntally 1\n",
    ),
    (
        "plurality cut_session.json one_card.raire m.csv seen.csv --draws 4",
        2,
        "raire: cut_session.json: S1\n",
    ),
    (
        "plurality plural_unconfirmed.json one_card.raire m.csv seen.csv --draws 4",
        2,
        "raire: plural_unconfirmed.json: S4 had 4\n",
    ),
    (
        "plurality opened.json one_card.raire m.csv seen.csv --draws 4",
        2,
        "raire: opened.json: S2 expected ae97f9d20b8752ebe368d7fbc111d71683ac56e920c45c7b945baa7045d72b2e found e3b0c44298fc1c149afbf4c8996fb92427ae41e4649b934ca495991b7852b855\n",
    ),
    (
        "plurality plural.json other_byte.raire m.csv seen.csv --draws 4",
        2,
        "raire: other_byte.raire: S2 expected b2461326ededb6d109bceb693f72e5d9b613d18452c4eed4772b701916c96bdf found 23efee81198a1bc544d67ad56251f7891c821a2ef23a7f0a835b250917df452f\n",
    ),
    (
        "plurality plural.json one_card.raire two_cards.csv seen.csv --draws 4",
        2,
        "raire: two_cards.csv: S2 expected 93cc03b4bc437d870c95a76e4ea4dc8314b09c68164e0e5f6bcae09b62d0a14c found a0c1c32b4c35027464ef722e94b6caa74394888419edfc11a651cc6dbde13fd2\n",
    ),
    (
        "plurality plural_five.json one_card.raire m.csv seen.csv --draws 4",
        2,
        "raire: plural_five.json: S5\n",
    ),
    (
        "plurality plural.json one_card.raire m.csv no_word.csv --draws 4",
        2,
        "raire: no_word.csv: V1 at 1\n",
    ),
    (
        "plurality plural.json one_card.raire m.csv none_seen.csv --draws 4",
        2,
        "raire: none_seen.csv: V4 card 1 draw 1\n",
    ),
    (
        "plurality plural_unconfirmed.json one_card.raire m.csv missing.csv --draws 5",
        2,
        "raire: plural_unconfirmed.json: S3 round 1 claim 1 expected 0 0 4 0 0 found 4 0 0 0 0\n",
    ),
    (
        "audit plural_signed.json one_card.raire m.csv one_card.json seen.csv --draws 6",
        2,
        "raire: one_card.json: S2 expected e3b0c44298fc1c149afbf4c8996fb92427ae41e4649b934ca495991b7852b855 found ae97f9d20b8752ebe368d7fbc111d71683ac56e920c45c7b945baa7045d72b2e\n",
    ),
    (
        "report plural.json",
        0,
        "contest 7\ncards 1\nlimit 50000\ngamma 100\nseed 2024\nsigned off no\n",
    ),
    ("plurality one_card.raire m.csv", 1, BAD_WORDS),
    (
        "plurality one_card.raire m.csv --seed 2024 --draws 4",
        1,
        BAD_WORDS,
    ),
    (
        "plurality plural.json one_card.raire m.csv seen.csv --draws 4 --seed 2024",
        1,
        BAD_WORDS,
    ),
    (
        "plurality one_card.raire m.csv seen.csv --draws 4",
        1,
        BAD_WORDS,
    ),
];
