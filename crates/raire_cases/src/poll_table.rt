// Worked cases of polls, over the files of `table`, `audit_table` and `session_table`. The risks were worked out by a plain program, which
// shares no code with the suite.
use crate::table::BAD_WORDS;

/// The words of a call, its status, and its text.
pub const CASES: [(&str, u8, &str); 20] = [
    (
        "poll m.csv one_card.json seen.csv --seed 2024 --draws 4",
        10,
        "cards 1\ndraws 4\nlimit 50000\ngamma 100\nNEB 1 2 counts 0 0 4 risk 0.088518543815313162 unconfirmed\nconfirmed no\n",
    ),
    (
        "poll m.csv one_card.json seen.csv --seed 2024 --draws 5",
        0,
        "cards 1\ndraws 5\nlimit 50000\ngamma 100\nNEB 1 2 counts 0 0 5 risk 0.048282842081079907 confirmed\nconfirmed yes\n",
    ),
    (
        "poll m.csv one_card.json missing.csv --seed 2024 --draws 1",
        10,
        "cards 1\ndraws 1\nlimit 50000\ngamma 100\nNEB 1 2 counts 1 0 0 risk 1.000000000000000000 unconfirmed\nconfirmed no\n",
    ),
    (
        "poll m.csv one_card.json none_seen.csv --seed 2024 --draws 1",
        2,
        "raire: none_seen.csv: V4 card 1 draw 1\n",
    ),
    (
        "poll two_cards.csv one_card.json seen.csv --seed 2024 --draws 4",
        2,
        "raire: seen.csv: V4 card 2 draw 2\n",
    ),
    (
        "poll m.csv one_card.json seen.csv --seed 2024 --draws 5 --limit 48282",
        10,
        "cards 1\ndraws 5\nlimit 48282\ngamma 100\nNEB 1 2 counts 0 0 5 risk 0.048282842081079907 unconfirmed\nconfirmed no\n",
    ),
    (
        "poll m.csv one_card.json seen.csv --seed 2024 --draws 5 --limit 48283 --gamma 100",
        0,
        "cards 1\ndraws 5\nlimit 48283\ngamma 100\nNEB 1 2 counts 0 0 5 risk 0.048282842081079907 confirmed\nconfirmed yes\n",
    ),
    (
        "poll m.csv one_card.json seen.csv --seed 2024 --draws 5 --gamma 500",
        10,
        "cards 1\ndraws 5\nlimit 50000\ngamma 500\nNEB 1 2 counts 0 0 5 risk 0.131687242798353910 unconfirmed\nconfirmed no\n",
    ),
    (
        "poll m.csv other_winner.json seen.csv --seed 2024 --draws 5",
        10,
        "cards 1\ndraws 5\nlimit 50000\ngamma 100\nNEB 2 1 counts 5 0 0 risk 1.000000000000000000 unconfirmed\nconfirmed no\n",
    ),
    (
        "poll twelve.csv empty.json none_seen.csv --seed 1 --draws 1 --nodes 1",
        4,
        "spent\ncandidate 1\n",
    ),
    (
        "poll twelve.csv empty.json none_seen.csv --seed 1 --draws 1 --nodes 2",
        6,
        "no: order 3,2,1 stands\n",
    ),
    (
        "poll no_cards.csv cut_session.json none.csv --seed 2024 --draws 5",
        2,
        "raire: no_cards.csv: M3 at 2\n",
    ),
    (
        "poll m.csv other_margin.json none.csv --seed 2024 --draws 4",
        2,
        "raire: other_margin.json: F6 at 0\n",
    ),
    (
        "poll m.csv nothing.json none.csv --seed 1 --draws 1",
        6,
        "no: order A,B stands\n",
    ),
    (
        "poll m.csv one_card.json no_word.csv --seed 2024 --draws 5",
        2,
        "raire: no_word.csv: V1 at 1\n",
    ),
    (
        "poll m.csv one_card.json none.csv --seed 2024 --draws 5",
        12,
        "raire: none.csv: no such file\n",
    ),
    ("poll m.csv one_card.json seen.csv --draws 5", 1, BAD_WORDS),
    (
        "poll m.csv one_card.json seen.csv --seed 2024",
        1,
        BAD_WORDS,
    ),
    (
        "poll m.csv one_card.json --seed 2024 --draws 5",
        1,
        BAD_WORDS,
    ),
    (
        "poll m.csv one_card.json seen.csv --seed 2024 --draws 0",
        1,
        BAD_WORDS,
    ),
];
