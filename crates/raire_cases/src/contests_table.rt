// Worked cases of audits of all contests of a ballot file. The risks were worked out by a plain program (acceptance/plain_audit.py), which
// shares no code with the suite.
use crate::table::{BAD_WORDS, File};

// How contest 7 ends after five draws of its only card, on which the vote for its winner is seen.
const SEVEN: &str = "\
    contest 7\nrecords 1\nwinner 1\nmargin 1\nNEB 1 2 margin 1 counts 0 0 5 0 0 risk 0.048282842081079907 confirmed\nsigned off yes\n\
    all yes\n";

/// The same, and how contest 8 ends, whose card can't be found.
pub const BOTH: &str = "\
    contest 7\nrecords 1\nwinner 1\nmargin 1\nNEB 1 2 margin 1 counts 0 0 5 0 0 risk 0.048282842081079907 confirmed\nsigned off yes\n\
    contest 8\nrecords 1\nwinner 2\nmargin 1\nNEB 2 1 margin 1 counts 5 0 0 0 0 risk 1.000000000000000000 unconfirmed\nsigned off no\n\
    all no\n";

// The same, if contest 8 has no ballots.
const BESIDE_A_TIE: &str = "\
    contest 7\nrecords 1\nwinner 1\nmargin 1\nNEB 1 2 margin 1 counts 0 0 5 0 0 risk 0.048282842081079907 confirmed\nsigned off yes\n\
    contest 8\ntie\nround 1\ntied 1,2\ntally 0\nsigned off no\nall no\n";

/// The files of these cases.
pub const FILES: [File; 24] = [
    File {
        name: "two_contests.raire",
        text: "2\nContest,7,2,1,2\nContest,8,2,1,2\n7,b_1,1\n8,b_1,2\n",
    },
    File {
        name: "eight_without.raire",
        text: "2\nContest,7,2,1,2\nContest,8,2,1,2\n7,b_1,1\n",
    },
    // The card of a ballot of the second contest isn't in the manifest.
    File {
        name: "eight_elsewhere.raire",
        text: "2\nContest,7,2,1,2\nContest,8,2,1,2\n7,b_1,1\n8,b_2,2\n",
    },
    // Nor is the card of a ballot of the first contest, which comes after it.
    File {
        name: "both_elsewhere.raire",
        text: "2\nContest,7,2,1,2\nContest,8,2,1,2\n8,b_2,2\n7,b_2,1\n",
    },
    File {
        name: "eight_of_one.raire",
        text: "2\nContest,7,2,1,2\nContest,8,1,1\n7,b_1,1\n",
    },
    File {
        name: "seven_twice.raire",
        text: "2\nContest,7,2,1,2\nContest,7,2,1,2\n7,b_1,1\n",
    },
    File {
        name: "many_contests.raire",
        text: "65\nContest,7,2,1,2\n",
    },
    // With one node the first contest runs out of budget, and the second has no ballots.
    File {
        name: "spent_and_tie.raire",
        text: "\
        2\nContest,1,3,1,2,3\nContest,7,2,1,2\n1,t_1,1\n1,t_2,1\n1,t_3,1\n1,t_4,1\n1,t_5,1\n1,t_6,2,3\n1,t_7,2,3\n1,t_8,2,3\n1,t_9,2,3\n\
        1,t_10,3,2\n1,t_11,3,2\n1,t_12,3,2\n",
    },
    File {
        name: "seen_of_two.csv",
        text: "b_1,7,ballot,1\nb_1,8,missing\n",
    },
    File {
        name: "seen_of_eight_first.csv",
        text: "b_1,8,missing\nb_1,7,ballot,1\n",
    },
    File {
        name: "seen_of_seven.csv",
        text: "b_1,7,ballot,1\n",
    },
    File {
        name: "seen_of_eight.csv",
        text: "b_1,8,ballot,2\n",
    },
    File {
        name: "seen_of_nine.csv",
        text: "b_1,9,missing\nb_1,7,ballot,1\nb_1,8,missing\n",
    },
    File {
        name: "seen_for_one.csv",
        text: "b_1,7,ballot,1\nb_1,ballot\n",
    },
    File {
        name: "seen_with_another_word.csv",
        text: "b_2,9,found\n",
    },
    File {
        name: "seen_elsewhere.csv",
        text: "b_1,7,ballot,1\nb_2,9,missing\n",
    },
    File {
        name: "seen_of_seven_twice.csv",
        text: "b_1,7,ballot,1\nb_1,8,missing\nb_1,7,ballot,3\n",
    },
    File {
        name: "seen_of_nine_twice.csv",
        text: "b_1,7,ballot,1\nb_1,9,ballot,3\n",
    },
    File {
        name: "seen_of_no_candidate.csv",
        text: "b_1,7,ballot,1\nb_1,8,ballot,3\n",
    },
    File {
        name: "seen_of_both.csv",
        text: "b_1,7,ballot,1\nb_1,8,ballot,2\n",
    },
    File {
        name: "eight_by_itself.raire",
        text: "1\nContest,8,2,1,2\n8,b_1,2\n",
    },
    File {
        name: "seen_of_eight_missing.csv",
        text: "b_1,8,missing\n",
    },
    File {
        name: "seen_of_blanks.csv",
        text: " b_1 ,\t7, ballot ,1,\n\nb_1,8 , missing,, \n",
    },
    File {
        name: "seen_of_more.csv",
        text: "b_1,7,ballot,1\nb_1,8,missing,1\n",
    },
];

/// The words of a call, its status, and the text that goes to `out` if it is an answer, and to `err` otherwise.
pub const CASES: [(&str, u8, &str); 41] = [
    (
        "contests two_contests.raire m.csv seen_of_two.csv --seed 2024 --draws 5",
        10,
        BOTH,
    ),
    (
        "contests two_contests.raire m.csv seen_of_two.csv --seed 2024 --draws 5 --workers 1",
        10,
        BOTH,
    ),
    (
        "contests two_contests.raire m.csv seen_of_two.csv --seed 2024 --draws 5 --workers 2",
        10,
        BOTH,
    ),
    (
        "contests two_contests.raire m.csv seen_of_two.csv --seed 2024 --draws 5 --workers 8",
        10,
        BOTH,
    ),
    (
        "contests --workers=8 two_contests.raire --limit 50000 m.csv --gamma=100 seen_of_eight_first.csv --nodes 1 --draws=5 --seed=2024",
        10,
        BOTH,
    ),
    (
        "contests two_contests.raire m.csv seen_of_blanks.csv --seed 2024 --draws 5",
        10,
        BOTH,
    ),
    (
        "contests eight_without.raire m.csv seen_of_two.csv --seed 2024 --draws 5",
        10,
        BESIDE_A_TIE,
    ),
    // Nothing has to be seen for a contest without a winner.
    (
        "contests eight_without.raire m.csv seen_of_seven.csv --seed 2024 --draws 5 --workers 2",
        10,
        BESIDE_A_TIE,
    ),
    (
        "contests one_card.raire m.csv seen_of_seven.csv --seed 2024 --draws 5",
        0,
        SEVEN,
    ),
    (
        "contests one_card.raire m.csv seen_of_seven.csv --seed 2024 --draws 4",
        10,
        "\
        contest 7\nrecords 1\nwinner 1\nmargin 1\nNEB 1 2 margin 1 counts 0 0 4 0 0 risk 0.088518543815313162 unconfirmed\n\
        signed off no\nall no\n",
    ),
    (
        "contests one_card.raire m.csv seen_of_seven.csv --seed 2024 --draws 5 --limit 48282",
        10,
        "\
        contest 7\nrecords 1\nwinner 1\nmargin 1\nNEB 1 2 margin 1 counts 0 0 5 0 0 risk 0.048282842081079907 unconfirmed\n\
        signed off no\nall no\n",
    ),
    (
        "contests one_card.raire m.csv seen_of_seven.csv --seed 2024 --draws 5 --limit 48283",
        0,
        SEVEN,
    ),
    (
        "contests eight_by_itself.raire m.csv seen_of_eight_missing.csv --seed 2024 --draws 5",
        10,
        "\
        contest 8\nrecords 1\nwinner 2\nmargin 1\nNEB 2 1 margin 1 counts 5 0 0 0 0 risk 1.000000000000000000 unconfirmed\n\
        signed off no\nall no\n",
    ),
    (
        "contests two_contests.raire m.csv seen_of_both.csv --seed 2024 --draws 5",
        0,
        "\
        contest 7\nrecords 1\nwinner 1\nmargin 1\nNEB 1 2 margin 1 counts 0 0 5 0 0 risk 0.048282842081079907 confirmed\nsigned off yes\n\
        contest 8\nrecords 1\nwinner 2\nmargin 1\nNEB 2 1 margin 1 counts 0 0 5 0 0 risk 0.048282842081079907 confirmed\nsigned off yes\n\
        all yes\n",
    ),
    (
        "contests spent_and_tie.raire twelve.csv none_seen.csv --seed 2024 --draws 5 --nodes 1",
        10,
        "\
        contest 1\nspent\ncandidate 3\norder 2,1,3\nmargin 1\nsigned off no\n\
        contest 7\ntie\nround 1\ntied 1,2\ntally 0\nsigned off no\nall no\n",
    ),
    (
        "contests two_contests.raire m.csv seen_of_nine.csv --seed 2024 --draws 5",
        2,
        "raire: seen_of_nine.csv: V6 at 1\n",
    ),
    (
        "contests two_contests.raire m.csv seen_for_one.csv --seed 2024 --draws 5",
        2,
        "raire: seen_for_one.csv: V1 at 2\n",
    ),
    (
        "contests two_contests.raire m.csv seen_with_another_word.csv --seed 2024 --draws 5",
        2,
        "raire: seen_with_another_word.csv: V1 at 1\n",
    ),
    (
        "contests two_contests.raire m.csv seen_of_more.csv --seed 2024 --draws 5",
        2,
        "raire: seen_of_more.csv: V1 at 2\n",
    ),
    (
        "contests two_contests.raire m.csv seen_elsewhere.csv --seed 2024 --draws 5",
        2,
        "raire: seen_elsewhere.csv: V2 at 2\n",
    ),
    (
        "contests two_contests.raire m.csv seen_of_seven_twice.csv --seed 2024 --draws 5",
        2,
        "raire: seen_of_seven_twice.csv: V3 at 3\n",
    ),
    (
        "contests two_contests.raire m.csv seen_of_nine_twice.csv --seed 2024 --draws 5",
        2,
        "raire: seen_of_nine_twice.csv: V6 at 2\n",
    ),
    (
        "contests two_contests.raire m.csv seen_of_no_candidate.csv --seed 2024 --draws 5",
        2,
        "raire: seen_of_no_candidate.csv: V5 at 2\n",
    ),
    (
        "contests two_contests.raire m.csv seen_of_seven.csv --seed 2024 --draws 5",
        2,
        "raire: seen_of_seven.csv: V4 card 1 draw 1\n",
    ),
    (
        "contests two_contests.raire m.csv seen_of_eight.csv --seed 2024 --draws 5",
        2,
        "raire: seen_of_eight.csv: V4 card 1 draw 1\n",
    ),
    (
        "contests two_contests.raire two_cards.csv seen_of_two.csv --seed 2024 --draws 5",
        2,
        "raire: seen_of_two.csv: V4 card 2 draw 2\n",
    ),
    (
        "contests eight_elsewhere.raire m.csv none_seen.csv --seed 2024 --draws 5",
        2,
        "raire: eight_elsewhere.raire: M7 at 5\n",
    ),
    (
        "contests both_elsewhere.raire m.csv none_seen.csv --seed 2024 --draws 5",
        2,
        "raire: both_elsewhere.raire: M7 at 5\n",
    ),
    // What is seen is read before the ballots are linked to their cards.
    (
        "contests eight_elsewhere.raire m.csv seen_of_nine.csv --seed 2024 --draws 5",
        2,
        "raire: seen_of_nine.csv: V6 at 1\n",
    ),
    (
        "contests eight_of_one.raire none.csv none.csv --seed 2024 --draws 5",
        2,
        "raire: eight_of_one.raire: B3 at 3\n",
    ),
    (
        "contests seven_twice.raire m.csv seen_of_seven.csv --seed 2024 --draws 5",
        2,
        "raire: seven_twice.raire: B2 at 3\n",
    ),
    (
        "contests many_contests.raire m.csv seen_of_seven.csv --seed 2024 --draws 5",
        2,
        "raire: many_contests.raire: B1 at 1\n",
    ),
    (
        "contests two_contests.raire no_cards.csv none.csv --seed 2024 --draws 5",
        2,
        "raire: no_cards.csv: M3 at 2\n",
    ),
    (
        "contests two_contests.raire m.csv none.csv --seed 2024 --draws 5",
        12,
        "raire: none.csv: no such file\n",
    ),
    (
        "contests none.raire m.csv seen_of_two.csv --seed 2024 --draws 5",
        12,
        "raire: none.raire: no such file\n",
    ),
    (
        "contests two_contests.raire m.csv seen_of_two.csv --draws 5",
        1,
        BAD_WORDS,
    ),
    (
        "contests two_contests.raire m.csv seen_of_two.csv --seed 2024",
        1,
        BAD_WORDS,
    ),
    (
        "contests two_contests.raire m.csv --seed 2024 --draws 5",
        1,
        BAD_WORDS,
    ),
    (
        "contests two_contests.raire m.csv seen_of_two.csv --seed 2024 --draws 5 --workers 9",
        1,
        BAD_WORDS,
    ),
    (
        "contests two_contests.raire m.csv seen_of_two.csv --seed 2024 --draws 5 --contest 7",
        1,
        BAD_WORDS,
    ),
    (
        "contests two_contests.raire m.csv seen_of_two.csv --seed 2024 --draws 0",
        1,
        BAD_WORDS,
    ),
];
