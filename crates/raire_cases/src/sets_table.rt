// Worked cases of calls with a number of sets, also over the files of the other tables. They were worked out by hand, and the trials by a
// plain program (acceptance/plain.py), which shares no code with the suite.
use crate::table::{BAD_WORDS, File, PRINTED, TRIAL_7};

/// The files of these cases: a contest of twenty candidates, an assertion file about it without assertions, and a contest of twelve candidates
/// who are nearly equal.
pub const FILES: [File; 3] = [
    File {
        name: "twenty.raire",
        text: "1\nContest,1,20,1,2,3,4,5,6,7,8,9,10,11,12,13,14,15,16,17,18,19,20\n1,b_1,1\n",
    },
    File {
        name: "none_of_twenty.json",
        text: "\
        {\"assertions\":[],\"candidates\":[\"1\",\"2\",\"3\",\"4\",\"5\",\"6\",\"7\",\"8\",\"9\",\"10\",\"11\",\"12\",\"13\",\"14\",\"15\",\"16\",\"17\",\"18\",\"19\",\"20\"],\
        \"contest\":\"1\",\"margin\":1,\"order\":[\"20\",\"19\",\"18\",\"17\",\"16\",\"15\",\"14\",\"13\",\"12\",\"11\",\"10\",\"9\",\"8\",\"7\",\"6\",\"5\",\"4\",\"3\",\"1\",\"2\"],\
        \"records\":1,\"version\":1,\"winner\":\"1\"}\n",
    },
    File {
        name: "near.raire",
        text: "\
        1\nContest,1,12,1,2,3,4,5,6,7,8,9,10,11,12\n1,b_1,12,9\n1,b_2,12,5,10\n1,b_3,1,6,4,11,9\n1,b_4,3,10\n1,b_5,9,3,4,6,11\n\
        1,b_6,11,3,6,9,8\n1,b_7,8,5\n1,b_8,11,10,7,2\n1,b_9,4,2,10,7,6\n1,b_10,6,7\n1,b_11,12,2,4,5,7\n1,b_12,10,7,6,1\n\
        1,b_13,10,5,9,3,2\n1,b_14,1,5\n1,b_15,10,7,2\n1,b_16,12\n1,b_17,12,2,7,8,6\n1,b_18,3,9,12\n1,b_19,11,9,10,7\n\
        1,b_20,4,2\n1,b_21,12,6,4\n1,b_22,6,11,7,2,9\n1,b_23,6\n1,b_24,8,5,10,12\n1,b_25,4\n1,b_26,9\n1,b_27,2,4,10,5,12\n\
        1,b_28,8,5,2\n1,b_29,4,10,2\n1,b_30,3,4,9,5\n1,b_31,3,2,7,11\n1,b_32,8\n1,b_33,11,8,4,3,1\n1,b_34,6\n1,b_35,1,2,3\n\
        1,b_36,12,4,1,10\n1,b_37,1,12,8\n1,b_38,4,9,5,8\n1,b_39,11\n1,b_40,11,1\n1,b_41,5,9,8\n1,b_42,1,10,11,4\n1,b_43,6,8,10\n\
        1,b_44,3\n1,b_45,5,7,1,10\n1,b_46,1,8,2,5,3\n1,b_47,9,8,6,4,5\n1,b_48,1,4,9,5,7\n1,b_49,11\n1,b_50,3,6,12,5\n",
    },
];

// More sets count than the words give, which is two sets here and one in the next text.
const SPENT_AT_2: &str = "spent\nsets 2\norder 3,2,1\nmargin 2\n";

const SPENT_AT_1: &str = "spent\nsets 1\n";

// 4,059 of the 4,096 sets of the twelve candidates are reached below the best margin.
const NEARLY_EQUAL: &str = "full count\norder 7,2,10,8,9,12,11,5,4,6,1,3\nmargin 1\nfloor 2\n";

/// The lines with their statuses and texts.
pub const CASES: [(&str, u8, &str); 37] = [
    // In row1.raire, {1} is the only set that is reached below the best margin, and {1}, {3} and {1,3} come before the order.
    ("search row1.raire --sets 3", 0, PRINTED),
    ("search row1.raire --sets=1048576", 0, PRINTED),
    ("search row1.raire --sets 3 --workers 1", 0, PRINTED),
    ("search row1.raire --sets 3 --workers 8", 0, PRINTED),
    ("search row1.raire --sets 2", 4, SPENT_AT_2),
    ("search row1.raire --sets 2 --workers 1", 4, SPENT_AT_2),
    ("search row1.raire --sets 2 --workers 8", 4, SPENT_AT_2),
    (
        "search row1.raire --sets 3 --floor 2",
        5,
        "full count\norder 2,1,3\nmargin 1\nfloor 2\n",
    ),
    (
        "search tie.raire --sets 1",
        3,
        "tie\nround 1\ntied a b,c\\d\ntally 1\n",
    ),
    (
        "check row1.raire row1.json --sets 1",
        0,
        "yes\nassertions 3\nmargin 1\n",
    ),
    (
        "check row1.raire no_neb.json --sets 3",
        6,
        "no: order 2,1,3 stands\n",
    ),
    (
        "check row1.raire no_neb.json --sets 2",
        4,
        "spent\nsets 2\n",
    ),
    (
        "check row1.raire empty.json --sets 2",
        6,
        "no: order 3,2,1 stands\n",
    ),
    ("check row1.raire empty.json --sets 1", 4, SPENT_AT_1),
    (
        "check twenty.raire none_of_twenty.json --sets 19",
        6,
        "no: order 20,19,18,17,16,15,14,13,12,11,10,9,8,7,6,5,4,3,1,2 stands\n",
    ),
    (
        "check twenty.raire none_of_twenty.json --sets 18",
        4,
        "spent\nsets 18\n",
    ),
    ("trim row1.raire row1.json --sets 1", 4, SPENT_AT_1),
    (
        "open row1.raire twelve.csv empty.json --seed 1 --sets 1",
        4,
        SPENT_AT_1,
    ),
    (
        "open row1.raire twelve.csv empty.json --seed 1 --sets 2",
        6,
        "no: order 3,2,1 stands\n",
    ),
    (
        "trial --number 7 --candidates 4 --ballots 30 --sets 13",
        0,
        TRIAL_7,
    ),
    (
        "trial --number 7 --sets 1",
        4,
        "spent\nsets 1\norder 6,5,4,3,1,2\nmargin 949\n",
    ),
    (
        "trial --number 7 --sets 1 --workers 8",
        4,
        "spent\nsets 1\norder 6,5,4,3,1,2\nmargin 949\n",
    ),
    (
        "trial --number=7 --sets=64",
        0,
        "number 7\ncandidates 6\nrecords 10000\nwinner 1\nmargin 949\nassertions 12\norder 6,5,4,3,1,2\n",
    ),
    ("search row1.raire --nodes 1 --sets 1", 1, BAD_WORDS),
    ("search row1.raire --sets 1 --nodes 1", 1, BAD_WORDS),
    (
        "check row1.raire row1.json --nodes 1 --sets 1",
        1,
        BAD_WORDS,
    ),
    ("search row1.raire --sets 0", 1, BAD_WORDS),
    ("search row1.raire --sets 1048577", 1, BAD_WORDS),
    ("search row1.raire --sets", 1, BAD_WORDS),
    ("search row1.raire --sets 3 --sets 3", 1, BAD_WORDS),
    ("tabulate row1.raire --sets 1", 1, BAD_WORDS),
    ("plan twelve.csv row1.json --sets 1", 1, BAD_WORDS),
    (
        "poll twelve.csv row1.json none_seen.csv --seed 1 --draws 1 --sets 1",
        1,
        BAD_WORDS,
    ),
    ("trial --number 7 --nodes 1 --sets 1", 1, BAD_WORDS),
    // More than 4,093 sets of twelve candidates never count.
    ("search near.raire --sets 4093 --floor 2", 5, NEARLY_EQUAL),
    ("search near.raire --sets 4059 --floor 2", 5, NEARLY_EQUAL),
    (
        "search near.raire --sets 4058 --floor 2",
        4,
        "spent\nsets 4058\norder 7,2,5,10,8,9,4,11,6,12,1,3\nmargin 1\n",
    ),
];
