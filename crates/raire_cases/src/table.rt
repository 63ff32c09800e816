// The worked cases: the files, and what a call over them comes to. The certificates and rounds were worked out by hand or by a plain program
// (acceptance/plain.py), which shares no code with the suite.

/// The ballots of row1.raire.
pub const BALLOTS: &str =
    "1\nContest,1,3,1,2,3\n1,t_1,1\n1,t_2,1\n1,t_3,1\n1,t_4,1\n1,t_5,1\n1,t_6,2,3\n1,t_7,2,3\n1,t_8,2,3\n1,t_9,2,3\n1,t_10,3,2\n1,t_11,3,2\n1,t_12,3,2\n";

/// The assertion file that a search of these ballots prints.
pub const PRINTED: &str = "\
    {\"assertions\":[{\"kind\":\"NEB\",\"loser\":\"3\",\"margin\":1,\"winner\":\"2\"},{\"kind\":\"NEN\",\"loser\":\"1\",\"margin\":2,\
    \"rest\":[\"1\",\"2\"],\"winner\":\"2\"},{\"kind\":\"NEN\",\"loser\":\"1\",\"margin\":2,\"rest\":[\"1\",\"3\"],\"winner\":\"3\"}],\
    \"candidates\":[\"1\",\"2\",\"3\"],\"contest\":\"1\",\"margin\":1,\"order\":[\"2\",\"1\",\"3\"],\"records\":12,\"version\":1,\
    \"winner\":\"2\"}\n";

/// The assertion file that a search of none_for_two.raire prints.
pub const NONE_FOR_TWO_PRINTED: &str = "\
    {\"assertions\":[{\"kind\":\"NEB\",\"loser\":\"2\",\"margin\":3,\"winner\":\"1\"},{\"kind\":\"NEB\",\"loser\":\"3\",\"margin\":3,\
    \"winner\":\"1\"}],\"candidates\":[\"1\",\"2\",\"3\"],\"contest\":\"1\",\"margin\":3,\"order\":[\"3\",\"1\",\"2\"],\"records\":3,\
    \"version\":1,\"winner\":\"1\"}\n";

/// A file of a case.
pub struct File {
    /// The file's name, as the words of a call give it.
    pub name: &'static str,
    /// What the file holds.
    pub text: &'static str,
}

/// The files of the commands on a contest.
pub const FILES: [File; 27] = [
    File {
        name: "five.raire",
        text: "1\nContest,1,2,1,2\n1,t_1,1\n1,t_2,1\n1,t_3,1\n1,t_4,2\n1,t_5,2\n",
    },
    File {
        name: "tie.raire",
        text: "1\nContest,7,2,a b,c\\d\n7,b_1,a b\n7,b_2,c\\d\n",
    },
    File {
        name: "later.raire",
        text: "1\nContest,7,2,a b,c\\d\n7,b_1,c\\d,a b\n7,b_2\n7,b_3,c\\d\n",
    },
    File {
        name: "row1.raire",
        text: BALLOTS,
    },
    File {
        name: "county.raire",
        text: "\
        1\nContest,339,4,15,16,17,18,winner,16\n339,99813_1_1,16\n339,99813_1_2,16\n339,99813_1_3,16\n339,99813_1_4,16\n339,99813_1_5,17\n\
        339,99813_1_6,17\n339,99813_1_7,17\n339,99813_1_8,18,17\n339,99813_1_9,18\n339,99813_1_10,15,16\n",
    },
    File {
        name: "council.raire",
        text: "\
        1\nContest,311,5,61,62,63,64,65\n311,70100_1_1,62,63,64\n311,70100_1_2,61,65,64\n311,70100_1_3,61,64,63,62\n\
        311,70100_1_4,61,63,65,62,64\n311,70100_1_5,65\n311,70100_1_6,64\n311,70100_1_7,63,65,64,62,61\n311,70100_1_8,65\n\
        311,70100_1_9,62,61\n311,70100_1_10,61,62,63,65\n311,70100_1_11,61\n311,70100_1_12,65,61,64\n311,70100_1_13,61,65\n\
        311,70100_1_14,65\n311,70100_1_15,61,63\n311,70100_1_16,63\n311,70100_1_17,62,65,61,63\n311,70100_1_18,63\n311,70100_1_19,61,62\n\
        311,70100_1_20,61,64,63,65\n311,70100_1_21,61,64,63\n311,70100_1_22,61,62,64\n311,70100_1_23,65\n311,70100_1_24,61\n\
        311,70100_1_25,64,62,65\n311,70100_1_26,63\n311,70100_1_27,65,64,61,62\n311,70100_1_28,61\n311,70100_1_29,63,64\n\
        311,70100_1_30,62\n311,70100_1_31,63,65\n311,70100_1_32,62,61,63\n311,70100_1_33,64\n311,70100_1_34,64\n311,70100_1_35,62,64\n\
        311,70100_1_36,65,62,64,63\n311,70100_1_37,61,63,64,62\n311,70100_1_38,61\n311,70100_1_39,62,61,64\n311,70100_1_40,61\n\
        311,70100_1_41,61,64,62\n311,70100_1_42,61,63,65,64,62\n311,70100_1_43,65,63,61,64,62\n311,70100_1_44,61,64,62\n",
    },
    File {
        name: "marked.raire",
        text: "﻿1\nContest,1,3,1,2,3\n  \n1,t_1,1\n1,t_2,1\n1,t_3,1\n1,t_4,1\n1,t_5,1\n1,t_6,2,3\n1,t_7,2,3\n1,t_8,2,3\n1,t_9,2,3\n1,t_10,3,2\n1,t_11,3,2\n1,t_12,3,2\n",
    },
    File {
        name: "none_for_two.raire",
        text: "1\nContest,1,3,1,2,3\n1,t_1,1\n1,t_2,1\n1,t_3,1\n",
    },
    File {
        name: "no_ballots.raire",
        text: "1\nContest,1,3,1,2,3\n",
    },
    File {
        name: "two_without.raire",
        text: "1\nContest,1,2,1,2\n",
    },
    File {
        name: "one_each.raire",
        text: "1\nContest,1,3,1,2,3\n1,b_1,1\n1,b_2,2\n1,b_3,3\n",
    },
    File {
        name: "for_the_win.raire",
        text: "1\nContest,1,3,1,2,3\n1,b_1,1\n1,b_2,1\n1,b_3,2\n1,b_4,2\n1,b_5,3\n",
    },
    File {
        name: "for_second.raire",
        text: "\
        1\nContest,1,4,1,2,3,4\n1,b_1,1\n1,b_2,1\n1,b_3,1\n1,b_4,1\n1,b_5,1\n1,b_6,2\n1,b_7,2\n1,b_8,3,1\n1,b_9,3\n1,b_10,4\n",
    },
    File {
        name: "for_a_place.raire",
        text: "1\nContest,1,3,1,2,3\n1,b_1,1\n1,b_2,1\n1,b_3,1\n1,b_4,2,3\n1,b_5,2,3\n1,b_6,3,2\n1,b_7,3,2\n",
    },
    File {
        name: "two_ties.raire",
        text: "1\nContest,1,4,1,2,3,4\n1,b_1,1\n1,b_2,1\n1,b_3,2\n1,b_4,2\n",
    },
    File {
        name: "four.raire",
        text: "1\nContest,1,4,1,2,3,4\n1,b_1,2\n1,b_2,4\n1,b_3,2\n1,b_4,3,2\n",
    },
    File {
        name: "four_open.raire",
        text: "1\nContest,1,4,1,2,3,4\n1,b_1,2,4\n1,b_2,1\n1,b_3,4\n1,b_4,3\n",
    },
    File {
        name: "most.raire",
        text: "\
        1\nContest,1,32,1,2,3,4,5,6,7,8,9,10,11,12,13,14,15,16,17,18,19,20,21,22,23,24,25,26,27,28,29,30,31,32\n1,b_1,1\n",
    },
    File {
        name: "one_more.raire",
        text: "\
        1\nContest,1,33,1,2,3,4,5,6,7,8,9,10,11,12,13,14,15,16,17,18,19,20,21,22,23,24,25,26,27,28,29,30,31,32,33\n1,b_1,1\n",
    },
    File {
        name: "six.raire",
        text: "\
        1\nContest,6,6,1,2,3,4,5,6\n6,b_1,1\n6,b_2,1\n6,b_3,1\n6,b_4,1\n6,b_5,1\n6,b_6,1\n6,b_7,1\n6,b_8,1\n6,b_9,2,1\n6,b_10,2,1\n\
        6,b_11,2,1\n6,b_12,2,1\n6,b_13,2,1\n6,b_14,2,1\n6,b_15,3,2\n6,b_16,3,2\n6,b_17,3,2\n6,b_18,3,2\n6,b_19,3,2\n6,b_20,4,1\n\
        6,b_21,4,1\n6,b_22,4,1\n6,b_23,4,1\n6,b_24,5,4\n6,b_25,5,4\n6,b_26,6,5\n",
    },
    File {
        name: "cut.raire",
        text: "1\nContest,1,3,1,2",
    },
    File {
        name: "row1.json",
        text: PRINTED,
    },
    File {
        name: "no_neb.json",
        text: "\
        {\"assertions\":[{\"kind\":\"NEN\",\"loser\":\"1\",\"margin\":2,\"rest\":[\"1\",\"2\"],\"winner\":\"2\"},{\"kind\":\"NEN\",\
        \"loser\":\"1\",\"margin\":2,\"rest\":[\"1\",\"3\"],\"winner\":\"3\"}],\"candidates\":[\"1\",\"2\",\"3\"],\"contest\":\"1\",\
        \"margin\":1,\"order\":[\"2\",\"1\",\"3\"],\"records\":12,\"version\":1,\"winner\":\"2\"}\n",
    },
    File {
        name: "empty.json",
        text: "{\"assertions\":[],\"candidates\":[\"1\",\"2\",\"3\"],\"contest\":\"1\",\"margin\":1,\"order\":[\"2\",\"1\",\"3\"],\"records\":12,\"version\":1,\"winner\":\"2\"}\n",
    },
    File {
        name: "rest_of_one.json",
        text: "\
        {\"assertions\":[{\"kind\":\"NEB\",\"loser\":\"3\",\"margin\":1,\"winner\":\"2\"},{\"kind\":\"NEN\",\"loser\":\"1\",\"margin\":2,\
        \"rest\":[\"1\"],\"winner\":\"2\"},{\"kind\":\"NEN\",\"loser\":\"1\",\"margin\":2,\"rest\":[\"1\",\"3\"],\"winner\":\"3\"}],\
        \"candidates\":[\"1\",\"2\",\"3\"],\"contest\":\"1\",\"margin\":1,\"order\":[\"2\",\"1\",\"3\"],\"records\":12,\"version\":1,\
        \"winner\":\"2\"}\n",
    },
    File {
        name: "none_for_two.json",
        text: NONE_FOR_TWO_PRINTED,
    },
    File {
        name: "tie.json",
        text: "\
        {\"assertions\":[{\"kind\":\"NEB\",\"loser\":\"c\\\\d\",\"margin\":1,\"winner\":\"a b\"}],\"candidates\":[\"a b\",\"c\\\\d\"],\
        \"contest\":\"7\",\"margin\":1,\"order\":[\"a b\",\"c\\\\d\"],\"records\":2,\"version\":1,\"winner\":\"a b\"}\n",
    },
];

/// What is printed for words that aren't a command line.
pub const BAD_WORDS: &str = "raire: bad words\n";

const FIVE_PRINTED: &str = "\
    {\"assertions\":[{\"kind\":\"NEB\",\"loser\":\"2\",\"margin\":1,\"winner\":\"1\"}],\"candidates\":[\"1\",\"2\"],\"contest\":\"1\",\
    \"margin\":1,\"order\":[\"1\",\"2\"],\"records\":5,\"version\":1,\"winner\":\"1\"}\n";

const LATER_PRINTED: &str = "\
    {\"assertions\":[{\"kind\":\"NEB\",\"loser\":\"a b\",\"margin\":2,\"winner\":\"c\\\\d\"}],\"candidates\":[\"a b\",\"c\\\\d\"],\
    \"contest\":\"7\",\"margin\":2,\"order\":[\"c\\\\d\",\"a b\"],\"records\":3,\"version\":1,\"winner\":\"c\\\\d\"}\n";

const COUNTY_PRINTED: &str = "\
    {\"assertions\":[{\"kind\":\"NEB\",\"loser\":\"15\",\"margin\":3,\"winner\":\"16\"},{\"kind\":\"NEB\",\"loser\":\"18\",\"margin\":2,\
    \"winner\":\"16\"},{\"kind\":\"NEN\",\"loser\":\"17\",\"margin\":1,\"rest\":[\"16\",\"17\"],\"winner\":\"16\"}],\"candidates\":[\"15\",\
    \"16\",\"17\",\"18\"],\"contest\":\"339\",\"margin\":1,\"order\":[\"18\",\"15\",\"16\",\"17\"],\"records\":10,\"version\":1,\
    \"winner\":\"16\"}\n";

const COUNCIL_PRINTED: &str = "\
    {\"assertions\":[{\"kind\":\"NEB\",\"loser\":\"63\",\"margin\":10,\"winner\":\"61\"},{\"kind\":\"NEN\",\"loser\":\"62\",\"margin\":12,\
    \"rest\":[\"61\",\"62\"],\"winner\":\"61\"},{\"kind\":\"NEN\",\"loser\":\"62\",\"margin\":11,\"rest\":[\"61\",\"62\",\"65\"],\
    \"winner\":\"61\"},{\"kind\":\"NEN\",\"loser\":\"64\",\"margin\":15,\"rest\":[\"61\",\"64\"],\"winner\":\"61\"},{\"kind\":\"NEN\",\
    \"loser\":\"64\",\"margin\":14,\"rest\":[\"61\",\"62\",\"64\"],\"winner\":\"61\"},{\"kind\":\"NEN\",\"loser\":\"64\",\"margin\":15,\
    \"rest\":[\"61\",\"64\",\"65\"],\"winner\":\"61\"},{\"kind\":\"NEN\",\"loser\":\"64\",\"margin\":14,\"rest\":[\"61\",\"62\",\"64\",\
    \"65\"],\"winner\":\"61\"},{\"kind\":\"NEN\",\"loser\":\"65\",\"margin\":10,\"rest\":[\"61\",\"65\"],\"winner\":\"61\"}],\
    \"candidates\":[\"61\",\"62\",\"63\",\"64\",\"65\"],\"contest\":\"311\",\"margin\":10,\"order\":[\"64\",\"63\",\"62\",\"61\",\"65\"],\
    \"records\":44,\"version\":1,\"winner\":\"61\"}\n";

const SIX_PRINTED: &str = "\
    {\"assertions\":[{\"kind\":\"NEB\",\"loser\":\"3\",\"margin\":3,\"winner\":\"1\"},{\"kind\":\"NEB\",\"loser\":\"4\",\"margin\":2,\
    \"winner\":\"1\"},{\"kind\":\"NEB\",\"loser\":\"5\",\"margin\":5,\"winner\":\"1\"},{\"kind\":\"NEB\",\"loser\":\"6\",\"margin\":7,\
    \"winner\":\"1\"},{\"kind\":\"NEN\",\"loser\":\"2\",\"margin\":1,\"rest\":[\"1\",\"2\"],\"winner\":\"1\"}],\"candidates\":[\"1\",\"2\",\
    \"3\",\"4\",\"5\",\"6\"],\"contest\":\"6\",\"margin\":1,\"order\":[\"6\",\"5\",\"4\",\"3\",\"1\",\"2\"],\"records\":26,\"version\":1,\
    \"winner\":\"1\"}\n";

/// What a trial with the number 7, four candidates and thirty ballots prints.
pub const TRIAL_7: &str =
    "number 7\ncandidates 4\nrecords 30\nwinner 1\nmargin 5\nassertions 3\norder 4,3,1,2\n";

const SPENT: &str = "spent\ncandidate 3\norder 2,1,3\nmargin 1\n";

const ROW_1_ROUNDS: &str =
    "contest 1\nrecords 12\nround 1: 1=5 2=4 3=3 exhausted=0\neliminated 3\nround 2: 1=5 2=7 exhausted=0\neliminated 1\nwinner 2\n";

const COUNTY_ROUNDS: &str =
    "contest 339\nrecords 10\nround 1: 15=1 16=4 17=3 18=2 exhausted=0\neliminated 15\nround 2: 16=5 17=3 18=2 exhausted=0\neliminated 18\nround 3: 16=5 17=4 exhausted=1\neliminated 17\nwinner 16\n";

/// The words of a call, its status, and the text that goes to `out` if it is an answer, and to `err` otherwise.
pub const CASES: [(&str, u8, &str); 71] = [
    ("search five.raire", 0, FIVE_PRINTED),
    ("search later.raire", 0, LATER_PRINTED),
    (
        "search tie.raire",
        3,
        "tie\nround 1\ntied a b,c\\d\ntally 1\n",
    ),
    ("search row1.raire", 0, PRINTED),
    ("search marked.raire", 0, PRINTED),
    ("search county.raire", 0, COUNTY_PRINTED),
    ("search council.raire", 0, COUNCIL_PRINTED),
    ("search six.raire", 0, SIX_PRINTED),
    ("search row1.raire --nodes 2", 0, PRINTED),
    ("search row1.raire --nodes 1", 4, SPENT),
    ("search row1.raire --nodes 3", 0, PRINTED),
    ("search row1.raire --nodes=4", 0, PRINTED),
    ("search row1.raire --workers 1", 0, PRINTED),
    ("search row1.raire --workers 2", 0, PRINTED),
    ("search row1.raire --workers 4", 0, PRINTED),
    ("search row1.raire --workers 8", 0, PRINTED),
    ("search --workers=08 row1.raire", 0, PRINTED),
    ("search row1.raire --nodes 1 --workers 1", 4, SPENT),
    ("search row1.raire --nodes 1 --workers 2", 4, SPENT),
    ("search row1.raire --nodes 1 --workers 4", 4, SPENT),
    ("search row1.raire --nodes 1 --workers 8", 4, SPENT),
    ("search row1.raire --nodes 3 --workers 1", 0, PRINTED),
    ("search row1.raire --nodes 3 --workers 2", 0, PRINTED),
    ("search row1.raire --nodes 3 --workers 4", 0, PRINTED),
    ("search row1.raire --nodes 3 --workers 8", 0, PRINTED),
    ("search row1.raire --workers 0", 1, BAD_WORDS),
    ("search row1.raire --workers 9", 1, BAD_WORDS),
    ("search row1.raire --workers 2 --workers 2", 1, BAD_WORDS),
    ("search row1.raire --workers", 1, BAD_WORDS),
    ("search --workers row1.raire", 1, BAD_WORDS),
    ("check row1.raire row1.json --workers 1", 1, BAD_WORDS),
    ("search --floor 1 row1.raire", 0, PRINTED),
    (
        "search row1.raire --floor 2",
        5,
        "full count\norder 2,1,3\nmargin 1\nfloor 2\n",
    ),
    ("tabulate row1.raire", 0, ROW_1_ROUNDS),
    ("tabulate county.raire", 0, COUNTY_ROUNDS),
    (
        "tabulate tie.raire",
        3,
        "tie\nround 1\ntied a b,c\\d\ntally 1\n",
    ),
    ("search --contest 1 row1.raire", 0, PRINTED),
    ("search --contest=1 -- row1.raire", 0, PRINTED),
    (
        "search row1.raire --contest 2",
        2,
        "raire: row1.raire: B5 at 1\n",
    ),
    ("search cut.raire", 2, "raire: cut.raire: B3 at 2\n"),
    ("search", 1, BAD_WORDS),
    ("search five.raire tie.raire", 1, BAD_WORDS),
    ("find five.raire", 1, BAD_WORDS),
    ("search -five.raire", 1, BAD_WORDS),
    ("search row1.raire --contest", 1, BAD_WORDS),
    ("search --contest 1 --contest 1 row1.raire", 1, BAD_WORDS),
    ("search row1.raire --floor 0", 1, BAD_WORDS),
    ("tabulate row1.raire --nodes 1", 0, ROW_1_ROUNDS),
    ("tabulate row1.raire --nodes 0", 1, BAD_WORDS),
    ("tabulate row1.raire --floor 1", 1, BAD_WORDS),
    ("search none.raire", 12, "raire: none.raire: no such file\n"),
    (
        "check row1.raire row1.json",
        0,
        "yes\nassertions 3\nmargin 1\n",
    ),
    (
        "check --nodes=1 --contest 1 -- row1.raire row1.json",
        0,
        "yes\nassertions 3\nmargin 1\n",
    ),
    (
        "check row1.raire no_neb.json",
        6,
        "no: order 2,1,3 stands\n",
    ),
    (
        "check row1.raire empty.json --nodes 2",
        6,
        "no: order 3,2,1 stands\n",
    ),
    (
        "check row1.raire empty.json --nodes 1",
        4,
        "spent\ncandidate 1\n",
    ),
    ("check tie.raire tie.json", 6, "no: winner is c\\d\n"),
    ("check tie.raire row1.json", 6, "no: contest differs\n"),
    (
        "check row1.raire rest_of_one.json",
        2,
        "raire: rest_of_one.json: F5 at 2\n",
    ),
    (
        "check row1.raire row1.raire",
        2,
        "raire: row1.raire: F1 at 0\n",
    ),
    (
        "check cut.raire none.json",
        2,
        "raire: cut.raire: B3 at 2\n",
    ),
    (
        "check row1.raire none.json",
        12,
        "raire: none.json: no such file\n",
    ),
    ("check row1.raire", 1, BAD_WORDS),
    ("check row1.raire row1.json --floor 1", 1, BAD_WORDS),
    (
        "trial --number 0 --candidates 2 --ballots 1",
        0,
        "number 0\ncandidates 2\nrecords 1\nwinner 1\nmargin 1\nassertions 1\norder 1,2\n",
    ),
    ("trial --number 7 --candidates 4 --ballots 30", 0, TRIAL_7),
    (
        "trial --number 7 --candidates 4 --ballots 30 --workers 1",
        0,
        TRIAL_7,
    ),
    (
        "trial --workers=8 --ballots=30 --candidates=4 --number=7",
        0,
        TRIAL_7,
    ),
    (
        "trial --number 1 --candidates 3 --ballots 2",
        0,
        "number 1\ncandidates 3\nrecords 2\nwinner 1\nmargin 2\nassertions 2\norder 3,1,2\n",
    ),
    (
        "trial --number 7 --candidates 4 --ballots 30 --nodes 1 --workers 1",
        4,
        "spent\ncandidate 2\norder 4,3,1,2\nmargin 5\n",
    ),
    ("trial", 1, BAD_WORDS),
];

/// The words of a call, the desk calls and the writes of both sinks that fail, its status, and its line on `err`.
pub const FAILING: [(&str, &[u32], &[u32], u8, &str); 6] = [
    (
        "search five.raire",
        &[3],
        &[],
        7,
        "raire: five.raire: read fault\n",
    ),
    ("search five.raire", &[], &[1], 8, ""),
    ("search", &[], &[1], 8, ""),
    (
        "check row1.raire row1.json",
        &[2],
        &[],
        7,
        "raire: row1.raire: read fault\n",
    ),
    (
        "check row1.raire row1.json",
        &[5],
        &[],
        7,
        "raire: row1.json: read fault\n",
    ),
    ("check row1.raire row1.json", &[], &[1], 8, ""),
];
