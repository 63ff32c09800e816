// The worked cases of ties, of a budget that leaves open whether a tie matters, and of the maximum number of candidates, over the files of
// `table`.

use crate::table::NONE_FOR_TWO_PRINTED;

const FOR_SECOND_PRINTED: &str = "\
    {\"assertions\":[{\"kind\":\"NEB\",\"loser\":\"2\",\"margin\":3,\"winner\":\"1\"},{\"kind\":\"NEB\",\"loser\":\"3\",\"margin\":3,\
    \"winner\":\"1\"},{\"kind\":\"NEB\",\"loser\":\"4\",\"margin\":4,\"winner\":\"1\"}],\"candidates\":[\"1\",\"2\",\"3\",\"4\"],\
    \"contest\":\"1\",\"margin\":3,\"order\":[\"4\",\"1\",\"3\",\"2\"],\"records\":10,\"version\":1,\"winner\":\"1\"}\n";

const MOST_PRINTED: &str = "\
    {\"assertions\":[{\"kind\":\"NEB\",\"loser\":\"2\",\"margin\":1,\"winner\":\"1\"},{\"kind\":\"NEB\",\"loser\":\"3\",\"margin\":1,\
    \"winner\":\"1\"},{\"kind\":\"NEB\",\"loser\":\"4\",\"margin\":1,\"winner\":\"1\"},{\"kind\":\"NEB\",\"loser\":\"5\",\"margin\":1,\
    \"winner\":\"1\"},{\"kind\":\"NEB\",\"loser\":\"6\",\"margin\":1,\"winner\":\"1\"},{\"kind\":\"NEB\",\"loser\":\"7\",\"margin\":1,\
    \"winner\":\"1\"},{\"kind\":\"NEB\",\"loser\":\"8\",\"margin\":1,\"winner\":\"1\"},{\"kind\":\"NEB\",\"loser\":\"9\",\"margin\":1,\
    \"winner\":\"1\"},{\"kind\":\"NEB\",\"loser\":\"10\",\"margin\":1,\"winner\":\"1\"},{\"kind\":\"NEB\",\"loser\":\"11\",\"margin\":1,\
    \"winner\":\"1\"},{\"kind\":\"NEB\",\"loser\":\"12\",\"margin\":1,\"winner\":\"1\"},{\"kind\":\"NEB\",\"loser\":\"13\",\"margin\":1,\
    \"winner\":\"1\"},{\"kind\":\"NEB\",\"loser\":\"14\",\"margin\":1,\"winner\":\"1\"},{\"kind\":\"NEB\",\"loser\":\"15\",\"margin\":1,\
    \"winner\":\"1\"},{\"kind\":\"NEB\",\"loser\":\"16\",\"margin\":1,\"winner\":\"1\"},{\"kind\":\"NEB\",\"loser\":\"17\",\"margin\":1,\
    \"winner\":\"1\"},{\"kind\":\"NEB\",\"loser\":\"18\",\"margin\":1,\"winner\":\"1\"},{\"kind\":\"NEB\",\"loser\":\"19\",\"margin\":1,\
    \"winner\":\"1\"},{\"kind\":\"NEB\",\"loser\":\"20\",\"margin\":1,\"winner\":\"1\"},{\"kind\":\"NEB\",\"loser\":\"21\",\"margin\":1,\
    \"winner\":\"1\"},{\"kind\":\"NEB\",\"loser\":\"22\",\"margin\":1,\"winner\":\"1\"},{\"kind\":\"NEB\",\"loser\":\"23\",\"margin\":1,\
    \"winner\":\"1\"},{\"kind\":\"NEB\",\"loser\":\"24\",\"margin\":1,\"winner\":\"1\"},{\"kind\":\"NEB\",\"loser\":\"25\",\"margin\":1,\
    \"winner\":\"1\"},{\"kind\":\"NEB\",\"loser\":\"26\",\"margin\":1,\"winner\":\"1\"},{\"kind\":\"NEB\",\"loser\":\"27\",\"margin\":1,\
    \"winner\":\"1\"},{\"kind\":\"NEB\",\"loser\":\"28\",\"margin\":1,\"winner\":\"1\"},{\"kind\":\"NEB\",\"loser\":\"29\",\"margin\":1,\
    \"winner\":\"1\"},{\"kind\":\"NEB\",\"loser\":\"30\",\"margin\":1,\"winner\":\"1\"},{\"kind\":\"NEB\",\"loser\":\"31\",\"margin\":1,\
    \"winner\":\"1\"},{\"kind\":\"NEB\",\"loser\":\"32\",\"margin\":1,\"winner\":\"1\"}],\"candidates\":[\"1\",\"2\",\"3\",\"4\",\"5\",\
    \"6\",\"7\",\"8\",\"9\",\"10\",\"11\",\"12\",\"13\",\"14\",\"15\",\"16\",\"17\",\"18\",\"19\",\"20\",\"21\",\"22\",\"23\",\"24\",\
    \"25\",\"26\",\"27\",\"28\",\"29\",\"30\",\"31\",\"32\"],\"contest\":\"1\",\"margin\":1,\"order\":[\"32\",\"31\",\"30\",\"29\",\"28\",\
    \"27\",\"26\",\"25\",\"24\",\"23\",\"22\",\"21\",\"20\",\"19\",\"18\",\"17\",\"16\",\"15\",\"14\",\"13\",\"12\",\"11\",\"10\",\"9\",\
    \"8\",\"7\",\"6\",\"5\",\"4\",\"3\",\"1\",\"2\"],\"records\":1,\"version\":1,\"winner\":\"1\"}\n";

const NONE_FOR_TWO_ROUNDS: &str =
    "contest 1\nrecords 3\nround 1: 1=3 2=0 3=0 exhausted=0\ntied 2,3\neliminated 2\nround 2: 1=3 3=0 exhausted=0\neliminated 3\nwinner 1\n";

const FOR_SECOND_ROUNDS: &str =
    "contest 1\nrecords 10\nround 1: 1=5 2=2 3=2 4=1 exhausted=0\neliminated 4\nround 2: 1=5 2=2 3=2 exhausted=1\ntied 2,3\neliminated 2\nround 3: 1=5 3=2 exhausted=3\neliminated 3\nwinner 1\n";

const FOUR_ROUNDS: &str =
    "contest 1\nrecords 4\nround 1: 1=0 2=2 3=1 4=1 exhausted=0\neliminated 1\nround 2: 2=2 3=1 4=1 exhausted=0\ntied 3,4\neliminated 3\nround 3: 2=3 4=1 exhausted=0\neliminated 4\nwinner 2\n";

const OF_ALL_FOUR: &str = "tie\nround 1\ntied 1,2,3,4\ntally 1\n";

const OF_ALL_THREE: &str = "tie\nround 1\ntied 1,2,3\ntally 0\n";

const OF_ONE_EACH: &str = "tie\nround 1\ntied 1,2,3\ntally 1\n";

const OF_THE_FIRST_TWO: &str = "tie\nround 2\ntied 1,2\ntally 2\n";

const OF_THE_OTHER_TWO: &str = "tie\nround 1\ntied 2,3\ntally 2\n";

const OF_TWO_WITHOUT: &str = "tie\nround 1\ntied 1,2\ntally 0\n";

const FIRST_OF_TWO: &str = "tie\nround 1\ntied 3,4\ntally 0\n";

/// The words of a call, its status, and the text that goes to `out` if it is an answer, and to `err` otherwise.
pub const CASES: [(&str, u8, &str); 24] = [
    ("search none_for_two.raire", 0, NONE_FOR_TWO_PRINTED),
    ("tabulate none_for_two.raire", 0, NONE_FOR_TWO_ROUNDS),
    (
        "check none_for_two.raire none_for_two.json",
        0,
        "yes\nassertions 2\nmargin 3\n",
    ),
    ("search for_second.raire", 0, FOR_SECOND_PRINTED),
    ("tabulate for_second.raire", 0, FOR_SECOND_ROUNDS),
    ("search no_ballots.raire", 3, OF_ALL_THREE),
    ("tabulate no_ballots.raire", 3, OF_ALL_THREE),
    ("search two_without.raire", 3, OF_TWO_WITHOUT),
    ("tabulate two_without.raire", 3, OF_TWO_WITHOUT),
    ("search one_each.raire", 3, OF_ONE_EACH),
    ("search for_the_win.raire", 3, OF_THE_FIRST_TWO),
    ("search for_the_win.raire --nodes 1", 3, OF_THE_FIRST_TWO),
    ("tabulate for_the_win.raire", 3, OF_THE_FIRST_TWO),
    ("tabulate for_the_win.raire --nodes 1", 3, OF_THE_FIRST_TWO),
    ("search for_a_place.raire", 3, OF_THE_OTHER_TWO),
    ("tabulate for_a_place.raire", 3, OF_THE_OTHER_TWO),
    ("search two_ties.raire", 3, FIRST_OF_TWO),
    ("tabulate two_ties.raire", 3, FIRST_OF_TWO),
    (
        "tabulate four.raire --nodes 1",
        4,
        "spent\ncandidate 3\norder 1,3,2,4\nmargin 2\n",
    ),
    ("tabulate four.raire", 0, FOUR_ROUNDS),
    (
        "tabulate four_open.raire --nodes 1",
        4,
        "spent\ncandidate 1\norder 1,2,4,3\nmargin 1\n",
    ),
    ("tabulate four_open.raire", 3, OF_ALL_FOUR),
    ("search most.raire", 0, MOST_PRINTED),
    (
        "search one_more.raire",
        2,
        "raire: one_more.raire: B3 at 2\n",
    ),
];
