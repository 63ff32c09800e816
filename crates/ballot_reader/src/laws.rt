//! The laws of ballot files. They have no code.
ghost use Rattle.std.specs.Prelude.{◌≡◌};
ghost use Rattle.ballot_reader.specs.Laws.{ContestsAreEach, NoneIsMissed, WhatIsSpelledIsRead};
ghost use Rattle.ballots.specs.declared.limits.TheConstants as limit;
ghost use Rattle.ballot_reader.specs.declared.stage.TheConstants as stage;
ghost use Rattle.ballot_reader.specs.declared.votes_reader.TheConstants as reader;

/// The records that spell one contest and its ballots, record by record, are read as that contest and those ballots.
pub fn what_is_spelled_is_read()
    ensures { WhatIsSpelledIsRead }
{}

/// Reading all contests of a file gives what reading each of them by its id gives, in order. The file is refused exactly if one of them is,
/// and the refusal is the one that comes first. It is never refused by B5.
pub fn contests_are_each()
    ensures each { ContestsAreEach }
    ensures none_missed { NoneIsMissed }
{}

/// The numbers of the limits.
pub fn limits()
    ensures most_contests { limit.MOST_CONTESTS ≡ 64 }
    ensures most_listed { limit.MOST_LISTED ≡ 1000 }
    ensures side_by_side { reader.SIDE_BY_SIDE ≡ 6291456 }
    ensures of_contests { stage.MOST_OF_CONTESTS ≡ 4194304 }
{}
