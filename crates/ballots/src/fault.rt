// Why a ballot file isn't read.
ghost use Rattle.ballots.specs.Faults.{rule_name};

use file_fault::{Fault, Rule};

/// The rules of a ballot file, as the text of a refusal names them.
#[derive(Clone, Copy, Debug, PartialEq, Eq)]
pub enum BRule {
    /// The number of contests.
    B1,
    /// The form of a contest's record, and that all contests are different.
    B2,
    /// The number of candidates.
    B3,
    /// The ids, and that no candidate is named twice.
    B4,
    /// The contest that was asked for.
    B5,
    /// The fields of a ballot's record.
    B6,
    /// The contest of a ballot.
    B7,
    /// The preferences of a ballot.
    B8,
    /// That all ballot ids of a contest are different.
    B9,
    /// The number of ballots.
    B10,
}

impl Rule for BRule {
    ghost name = { rule_name };

    fn name(self) -> &'static str {
        match self {
            BRule::B1 => "B1",
            BRule::B2 => "B2",
            BRule::B3 => "B3",
            BRule::B4 => "B4",
            BRule::B5 => "B5",
            BRule::B6 => "B6",
            BRule::B7 => "B7",
            BRule::B8 => "B8",
            BRule::B9 => "B9",
            BRule::B10 => "B10",
        }
    }
}

/// Why a ballot file isn't read. The place is the number of a record, from 1, not counting blank ones.
pub type BallotFault = Fault<BRule>;
