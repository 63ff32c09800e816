// Why a seen file isn't read.
ghost use Rattle.seen_file.specs.Faults.{rule_name};

use file_fault::{Fault, Rule};

/// The rules of a seen file, as the text of a refusal names them.
#[derive(Clone, Copy, Debug, PartialEq, Eq)]
pub enum VRule {
    /// A record has a card's id and either the word `ballot`, or `missing` with nothing after it.
    V1,
    /// The card is in the manifest.
    V2,
    /// No card is repeated.
    V3,
    /// Each preference is a candidate.
    V5,
    /// If the records are of several contests, the contest is in the ballot file.
    V6,
}

impl Rule for VRule {
    ghost name = { rule_name };

    fn name(self) -> &'static str {
        match self {
            VRule::V1 => "V1",
            VRule::V2 => "V2",
            VRule::V3 => "V3",
            VRule::V5 => "V5",
            VRule::V6 => "V6",
        }
    }
}

/// Why a seen file isn't read. The place is the number of a record, counted from 1 without blank records.
pub type SeenFault = Fault<VRule>;
