// Why a manifest isn't read.
ghost use Rattle.manifest.specs.Faults.{rule_name};

use file_fault::{Fault, Rule};

/// The rules of a manifest, as the text of a refusal names them.
#[derive(Clone, Copy, Debug, PartialEq, Eq)]
pub enum MRule {
    /// The first record is `batch,cards`.
    M1,
    /// Each other record has two fields.
    M2,
    /// The number of cards in a batch.
    M3,
    /// The id of a batch, and that all batch ids are different.
    M4,
    /// The number of all cards.
    M5,
    /// There is a batch.
    M6,
}

impl Rule for MRule {
    ghost name = { rule_name };

    fn name(self) -> &'static str {
        match self {
            MRule::M1 => "M1",
            MRule::M2 => "M2",
            MRule::M3 => "M3",
            MRule::M4 => "M4",
            MRule::M5 => "M5",
            MRule::M6 => "M6",
        }
    }
}

/// Why a manifest isn't read. The place is the number of a record, from 1, not counting blank ones.
pub type ManifestFault = Fault<MRule>;
