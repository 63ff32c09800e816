// Why a claims file isn't read.
ghost use Rattle.std.specs.Prelude.{◌≡◌};
ghost use Rattle.claims_file.specs.Faults.{as_claims_rule, rule_name};

use assertion_file::FRule;
use file_fault::{Fault, Rule};

/// The rules of a claims file, as the text of a refusal names them.
#[derive(Clone, Copy, Debug, PartialEq, Eq)]
pub enum CRule {
    /// The bytes are JSON.
    C1,
    /// Each member is there and of the right kind.
    C2,
    /// The contest is the contest of the ballots.
    C3,
    /// The candidates are those of the contest, and so are the candidates who are named.
    C4,
    /// The rest of a NEN has each candidate once, and has the winner and the loser.
    C5,
}

impl Rule for CRule {
    ghost name = { rule_name };

    fn name(self) -> &'static str {
        match self {
            CRule::C1 => "C1",
            CRule::C2 => "C2",
            CRule::C3 => "C3",
            CRule::C4 => "C4",
            CRule::C5 => "C5",
        }
    }
}

/// Why a claims file isn't read. The place is the number of an assertion, from 1, or 0 for the file's own members.
pub type ClaimsFault = Fault<CRule>;

/// The claims-file rule that an assertion breaks if it breaks this rule of assertion files.
pub(crate) fn as_claims_rule(rule: FRule) -> CRule
    ensures { result ≡ as_claims_rule rule }
{
    match rule {
        FRule::F4 => CRule::C4,
        _ => CRule::C5,
    }
}
