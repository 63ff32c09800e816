// Why an assertion file isn't read.
ghost use Rattle.assertion_file.specs.Faults.{rule_name};

use file_fault::{Fault, Rule};

/// The rules of an assertion file, as the text of a refusal names them.
#[derive(Clone, Copy, Debug, PartialEq, Eq)]
pub enum FRule {
    /// The bytes are JSON.
    F1,
    /// Each member is there and of the right kind.
    F2,
    /// The version of the form.
    F3,
    /// Ids: those of the contest and of the candidates, and those of the candidates who are named.
    F4,
    /// The order has each candidate once, and the rest of a NEN has each of its candidates once.
    F5,
    /// The number of records, and the margins.
    F6,
}

impl Rule for FRule {
    ghost name = { rule_name };

    fn name(self) -> &'static str {
        match self {
            FRule::F1 => "F1",
            FRule::F2 => "F2",
            FRule::F3 => "F3",
            FRule::F4 => "F4",
            FRule::F5 => "F5",
            FRule::F6 => "F6",
        }
    }
}

/// Why an assertion file isn't read. The place is the number of an assertion, from 1, or 0 for the file's own members.
pub type FileFault = Fault<FRule>;
