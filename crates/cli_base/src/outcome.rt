// The outcome of a call, before anything is written.
ghost use Rattle.std.specs.Prelude.{◌≡◌};
ghost use Rattle.cli_base.specs.Outcome.{status_of, refusal_status};
ghost use Rattle.cli_base.specs.declared.outcome.Refusal.TheVariants.{Memory as OutOfMemory};

use irv_base::Memory;
use std::alloc::{AllocError, AllocFailed};

/// The kinds of answer. An answer goes to `out`.
#[derive(Clone, Copy, Debug, PartialEq, Eq)]
pub enum AnswerKind {
    /// What was asked for.
    Done,
    /// Ways of breaking the ties of the contest elect different candidates.
    Tie,
    /// The budget of nodes has run out.
    Spent,
    /// A full count is needed.
    FullCount,
    /// A file doesn't hold.
    Differs,
    /// An audit isn't signed off yet.
    Unconfirmed,
}

impl AnswerKind {
    /// The status that the program ends with if the whole answer is written.
    pub fn status(self) -> u8
        ensures { result ≡ status_of self }
    {
        match self {
            AnswerKind::Done => 0,
            AnswerKind::Tie => 3,
            AnswerKind::Spent => 4,
            AnswerKind::FullCount => 5,
            AnswerKind::Differs => 6,
            AnswerKind::Unconfirmed => 10,
        }
    }
}

/// The kinds of refusal that name a file.
#[derive(Clone, Copy, Debug, PartialEq, Eq)]
pub enum RefusalKind {
    /// A rule refuses the file.
    Input,
    /// The file could not be read.
    ReadFault,
    /// The file is longer than a file may be.
    TooLong,
    /// There is no such file.
    Missing,
}

impl RefusalKind {
    /// The status that the program ends with if the whole line of the refusal is written.
    pub fn status(self) -> u8
        ensures { result ≡ refusal_status self }
    {
        match self {
            RefusalKind::Input => 2,
            RefusalKind::ReadFault => 7,
            RefusalKind::TooLong => 11,
            RefusalKind::Missing => 12,
        }
    }
}

/// What a command answers, for `out`.
#[derive(Drop)]
pub struct Answer {
    /// The kind of the answer.
    pub kind: AnswerKind,
    /// The bytes that `out` gets.
    pub text: Vec<u8>,
}

/// Why a command has no answer, for `err`.
#[derive(Drop)]
pub enum Refusal {
    /// The words aren't a line.
    Words,
    /// A line that names a file.
    Line(RefusalKind, String),
    /// Memory could not be allocated.
    Memory,
}

impl From<AllocError> for Refusal {
    ghost from_gives = { λ _ e. e ≡ OutOfMemory };

    fn from(_: AllocError) -> Self {
        Refusal::Memory
    }
}

impl<T: Drop> From<AllocFailed<T>> for Refusal {
    ghost from_gives = { λ _ e. e ≡ OutOfMemory };

    fn from(_: AllocFailed<T>) -> Self {
        Refusal::Memory
    }
}

impl From<Memory> for Refusal {
    ghost from_gives = { λ _ e. e ≡ OutOfMemory };

    fn from(_: Memory) -> Self {
        Refusal::Memory
    }
}
