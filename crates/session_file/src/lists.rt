// The lists of a session. All elements of a list are of one kind.
ghost use Rattle.std.specs.Prelude.{◌≡◌, Option, Some, map, IfOk, IfErr};
ghost use Rattle.serde_json.specs.Data.{Data};
ghost use Rattle.serde_json.specs.View.{view};
ghost use Rattle.assertion_file.specs.Stated.{number};
ghost use Rattle.session_file.specs.Faults.{Refuses};
ghost use Rattle.session_file.specs.Stated.{counts, each, risk, round};

use crate::SessionFault;
use crate::members::{self, entry_in};
use assertion_file::number;
use km_risk::Counts;
use serde_json::Value;
use session_state::DoneRound;
use std::alloc::Global;

/// What the values of a list may state. All of them are of this kind.
pub trait Stated: Sized {
    /// What a value states, if it is of this kind.
    ghost kind: { Data → Option Self };

    /// Reads what the value states.
    fn stated(alloc: Global, value: &Value) -> Result<Self, SessionFault>
        ensures read { IfOk result (λ read. kind (view value.now) ≡ Some read) }
        ensures refused { IfErr result (Refuses (kind (view value.now))) };
}

// A margin.
impl Stated for u32 {
    ghost kind = { number };

    fn stated(_alloc: Global, value: &Value) -> Result<u32, SessionFault> {
        number(value).ok_or(SessionFault::Refused)
    }
}

// A risk.
impl Stated for u64 {
    ghost kind = { risk };

    fn stated(_alloc: Global, value: &Value) -> Result<u64, SessionFault> {
        members::risk(value).ok_or(SessionFault::Refused)
    }
}

impl Stated for Counts {
    ghost kind = { counts };

    fn stated(_alloc: Global, value: &Value) -> Result<Counts, SessionFault> {
        members::counts(value).ok_or(SessionFault::Refused)
    }
}

impl Stated for DoneRound {
    ghost kind = { round };

    fn stated(alloc: Global, value: &Value) -> Result<DoneRound, SessionFault> {
        let Some(entry) = entry_in(value) else {
            return Err(SessionFault::Refused);
        };
        let counts = list(alloc, entry.counts)?;
        let risks = list(alloc, entry.risks)?;
        Ok(DoneRound::new(entry.draws, counts, risks))
    }
}

/// Reads what each of the values states.
pub fn list<T: Stated + Drop>(alloc: Global, values: &[Value]) -> Result<Vec<T>, SessionFault>
    ensures read { IfOk result (λ read. each T.kind (map view values.now) ≡ Some read.items) }
    ensures refused { IfErr result (Refuses (each T.kind (map view values.now))) }
{
    let mut read = Vec::new(alloc);
    for value in values {
        let one = T::stated(alloc, value)?;
        read.push(one)?;
    }
    Ok(read)
}
