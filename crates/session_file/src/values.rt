// The parts of a session as JSON values.
ghost use Rattle.std.specs.Prelude.{◌≡◌, map, IfOk};
ghost use Rattle.serde_json.specs.View.{view};
ghost use Rattle.assertion_file.specs.Text.{array_of};
ghost use Rattle.session_file.specs.Forms.{IsDigest};
ghost use Rattle.session_file.specs.Text.{counts_value, digest_value, numbers_value, round_value};

use km_risk::Counts;
use serde_json::{Value, json};
use session_state::DoneRound;
use std::alloc::{AllocError, Global};

/// Returns a digest as a text of lower-case hexadecimal digits.
pub fn digest_value(alloc: Global, digest: &[u8; 32]) -> Result<Value, AllocError>
    ensures value { IfOk result (λ v. view v ≡ digest_value digest.now) }
    ensures form { IfOk result (λ _. IsDigest digest.now) }
{
    Ok(Value::String(hex::encode(alloc, digest.as_slice())?))
}

/// Returns the numbers as an array.
pub fn numbers_value(alloc: Global, numbers: &[u32]) -> Result<Value, AllocError>
    ensures { IfOk result (λ v. view v ≡ numbers_value numbers.now) }
{
    let mut values = Vec::new(alloc);
    for number in numbers {
        values.push(Value::from(*number))?;
    }
    Ok(Value::Array(values))
}

// The printed risks of the claims, as an array of numbers.
fn risks_value(alloc: Global, risks: &[u64]) -> Result<Value, AllocError>
    ensures { IfOk result (λ v. view v ≡ numbers_value risks.now) }
{
    let mut values = Vec::new(alloc);
    for risk in risks {
        values.push(Value::from(*risk))?;
    }
    Ok(Value::Array(values))
}

// The number of draws with each discrepancy, from 0 to 4, as an array of numbers.
fn counts_value(alloc: Global, counts: &Counts) -> Result<Value, AllocError>
    ensures { IfOk result (λ v. view v ≡ counts_value counts.now) }
{
    let numbers = [counts.n0, counts.n1, counts.n2, counts.n3, counts.n4];
    numbers_value(alloc, numbers.as_slice())
}

// The counts of each claim, as an array of arrays.
fn all_counts_value(alloc: Global, all: &[Counts]) -> Result<Value, AllocError>
    ensures { IfOk result (λ v. view v ≡ array_of (map counts_value all.now)) }
{
    let mut values = Vec::new(alloc);
    for counts in all {
        values.push(counts_value(alloc, counts)?)?;
    }
    Ok(Value::Array(values))
}

// A round, as an object with its counts, its draws and its risks.
fn round_value(alloc: Global, round: &DoneRound) -> Result<Value, AllocError>
    ensures { IfOk result (λ v. view v ≡ round_value round.now) }
{
    let counts = all_counts_value(alloc, round.counts())?;
    let risks = risks_value(alloc, round.risks())?;
    json!(in alloc; {"counts": counts, "draws": round.draws(), "risks": risks})
}

/// Returns the rounds as an array of objects.
pub fn rounds_value(alloc: Global, rounds: &[DoneRound]) -> Result<Value, AllocError>
    ensures { IfOk result (λ v. view v ≡ array_of (map round_value rounds.now)) }
{
    let mut values = Vec::new(alloc);
    for round in rounds {
        values.push(round_value(alloc, round)?)?;
    }
    Ok(Value::Array(values))
}
