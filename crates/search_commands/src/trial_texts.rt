// The ids of a trial, and its lines.
ghost use Rattle.std.specs.Prelude.{◌≡◌, ◌≤◌, IfOk, codes, string_bytes};
ghost use Rattle.std.specs.Fmt.{decimal};
ghost use Rattle.irv_base.specs.declared.limits.TheConstants.{MOST_CANDIDATES};
ghost use Rattle.search_commands.specs.Trial.{found_lines, trial_candidates, records_lines, trial_text};

use crate::search_texts::certificate_order_text;
use assertion_file::{AssertionFile, id_of};
use irv_base::{Memory, Name};
use std::alloc::{AllocError, Global};

/// The id of the contest.
pub(crate) fn contest_id() -> Name
    ensures { result ≡ codes "trial" }
{
    Name::read(b"trial").unwrap()
}

/// The ids of `n` candidates, which are their numbers from 1.
pub(crate) fn trial_candidates(alloc: Global, n: u32) -> Result<Vec<Name>, Memory>
    requires { n ≤ MOST_CANDIDATES }
    ensures { IfOk result (λ names. names.items ≡ trial_candidates n) }
{
    let mut names = Vec::with_capacity(alloc, n as usize)?;
    for c in 0..n {
        names.push(numeral(alloc, c + 1)?)?;
    }
    Ok(names)
}

// A number as an id.
fn numeral(alloc: Global, number: u32) -> Result<Name, Memory>
    ensures { IfOk result (λ id. id ≡ decimal number) }
{
    let text = digits(alloc, number)?;
    Ok(Name::read(text.as_bytes()).unwrap())
}

fn digits(alloc: Global, number: u32) -> Result<String, AllocError>
    ensures { IfOk result (λ text. string_bytes text ≡ decimal number) }
{
    format!(in alloc; "{number}")
}

/// What a trial prints of the assertions that confirm the winner.
pub(crate) fn lines(alloc: Global, number: u32, file: &AssertionFile) -> Result<Vec<u8>, Memory>
    ensures { IfOk result (λ text. text.items ≡ trial_text number file.now) }
{
    let names = file.candidates();
    let order = certificate_order_text(alloc, file)?;
    let winner = id_of(names, file.winner());
    let mut text = records_lines(alloc, number, names.len(), file.records())?;
    let found = found_lines(
        alloc,
        winner,
        file.margin(),
        file.claims().len(),
        order.as_str(),
    )?;
    text.push_str(found.as_str())?;
    Ok(text.into_bytes())
}

fn records_lines(
    alloc: Global,
    number: u32,
    candidates: usize,
    records: u32,
) -> Result<String, AllocError>
    ensures { IfOk result (λ text. string_bytes text ≡ records_lines number candidates records) }
{
    format!(in alloc; "number {number}\ncandidates {candidates}\nrecords {records}\n")
}

fn found_lines(
    alloc: Global,
    winner: &str,
    margin: u32,
    assertions: usize,
    order: &str,
) -> Result<String, AllocError>
    ensures { IfOk result (λ text. string_bytes text
        ≡ found_lines winner.now margin assertions order.now) }
{
    format!(in alloc; "winner {winner}\nmargin {margin}\nassertions {assertions}\norder {order}\n")
}
