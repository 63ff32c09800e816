// How a contest ends without a certificate: with its first tie, or with a budget that runs out.
ghost use Rattle.std.specs.Prelude.{◌≡◌, ◌<◌, ◌≤◌, length, IfOk, IsTrue, string_bytes};
ghost use Rattle.irv_base.specs.Orders.{is_order};
ghost use Rattle.irv_base.specs.declared.limits.TheConstants.{ROOM};
ghost use Rattle.report.specs.Ends.{spent_at, spent_lines, spent_sets, spent_sets_lines, spent_sets_text, spent_text, tie_lines, tie_text};

use crate::text::{order_text, set_text};
use assertion_file::id_of;
use irv_base::{CandSet, Candidate, Memory, Name, Order};
use std::alloc::{AllocError, Global};

/// Returns the lines of a tie: its round, counted from 1, the candidates who share the smallest tally in it, and that tally, in votes. Every
/// line ends with a line feed.
pub fn tie_text(
    alloc: Global,
    names: &[Name],
    round: u32,
    tied: CandSet,
    votes: u32,
) -> Result<String, Memory>
    requires { length names.now ≤ ROOM }
    ensures { IfOk result (λ text. string_bytes text ≡ tie_text names.now round tied votes) }
{
    let tied = set_text(alloc, names, tied)?;
    Ok(tie_lines(alloc, round, tied.as_str(), votes)?)
}

// `tied` names the candidates who share the smallest tally.
fn tie_lines(alloc: Global, round: u32, tied: &str, votes: u32) -> Result<String, AllocError>
    ensures { IfOk result (λ text. string_bytes text ≡ tie_lines round tied.now votes) }
{
    format!(in alloc; "tie\nround {round}\ntied {tied}\ntally {votes}\n")
}

/// Returns the lines of a budget that runs out at the candidate with this id. Every line ends with a line feed.
pub fn spent_at(alloc: Global, last: &str) -> Result<String, AllocError>
    ensures { IfOk result (λ text. string_bytes text ≡ spent_at last.now) }
{
    format!(in alloc; "spent\ncandidate {last}\n")
}

/// Returns the lines of a search that runs out of budget at this candidate: the candidate's id, the best order so far, and the hardness of
/// that order, in votes. Every line ends with a line feed.
pub fn spent_text(
    alloc: Global,
    names: &[Name],
    last: Candidate,
    order: &Order,
    margin: u32,
) -> Result<String, Memory>
    requires candidate { last < length names.now }
    requires order { IsTrue (is_order (length names.now) order.now) }
    ensures { IfOk result (λ text.
        string_bytes text ≡ spent_text names.now last order.now margin) }
{
    let order = order_text(alloc, names, order)?;
    Ok(spent_lines(alloc, id_of(names, last), order.as_str(), margin)?)
}

fn spent_lines(alloc: Global, last: &str, order: &str, margin: u32) -> Result<String, AllocError>
    ensures { IfOk result (λ text. string_bytes text ≡ spent_lines last.now order.now margin) }
{
    format!(in alloc; "spent\ncandidate {last}\norder {order}\nmargin {margin}\n")
}

/// Returns the lines of a budget of this many sets that runs out. Every line ends with a line feed.
pub fn spent_sets(alloc: Global, sets: u32) -> Result<String, AllocError>
    ensures { IfOk result (λ text. string_bytes text ≡ spent_sets sets) }
{
    format!(in alloc; "spent\nsets {sets}\n")
}

/// Returns the lines of a search for which this many sets aren't enough: the order that it starts with, and the hardness of that order, in
/// votes. Every line ends with a line feed.
pub fn spent_sets_text(
    alloc: Global,
    names: &[Name],
    sets: u32,
    order: &Order,
    margin: u32,
) -> Result<String, Memory>
    requires { IsTrue (is_order (length names.now) order.now) }
    ensures { IfOk result (λ text.
        string_bytes text ≡ spent_sets_text names.now sets order.now margin) }
{
    let order = order_text(alloc, names, order)?;
    Ok(spent_sets_lines(alloc, sets, order.as_str(), margin)?)
}

fn spent_sets_lines(
    alloc: Global,
    sets: u32,
    order: &str,
    margin: u32,
) -> Result<String, AllocError>
    ensures { IfOk result (λ text. string_bytes text ≡ spent_sets_lines sets order.now margin) }
{
    format!(in alloc; "spent\nsets {sets}\norder {order}\nmargin {margin}\n")
}
