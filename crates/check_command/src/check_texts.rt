// The texts of a check: yes, or a difference.
ghost use Rattle.std.specs.Prelude.{◌≡◌, ◌≤◌, None, length, IfOk, IsTrue, string_bytes};
ghost use Rattle.irv_base.specs.Orders.{is_order};
ghost use Rattle.irv_base.specs.declared.limits.TheConstants.{ROOM};
ghost use Rattle.assertions.specs.Assertions.{is_proper};
ghost use Rattle.report.specs.Texts.{order_text, assertion_text};
ghost use Rattle.check_command.specs.Check.{yes_by, yes_lines, yes_text, no_line, winner_is, has_margin, stands, smallest_is, is_refuted_by, needs, needs_draws, needs_full_count};

use assertion_file::AssertionFile;
use assertions::Assertion;
use irv_base::{Memory, Name, Order};
use report::{assertion_text, order_text};
use std::alloc::{AllocError, Global};

/// The lines for a file that holds: its number of assertions and its margin, and that this isn't said to be the best if it has no order.
pub(crate) fn yes(alloc: Global, file: &AssertionFile) -> Result<String, AllocError>
    ensures { IfOk result (λ text. string_bytes text ≡ yes_text file.now) }
{
    let (assertions, margin) = (file.claims().len(), file.margin());
    match file.order() {
        Some(_order) => best_lines(alloc, assertions, margin),
        None => cover_lines(alloc, assertions, margin),
    }
}

fn best_lines(alloc: Global, assertions: usize, margin: u32) -> Result<String, AllocError>
    ensures { IfOk result (λ text. string_bytes text ≡ yes_lines assertions margin) }
{
    format!(in alloc; "yes\nassertions {assertions}\nmargin {margin}\n")
}

fn cover_lines(alloc: Global, assertions: usize, margin: u32) -> Result<String, AllocError>
    ensures { IfOk result (λ text. string_bytes text ≡ yes_by None assertions margin) }
{
    format!(in alloc; "yes\nassertions {assertions}\nmargin {margin}\nnot said to be best\n")
}

/// The line of a difference.
pub(crate) fn no(alloc: Global, difference: &str) -> Result<String, AllocError>
    ensures { IfOk result (λ text. string_bytes text ≡ no_line difference.now) }
{
    format!(in alloc; "no: {difference}\n")
}

pub(crate) fn winner_is(alloc: Global, winner: &str) -> Result<String, AllocError>
    ensures { IfOk result (λ text. string_bytes text ≡ winner_is winner.now) }
{
    format!(in alloc; "winner is {winner}")
}

pub(crate) fn has_margin(alloc: Global, index: u64, found: i64) -> Result<String, AllocError>
    ensures { IfOk result (λ text. string_bytes text ≡ has_margin index found) }
{
    format!(in alloc; "assertion {index} has margin {found}")
}

pub(crate) fn stands(alloc: Global, names: &[Name], order: &Order) -> Result<String, Memory>
    requires { IsTrue (is_order (length names.now) order.now) }
    ensures { IfOk result (λ text. string_bytes text ≡ stands (order_text names.now order.now)) }
{
    let order = order_text(alloc, names, order)?;
    Ok(stands_text(alloc, order.as_str())?)
}

fn stands_text(alloc: Global, order: &str) -> Result<String, AllocError>
    ensures { IfOk result (λ text. string_bytes text ≡ stands order.now) }
{
    format!(in alloc; "order {order} stands")
}

pub(crate) fn smallest_is(alloc: Global, found: u32) -> Result<String, AllocError>
    ensures { IfOk result (λ text. string_bytes text ≡ smallest_is found) }
{
    format!(in alloc; "smallest margin is {found}")
}

pub(crate) fn is_refuted_by(
    alloc: Global,
    names: &[Name],
    assertion: &Assertion,
    margin: u32,
) -> Result<String, Memory>
    requires few { length names.now ≤ ROOM }
    requires proper { IsTrue (is_proper (length names.now) assertion.now) }
    ensures { IfOk result (λ text.
        string_bytes text ≡ is_refuted_by (assertion_text names.now assertion.now) margin) }
{
    let assertion = assertion_text(alloc, names, assertion)?;
    Ok(refuted_text(alloc, assertion.as_str(), margin)?)
}

fn refuted_text(alloc: Global, assertion: &str, margin: u32) -> Result<String, AllocError>
    ensures { IfOk result (λ text. string_bytes text ≡ is_refuted_by assertion.now margin) }
{
    format!(in alloc; "order is refuted by {assertion} margin {margin}")
}

fn needs_draws(alloc: Global, index: u64, draws: u32) -> Result<String, AllocError>
    ensures { IfOk result (λ text. string_bytes text ≡ needs_draws index draws) }
{
    format!(in alloc; "assertion {index} needs {draws} draws")
}

fn needs_full_count(alloc: Global, index: u64) -> Result<String, AllocError>
    ensures { IfOk result (λ text. string_bytes text ≡ needs_full_count index) }
{
    format!(in alloc; "assertion {index} needs a full count")
}

/// What an assertion needs: its draws, or a full count.
pub(crate) fn needs(alloc: Global, index: u64, draws: Option<u32>) -> Result<String, AllocError>
    ensures { IfOk result (λ text. string_bytes text ≡ needs index draws) }
{
    match draws {
        Some(draws) => needs_draws(alloc, index, draws),
        None => needs_full_count(alloc, index),
    }
}
