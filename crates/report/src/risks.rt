// What is printed about an audit: each claim's risk, its counts, and whether it is confirmed; and whether the audit is signed off.
ghost use Rattle.std.specs.Prelude.{◌≡◌, ◌++◌, IfOk, string_bytes};
ghost use Rattle.report.specs.Risks.{counts_text, risk_text, signed_off_line, state_end, state_text, yes_or_no};

use km_risk::{Counts, ONE};
use std::alloc::{AllocError, Global};

/// Adds a risk, given in units of 10^-18, as a number with 18 digits after the point.
pub fn add_risk(text: &mut String, units: u64) -> Result<(), AllocError>
    ensures { IfOk result (λ _. string_bytes text.new ≡ string_bytes text.old ++ risk_text units) }
{
    let ones = units / ONE;
    let rest = units % ONE;
    write!(text, "{ones}.{rest:018}")
}

/// Adds the number of draws with each discrepancy, from 0 to 4, separated by blanks.
pub fn add_counts(text: &mut String, counts: &Counts) -> Result<(), AllocError>
    ensures { IfOk result (λ _. string_bytes text.new ≡
        string_bytes text.old ++ counts_text counts.now) }
{
    let Counts { n0, n1, n2, n3, n4 } = *counts;
    write!(text, "{n0} {n1} {n2} {n3} {n4}")
}

/// Returns the number of draws with each discrepancy as a separate text.
pub fn counts_text(alloc: Global, counts: &Counts) -> Result<String, AllocError>
    ensures { IfOk result (λ text. string_bytes text ≡ counts_text counts.now) }
{
    let mut text = String::new(alloc);
    add_counts(&mut text, counts)?;
    Ok(text)
}

/// Returns the word that says whether a claim is confirmed.
pub fn state_text(confirmed: bool) -> &'static str
    ensures { result.now ≡ state_text confirmed }
{
    if confirmed {
        "confirmed"
    } else {
        "unconfirmed"
    }
}

/// Adds whether a claim is confirmed, as the end of its line.
pub fn add_state(text: &mut String, confirmed: bool) -> Result<(), AllocError>
    ensures { IfOk result (λ _. string_bytes text.new ≡ string_bytes text.old ++ state_end confirmed) }
{
    let state = state_text(confirmed);
    writeln!(text, " {state}")
}

/// Returns `yes` or `no`.
pub fn yes_or_no(yes: bool) -> &'static str
    ensures { result.now ≡ yes_or_no yes }
{
    if yes { "yes" } else { "no" }
}

/// Adds the line that says whether an audit is signed off.
pub fn add_signed_off(text: &mut String, signed_off: bool) -> Result<(), AllocError>
    ensures { IfOk result (λ _.
        string_bytes text.new ≡ string_bytes text.old ++ signed_off_line signed_off) }
{
    let answer = yes_or_no(signed_off);
    writeln!(text, "signed off {answer}")
}
