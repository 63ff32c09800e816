// The number of draws that a clean audit takes.
ghost use Rattle.std.specs.Prelude.{◌≡◌, ◌≤◌, ◌++◌, length, IfOk, IsTrue, string_bytes};
ghost use Rattle.irv_base.specs.declared.limits.TheConstants.{GREATEST_GAMMA, GREATEST_LIMIT, MOST_CARDS, ROOM};
ghost use Rattle.assertions.specs.Assertions.{is_proper};
ghost use Rattle.audit_report.specs.Plan.{both_need, claim_line, last_line, margin_text, need_text, plan_table};

use assertion_file::AssertionFile;
use assertions::Claim;
use irv_base::{Memory, Name};
use km_risk::clean_draws;
use report::assertion_text;
use std::alloc::{AllocError, Global};

fn add_need(text: &mut String, need: Option<u32>) -> Result<(), AllocError>
    ensures { IfOk result (λ _. string_bytes text.new ≡ string_bytes text.old ++ need_text need) }
{
    match need {
        Some(draws) => write!(text, "{draws} draws"),
        None => text.push_str("full count"),
    }
}

fn add_margin(text: &mut String, assertion: &str, margin: u32) -> Result<(), AllocError>
    ensures { IfOk result (λ _. string_bytes text.new ≡
        string_bytes text.old ++ margin_text assertion.now margin) }
{
    write!(text, "{assertion} margin {margin}: ")
}

// Adds the line for a claim that needs this many draws.
fn add_claim(
    alloc: Global,
    text: &mut String,
    names: &[Name],
    claim: &Claim,
    need: Option<u32>,
) -> Result<(), Memory>
    requires few { length names.now ≤ ROOM }
    requires proper { IsTrue (is_proper (length names.now) claim.now.assertion) }
    ensures { IfOk result (λ _. string_bytes text.new ≡
        string_bytes text.old ++ claim_line names.now claim.now need) }
{
    let assertion = assertion_text(alloc, names, &claim.assertion)?;
    add_margin(text, assertion.as_str(), claim.margin)?;
    add_need(text, need)?;
    text.push_str("\n")?;
    Ok(())
}

fn add_last(text: &mut String, need: Option<u32>) -> Result<(), AllocError>
    ensures { IfOk result (λ _. string_bytes text.new ≡ string_bytes text.old ++ last_line need) }
{
    text.push_str("all: ")?;
    add_need(text, need)?;
    text.push_str("\n")
}

fn both_need(need: Option<u32>, other: Option<u32>) -> Option<u32>
    ensures { result ≡ both_need need other }
{
    Some(need?.max(other?))
}

/// One line for each assertion of the file. The line has the number of draws without a discrepancy that confirm the assertion, over a
/// manifest of this many cards, with gamma in thousandths and the limit in millionths. It says a full count if neither as many draws as there
/// are cards nor `MOST_DRAWS` are enough. The last line says what all assertions together take.
pub fn plan_table(
    alloc: Global,
    f: &AssertionFile,
    cards: u32,
    gamma: u32,
    limit: u32,
) -> Result<Vec<u8>, Memory>
    requires records { f.now.records ≤ cards }
    requires cards { cards ≤ MOST_CARDS }
    requires some_gamma { 1 ≤ gamma }
    requires most_gamma { gamma ≤ GREATEST_GAMMA }
    requires some_limit { 1 ≤ limit }
    requires most_limit { limit ≤ GREATEST_LIMIT }
    ensures { IfOk result (λ text. text.items ≡ plan_table f.now cards gamma limit) }
{
    let names = f.candidates();
    let claims = f.claims();
    let mut text = String::new(alloc);
    let mut all = Some(0);
    for claim in claims {
        let need = clean_draws(cards, claim.margin, gamma, limit);
        add_claim(alloc, &mut text, names, claim, need)?;
        all = both_need(all, need);
    }
    add_last(&mut text, all)?;
    Ok(text.into_bytes())
}
