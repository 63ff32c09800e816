// What a poll prints.
ghost use Rattle.std.specs.Prelude.{◌≡◌, ◌≤◌, ◌++◌, length, codes, IfOk, IsTrue, string_bytes};
ghost use Rattle.irv_base.specs.declared.limits.TheConstants.{GREATEST_LIMIT, ROOM};
ghost use Rattle.assertions.specs.Assertions.{is_proper};
ghost use Rattle.report.specs.Claims.{claim_lines};
ghost use Rattle.poll_command.specs.Table.{claim_line, seen_counts_text, head_lines, last_line, line_of, poll_table};

use assertion_file::AssertionFile;
use assertions::Claim;
use irv_base::{Memory, Name};
use km_risk::is_confirmed;
use polling::{PollCounts, PollEnd};
use report::{add_risk, add_state, assertion_text, yes_or_no};
use std::alloc::{AllocError, Global};

fn add_head(
    text: &mut String,
    cards: u32,
    draws: u32,
    limit: u32,
    gamma: u32,
) -> Result<(), AllocError>
    ensures { IfOk result (λ _. string_bytes text.new ≡
        string_bytes text.old ++ head_lines cards draws limit gamma) }
{
    writeln!(
        text,
        "cards {cards}\ndraws {draws}\nlimit {limit}\ngamma {gamma}"
    )
}

// Adds the number of draws that have each seen value, from 0 to 2, between the assertion and its risk.
fn add_counts(text: &mut String, assertion: &str, c: &PollCounts) -> Result<(), AllocError>
    ensures { IfOk result (λ _. string_bytes text.new ≡ string_bytes text.old
        ++ (assertion.now ++ codes " counts " ++ seen_counts_text c.now ++ codes " risk ")) }
{
    let PollCounts { n0, n1, n2 } = *c;
    write!(text, "{assertion} counts {n0} {n1} {n2} risk ")
}

fn add_line(
    text: &mut String,
    assertion: &str,
    counts: &PollCounts,
    risk: u64,
    confirmed: bool,
) -> Result<(), AllocError>
    ensures { IfOk result (λ _. string_bytes text.new ≡
        string_bytes text.old ++ claim_line assertion.now counts.now risk confirmed) }
{
    add_counts(text, assertion, counts)?;
    add_risk(text, risk)?;
    add_state(text, confirmed)
}

// Adds the line of a claim.
fn add_claim(
    alloc: Global,
    text: &mut String,
    names: &[Name],
    claim: &Claim,
    counts: &PollCounts,
    risk: u64,
    limit: u32,
) -> Result<(), Memory>
    requires few { length names.now ≤ ROOM }
    requires proper { IsTrue (is_proper (length names.now) claim.now.assertion) }
    requires limit { limit ≤ GREATEST_LIMIT }
    ensures { IfOk result (λ _. string_bytes text.new ≡ string_bytes text.old
        ++ line_of names.now limit claim.now counts.now risk) }
{
    let assertion = assertion_text(alloc, names, &claim.assertion)?;
    add_line(
        text,
        assertion.as_str(),
        counts,
        risk,
        is_confirmed(risk, limit),
    )?;
    Ok(())
}

// Adds the lines of all claims.
fn add_claims(
    alloc: Global,
    text: &mut String,
    f: &AssertionFile,
    limit: u32,
    e: &PollEnd,
) -> Result<(), Memory>
    requires counts { length e.now.counts.items ≡ length f.now.claims }
    requires risks { length e.now.risks.items ≡ length f.now.claims }
    requires limit { limit ≤ GREATEST_LIMIT }
    ensures { IfOk result (λ _. string_bytes text.new ≡ string_bytes text.old
        ++ claim_lines (line_of f.now.candidates limit) f.now.claims e.now.counts.items
        e.now.risks.items) }
{
    let names = f.candidates();
    let claims = f.claims();
    for j in 0..claims.len() {
        add_claim(
            alloc,
            text,
            names,
            &claims[j],
            &e.counts[j],
            e.risks[j],
            limit,
        )?;
    }
    Ok(())
}

/// Adds whether all claims are confirmed.
pub(crate) fn add_last(text: &mut String, confirmed: bool) -> Result<(), AllocError>
    ensures { IfOk result (λ _.
        string_bytes text.new ≡ string_bytes text.old ++ last_line confirmed) }
{
    let answer = yes_or_no(confirmed);
    writeln!(text, "confirmed {answer}")
}

/// The lines of a poll over a manifest of this many cards. They have its numbers, with gamma in thousandths and the limit in millionths;
/// then, for each assertion, the counts of its seen values, the risk and whether it is confirmed; and then whether all are confirmed. Every
/// line ends with a line feed.
pub fn poll_table(
    alloc: Global,
    f: &AssertionFile,
    cards: u32,
    draws: u32,
    limit: u32,
    gamma: u32,
    e: &PollEnd,
) -> Result<Vec<u8>, Memory>
    requires counts { length e.now.counts.items ≡ length f.now.claims }
    requires risks { length e.now.risks.items ≡ length f.now.claims }
    requires limit { limit ≤ GREATEST_LIMIT }
    ensures { IfOk result (λ text. text.items ≡ poll_table f.now cards draws limit gamma
        e.now.counts.items e.now.risks.items e.now.confirmed) }
{
    let mut text = String::new(alloc);
    add_head(&mut text, cards, draws, limit, gamma)?;
    add_claims(alloc, &mut text, f, limit, e)?;
    add_last(&mut text, e.confirmed)?;
    Ok(text.into_bytes())
}
