// What a poll with a look after each draw prints.
ghost use Rattle.std.specs.Prelude.{◌≡◌, ◌≤◌, ◌++◌, length, codes, IfOk, IsTrue, string_bytes};
ghost use Rattle.std.specs.Fmt.{decimal};
ghost use Rattle.irv_base.specs.declared.limits.TheConstants.{ROOM};
ghost use Rattle.assertions.specs.Assertions.{is_proper};
ghost use Rattle.report.specs.Risks.{risk_text};
ghost use Rattle.report.specs.Texts.{assertion_text};
ghost use Rattle.poll_command.specs.Table.{seen_counts_text};
ghost use Rattle.poll_command.specs.EachLines.{confirmed_end, each_table, end_line, end_lines, gamma_text, head_lines, name_lines, number_lines, term_lines};

use crate::table::add_last;
use assertion_file::{AssertionFile, id_of};
use assertions::Claim;
use command::PollEachTask;
use irv_base::{Memory, Name};
use km_risk::ONE;
use polling::{ClaimEnd, EachEnd, PollCounts};
use report::assertion_text;
use std::alloc::{AllocError, Global};

// ---- the head

fn add_names(text: &mut String, contest: &str, winner: &str) -> Result<(), AllocError>
    ensures { IfOk result (λ _. string_bytes text.new ≡
        string_bytes text.old ++ name_lines contest.now winner.now) }
{
    writeln!(text, "contest {contest}\nwinner {winner}")
}

fn add_numbers(text: &mut String, cards: u32, draws: u32, limit: u32) -> Result<(), AllocError>
    ensures { IfOk result (λ _. string_bytes text.new ≡
        string_bytes text.old ++ number_lines cards draws limit) }
{
    writeln!(text, "cards {cards}\ndraws {draws}\nlimit {limit}")
}

// The gamma of all claims, or the word for the gamma that fits each.
fn gamma_text(alloc: Global, gamma: Option<u32>) -> Result<String, AllocError>
    ensures { IfOk result (λ text. string_bytes text ≡ gamma_text gamma) }
{
    match gamma {
        Some(gamma) => format!(in alloc; "{gamma}"),
        None => String::from_str(alloc, "best"),
    }
}

fn add_terms(text: &mut String, gamma: &str, seed: &str) -> Result<(), AllocError>
    ensures { IfOk result (λ _. string_bytes text.new ≡
        string_bytes text.old ++ term_lines gamma.now seed.now) }
{
    writeln!(text, "gamma {gamma}\nseed {seed}")
}

fn add_head(
    alloc: Global,
    text: &mut String,
    f: &AssertionFile,
    cards: u32,
    task: &PollEachTask,
) -> Result<(), AllocError>
    ensures { IfOk result (λ _. string_bytes text.new ≡
        string_bytes text.old ++ head_lines f.now cards task.now) }
{
    let winner = id_of(f.candidates(), f.winner());
    add_names(text, f.contest().text(), winner)?;
    add_numbers(text, cards, task.draws, task.limit)?;
    let gamma = gamma_text(alloc, task.gamma)?;
    add_terms(text, gamma.as_str(), task.seed.text())?;
    Ok(())
}

// ---- a claim

// Adds a risk, which is given in units of 10^-18 and may be above one, as a number with 18 digits after its point.
fn add_risk(text: &mut String, units: u128) -> Result<(), AllocError>
    ensures { IfOk result (λ _. string_bytes text.new ≡ string_bytes text.old ++ risk_text units) }
{
    let one = u128::from(ONE);
    let ones = units / one;
    let rest = units % one;
    write!(text, "{ones}.{rest:018}")
}

// Adds the gamma of a claim and its counts, between the assertion and its risk.
fn add_counts(
    text: &mut String,
    assertion: &str,
    gamma: u32,
    c: &PollCounts,
) -> Result<(), AllocError>
    ensures { IfOk result (λ _. string_bytes text.new ≡ string_bytes text.old
        ++ (assertion.now ++ codes " gamma " ++ decimal gamma ++ codes " counts "
        ++ seen_counts_text c.now ++ codes " risk ")) }
{
    let PollCounts { n0, n1, n2 } = *c;
    write!(
        text,
        "{assertion} gamma {gamma} counts {n0} {n1} {n2} risk "
    )
}

// Adds which draw confirms a claim, if one does, as the end of its line.
fn add_confirmed(text: &mut String, confirmed: Option<u32>) -> Result<(), AllocError>
    ensures { IfOk result (λ _. string_bytes text.new ≡
        string_bytes text.old ++ confirmed_end confirmed) }
{
    match confirmed {
        Some(k) => writeln!(text, " confirmed {k}"),
        None => text.push_str(" unconfirmed\n"),
    }
}

fn add_line(text: &mut String, assertion: &str, end: &ClaimEnd) -> Result<(), AllocError>
    ensures { IfOk result (λ _. string_bytes text.new ≡
        string_bytes text.old ++ end_line assertion.now end.now) }
{
    add_counts(text, assertion, end.gamma, &end.counts)?;
    add_risk(text, end.risk)?;
    add_confirmed(text, end.confirmed)
}

// Adds the line of a claim.
fn add_end(
    alloc: Global,
    text: &mut String,
    names: &[Name],
    claim: &Claim,
    end: &ClaimEnd,
) -> Result<(), Memory>
    requires few { length names.now ≤ ROOM }
    requires proper { IsTrue (is_proper (length names.now) claim.now.assertion) }
    ensures { IfOk result (λ _. string_bytes text.new ≡ string_bytes text.old
        ++ end_line (assertion_text names.now claim.now.assertion) end.now) }
{
    let assertion = assertion_text(alloc, names, &claim.assertion)?;
    add_line(text, assertion.as_str(), end)?;
    Ok(())
}

// Adds the lines of all claims.
fn add_ends(
    alloc: Global,
    text: &mut String,
    f: &AssertionFile,
    ends: &[ClaimEnd],
) -> Result<(), Memory>
    requires { length ends.now ≡ length f.now.claims }
    ensures { IfOk result (λ _. string_bytes text.new ≡ string_bytes text.old
        ++ end_lines f.now.candidates f.now.claims ends.now) }
{
    let names = f.candidates();
    let claims = f.claims();
    for j in 0..claims.len() {
        add_end(alloc, text, names, &claims[j], &ends[j])?;
    }
    Ok(())
}

/// The lines of a poll with a look after each draw, over a manifest of this many cards. They have its contest, its winner and its numbers,
/// with the limit in millionths and gammas in thousandths; then, for each assertion, the counts of its seen values, the risk and the draw
/// that confirms it; and then whether all are confirmed. Every line ends with a line feed.
pub fn each_table(
    alloc: Global,
    f: &AssertionFile,
    cards: u32,
    task: &PollEachTask,
    e: &EachEnd,
) -> Result<Vec<u8>, Memory>
    requires { length e.now.claims.items ≡ length f.now.claims }
    ensures { IfOk result (λ text. text.items ≡ each_table f.now cards task.now
        e.now.claims.items e.now.confirmed) }
{
    let mut text = String::new(alloc);
    add_head(alloc, &mut text, f, cards, task)?;
    add_ends(alloc, &mut text, f, &e.claims)?;
    add_last(&mut text, e.confirmed)?;
    Ok(text.into_bytes())
}
