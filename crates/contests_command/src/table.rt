// What an audit of all contests prints.
ghost use Rattle.std.specs.Prelude.{◌≡◌, ◌≤◌, ◌++◌, length, codes, IfOk, IsTrue, string_bytes};
ghost use Rattle.std.specs.Fmt.{decimal};
ghost use Rattle.std.specs.List.{AllZip};
ghost use Rattle.irv_base.specs.declared.limits.TheConstants.{GREATEST_LIMIT, ROOM};
ghost use Rattle.assertions.specs.Assertions.{is_proper};
ghost use Rattle.report.specs.Claims.{claim_lines};
ghost use Rattle.report.specs.Risks.{yes_or_no};
ghost use Rattle.contests_command.specs.Table.{CanBeTold, all_signed, audited_lines, block, blocks, claim_line, contest_line, contests_table, end_lines, is_signed, last_line, line_of, winner_lines};

use assertion_file::{AssertionFile, id_of};
use assertions::Claim;
use ballots::Ballots;
use contest_set::ContestEnd;
use irv_base::{Memory, Name};
use km_risk::{Counts, is_confirmed};
use report::{
    add_counts, add_risk, add_signed_off, add_state, assertion_text, spent_text, tie_text,
    yes_or_no,
};
use std::alloc::{AllocError, Global};

// ---- a claim

fn add_margin(text: &mut String, assertion: &str, margin: u32) -> Result<(), AllocError>
    ensures { IfOk result (λ _. string_bytes text.new ≡ string_bytes text.old
        ++ (assertion.now ++ codes " margin " ++ decimal margin ++ codes " counts ")) }
{
    write!(text, "{assertion} margin {margin} counts ")
}

fn add_line(
    text: &mut String,
    assertion: &str,
    margin: u32,
    counts: &Counts,
    risk: u64,
    confirmed: bool,
) -> Result<(), AllocError>
    ensures { IfOk result (λ _. string_bytes text.new ≡ string_bytes text.old
        ++ claim_line assertion.now margin counts.now risk confirmed) }
{
    add_margin(text, assertion, margin)?;
    add_counts(text, counts)?;
    text.push_str(" risk ")?;
    add_risk(text, risk)?;
    add_state(text, confirmed)?;
    Ok(())
}

// Adds the line of a claim.
fn add_claim(
    alloc: Global,
    text: &mut String,
    names: &[Name],
    claim: &Claim,
    counts: &Counts,
    risk: u64,
    limit: u32,
) -> Result<(), Memory>
    requires few { length names.now ≤ ROOM }
    requires proper { IsTrue (is_proper (length names.now) claim.now.assertion) }
    requires limit { limit ≤ GREATEST_LIMIT }
    ensures { IfOk result (λ _. string_bytes text.new ≡ string_bytes text.old
        ++ line_of names.now limit claim.now counts.now risk) }
{
    let assertion = assertion_text(alloc, names, &claim.assertion)?;
    add_line(
        text,
        assertion.as_str(),
        claim.margin,
        counts,
        risk,
        is_confirmed(risk, limit),
    )?;
    Ok(())
}

// Adds the lines of all claims.
fn add_claims(
    alloc: Global,
    text: &mut String,
    f: &AssertionFile,
    limit: u32,
    counts: &[Counts],
    risks: &[u64],
) -> Result<(), Memory>
    requires counts { length counts.now ≡ length f.now.claims }
    requires risks { length risks.now ≡ length f.now.claims }
    requires limit { limit ≤ GREATEST_LIMIT }
    ensures { IfOk result (λ _. string_bytes text.new ≡ string_bytes text.old
        ++ claim_lines (line_of f.now.candidates limit) f.now.claims counts.now risks.now) }
{
    let names = f.candidates();
    let claims = f.claims();
    for j in 0..claims.len() {
        add_claim(alloc, text, names, &claims[j], &counts[j], risks[j], limit)?;
    }
    Ok(())
}

// ---- a contest

fn add_winner(text: &mut String, records: u32, winner: &str, margin: u32) -> Result<(), AllocError>
    ensures { IfOk result (λ _. string_bytes text.new ≡
        string_bytes text.old ++ winner_lines records winner.now margin) }
{
    writeln!(text, "records {records}\nwinner {winner}\nmargin {margin}")
}

// Adds what the audit of a contest says of its winner and of each claim.
fn add_audited(
    alloc: Global,
    text: &mut String,
    f: &AssertionFile,
    limit: u32,
    counts: &[Counts],
    risks: &[u64],
) -> Result<(), Memory>
    requires counts { length counts.now ≡ length f.now.claims }
    requires risks { length risks.now ≡ length f.now.claims }
    requires limit { limit ≤ GREATEST_LIMIT }
    ensures { IfOk result (λ _. string_bytes text.new ≡ string_bytes text.old
        ++ audited_lines limit f.now counts.now risks.now) }
{
    let winner = id_of(f.candidates(), f.winner());
    add_winner(text, f.records(), winner, f.margin())?;
    add_claims(alloc, text, f, limit, counts, risks)?;
    Ok(())
}

// Adds how a contest ends.
fn add_end(
    alloc: Global,
    text: &mut String,
    ballots: &Ballots,
    end: &ContestEnd,
    limit: u32,
) -> Result<(), Memory>
    requires told { CanBeTold ballots.now end.now }
    requires limit { limit ≤ GREATEST_LIMIT }
    ensures { IfOk result (λ _. string_bytes text.new ≡
        string_bytes text.old ++ end_lines limit ballots.now end.now) }
{
    let names = ballots.candidates();
    match end {
        ContestEnd::Tied { round, tied, tally } => {
            let lines = tie_text(alloc, names, *round, *tied, *tally)?;
            text.push_str(lines.as_str())?;
            Ok(())
        }
        ContestEnd::Spent {
            last,
            order,
            margin,
        } => {
            let lines = spent_text(alloc, names, *last, order, *margin)?;
            text.push_str(lines.as_str())?;
            Ok(())
        }
        ContestEnd::Audited {
            file,
            counts,
            risks,
            ..
        } => add_audited(alloc, text, file, limit, counts, risks),
    }
}

/// Whether a contest is signed off. One without a winner isn't.
pub fn is_signed(end: &ContestEnd) -> bool
    ensures { result ≡ is_signed end.now }
{
    match end {
        ContestEnd::Audited { signed, .. } => *signed,
        _ => false,
    }
}

/// Whether all contests are signed off.
pub fn all_signed(ends: &[ContestEnd]) -> bool
    ensures { result ≡ all_signed ends.now }
{
    ends.iter().all(|end| is_signed(end))
}

fn add_contest(text: &mut String, contest: &str) -> Result<(), AllocError>
    ensures { IfOk result (λ _.
        string_bytes text.new ≡ string_bytes text.old ++ contest_line contest.now) }
{
    writeln!(text, "contest {contest}")
}

// Adds the block of a contest.
fn add_block(
    alloc: Global,
    text: &mut String,
    ballots: &Ballots,
    end: &ContestEnd,
    limit: u32,
) -> Result<(), Memory>
    requires told { CanBeTold ballots.now end.now }
    requires limit { limit ≤ GREATEST_LIMIT }
    ensures { IfOk result (λ _. string_bytes text.new ≡
        string_bytes text.old ++ block limit ballots.now end.now) }
{
    add_contest(text, ballots.contest().text())?;
    add_end(alloc, text, ballots, end, limit)?;
    add_signed_off(text, is_signed(end))?;
    Ok(())
}

// ---- all contests

// Adds the blocks of all contests.
fn add_blocks(
    alloc: Global,
    text: &mut String,
    list: &[Ballots],
    ends: &[ContestEnd],
    limit: u32,
) -> Result<(), Memory>
    requires told { AllZip CanBeTold list.now ends.now }
    requires limit { limit ≤ GREATEST_LIMIT }
    ensures { IfOk result (λ _. string_bytes text.new ≡
        string_bytes text.old ++ blocks limit list.now ends.now) }
{
    for i in 0..list.len() {
        add_block(alloc, text, &list[i], &ends[i], limit)?;
    }
    Ok(())
}

fn add_last(text: &mut String, all: bool) -> Result<(), AllocError>
    ensures { IfOk result (λ _. string_bytes text.new ≡ string_bytes text.old ++ last_line all) }
{
    let answer = yes_or_no(all);
    writeln!(text, "all {answer}")
}

/// The lines of an audit of all contests, at a limit in millionths. They have the id of each contest, how it ends and whether it is signed
/// off, and then whether all contests are signed off. Every line ends with a line feed.
pub fn contests_table(
    alloc: Global,
    list: &[Ballots],
    ends: &[ContestEnd],
    limit: u32,
) -> Result<Vec<u8>, Memory>
    requires told { AllZip CanBeTold list.now ends.now }
    requires limit { limit ≤ GREATEST_LIMIT }
    ensures { IfOk result (λ text. text.items ≡ contests_table limit list.now ends.now) }
{
    let mut text = String::new(alloc);
    add_blocks(alloc, &mut text, list, ends, limit)?;
    add_last(&mut text, all_signed(ends))?;
    Ok(text.into_bytes())
}
