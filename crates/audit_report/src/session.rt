// What is printed for a session.
ghost use Rattle.std.specs.Prelude.{◌≡◌, ◌≤◌, ◌<◌, ◌+◌, ◌++◌, ◌||◌, ℕ, Bool, length, flat_map, IfOk, get_or, false, codes, replicate, string_bytes};
ghost use Rattle.std.specs.Fmt.{decimal};
ghost use Rattle.std.specs.List.{range_with_len};
ghost use Rattle.irv_base.specs.declared.limits.TheConstants.{GREATEST_LIMIT};
ghost use Rattle.session_state.specs.Sessions.{IsSession, meets};
ghost use Rattle.audit_report.specs.Session.{claim_in, claim_line, draws_line, head_lines, rounds_from, session_table};

use irv_base::Memory;
use km_risk::{Counts, is_confirmed};
use report::{add_counts, add_risk, add_signed_off, add_state};
use session_state::{DoneRound, Session, signed_off};
use std::alloc::{AllocError, Global};

fn add_margin(text: &mut String, j: usize, margin: u32) -> Result<(), AllocError>
    ensures { IfOk result (λ _. string_bytes text.new ≡ string_bytes text.old
        ++ (codes "assertion " ++ decimal j
        ++ codes " margin " ++ decimal margin ++ codes " counts ")) }
{
    write!(text, "assertion {j} margin {margin} counts ")
}

// Adds the line for claim number `j`, counted from 1.
fn add_claim(
    text: &mut String,
    j: usize,
    margin: u32,
    counts: &Counts,
    risk: u64,
    confirmed: bool,
) -> Result<(), AllocError>
    ensures { IfOk result (λ _. string_bytes text.new ≡
        string_bytes text.old ++ claim_line j margin counts.now risk confirmed) }
{
    add_margin(text, j, margin)?;
    add_counts(text, counts)?;
    text.push_str(" risk ")?;
    add_risk(text, risk)?;
    add_state(text, confirmed)?;
    Ok(())
}

// Adds the lines for the claims in a round.
fn add_claims(
    text: &mut String,
    margins: &[u32],
    round: &DoneRound,
    confirmed: &[bool],
) -> Result<(), AllocError>
    requires counts { length round.now.counts ≡ length margins.now }
    requires risks { length round.now.risks ≡ length margins.now }
    requires confirmed { length confirmed.now ≡ length margins.now }
    ensures { IfOk result (λ _. string_bytes text.new ≡ string_bytes text.old
        ++ flat_map
        (claim_in margins.now round.now (λ claim. get_or confirmed.now claim false))
        (range_with_len 0 (length margins.now))) }
{
    let counts = round.counts();
    let risks = round.risks();
    for i in 0..margins.len() {
        add_claim(text, i + 1, margins[i], &counts[i], risks[i], confirmed[i])?;
    }
    Ok(())
}

fn add_draws(text: &mut String, i: usize, draws: u32) -> Result<(), AllocError>
    ensures { IfOk result (λ _.
        string_bytes text.new ≡ string_bytes text.old ++ draws_line i draws) }
{
    writeln!(text, "round {i} draws {draws}")
}

// Marks the claims whose risk is within the limit at the end of the round.
fn confirm(confirmed: &mut [bool], limit: u32, round: &DoneRound)
    requires limit { limit ≤ GREATEST_LIMIT }
    requires each { length round.now.risks ≡ length confirmed.old }
    ensures each { length confirmed.new ≡ length confirmed.old }
    ensures marked { (j : ℕ) → j < length confirmed.old →
        get_or confirmed.new j false ≡ (get_or confirmed.old j false || meets limit j round.now) }
{
    let risks = round.risks();
    for j in 0..risks.len() {
        if is_confirmed(risks[j], limit) {
            confirmed[j] = true;
        }
    }
}

fn add_head(
    text: &mut String,
    contest: &str,
    cards: u32,
    limit: u32,
    gamma: u32,
    seed: &str,
) -> Result<(), AllocError>
    ensures { IfOk result (λ _. string_bytes text.new ≡
        string_bytes text.old ++ head_lines contest.now cards limit gamma seed.now) }
{
    writeln!(
        text,
        "contest {contest}\ncards {cards}\nlimit {limit}\ngamma {gamma}\nseed {seed}"
    )
}

// Adds the rounds, and marks the claims as they are confirmed.
fn add_rounds(text: &mut String, s: &Session, confirmed: &mut [bool]) -> Result<(), AllocError>
    requires sound { IsSession s.now.session }
    requires none { confirmed.old ≡ replicate (length s.now.session.margins) false }
    ensures { IfOk result (λ _. string_bytes text.new ≡
        string_bytes text.old ++ rounds_from s.now.session 1 s.now.session.rounds) }
{
    let limit = s.limit();
    let margins = s.margins();
    let rounds = s.rounds();
    for i in 0..rounds.len() {
        let round = &rounds[i];
        confirm(confirmed, limit, round);
        add_draws(text, i + 1, round.draws())?;
        add_claims(text, margins, round, confirmed)?;
    }
    Ok(())
}

/// The lines of a session: its contest, cards, limit, gamma and seed, each round with the counts and the risk of each claim and
/// whether it is confirmed by then, and whether the session is signed off. Every line ends with a line feed.
pub fn session_table(alloc: Global, s: &Session) -> Result<Vec<u8>, Memory>
    ensures { IfOk result (λ text. text.items ≡ session_table s.now) }
{
    let mut text = String::new(alloc);
    add_head(
        &mut text,
        s.contest().text(),
        s.cards(),
        s.limit(),
        s.gamma(),
        s.seed().text(),
    )?;
    let mut confirmed = vec![in alloc; false; s.margins().len()]?;
    add_rounds(&mut text, s, &mut confirmed)?;
    add_signed_off(&mut text, signed_off(s))?;
    Ok(text.into_bytes())
}
