// The tabulation of a contest, round by round.
ghost use Rattle.std.specs.Prelude.{◌≡◌, ◌<◌, ◌≤◌, ◌+◌, ◌++◌, length, codes, All, IfOk, string_bytes};
ghost use Rattle.std.specs.Fmt.{decimal};
ghost use Rattle.irv_base.specs.Candidates.{is_in};
ghost use Rattle.irv_base.specs.declared.limits.TheConstants.{ROOM};
ghost use Rattle.irv_tabulator.specs.Rounds.{count_in, counts_in};
ghost use Rattle.irv_tabulator.specs.Results.{IsTabulation};
ghost use Rattle.report.specs.Tabulations.{in_number_order, tallies_text, tied_line, round_text, rounds_text, tabulation_text};
ghost use Rattle.report.specs.Texts.{set_text};

use crate::text::{choose, set_text};
use assertion_file::id_of;
use ballots::Votes;
use irv_base::{CandSet, Candidate, Memory, Name, Order};
use irv_tabulator::{Round, Tabulated};
use std::alloc::{AllocError, Global};

fn is_in(list: &[Candidate], c: Candidate) -> bool
    ensures { result ≡ is_in list.now c }
{
    list.contains(&c)
}

// These candidates in order of their numbers, which are below `n`.
fn in_number_order(alloc: Global, n: usize, list: &[Candidate]) -> Result<Vec<Candidate>, Memory>
    requires { n ≤ ROOM }
    ensures { IfOk result (λ sorted. sorted.items ≡ in_number_order n list.now) }
{
    let mut sorted = Vec::new(alloc);
    for i in 0..n {
        let c = Candidate(i as u8);
        choose(&mut sorted, c, is_in(list, c))?;
    }
    Ok(sorted)
}

fn add_tally(text: &mut String, id: &str, votes: u32) -> Result<(), AllocError>
    ensures { IfOk result (λ _. string_bytes text.new ≡
        string_bytes text.old ++ (codes " " ++ id.now ++ codes "=" ++ decimal votes)) }
{
    write!(text, " {id}={votes}")
}

fn tallies_text(
    alloc: Global,
    names: &[Name],
    row: &[u32],
    remaining: &[Candidate],
) -> Result<String, Memory>
    requires named { All (λ c. c < length names.now) remaining.now }
    requires tallied { length row.now ≡ length names.now }
    ensures { IfOk result (λ text.
        string_bytes text ≡ tallies_text names.now row.now remaining.now) }
{
    let mut text = String::new(alloc);
    for c in remaining {
        add_tally(&mut text, id_of(names, *c), row[c.index()])?;
    }
    Ok(text)
}

fn round_lines(
    alloc: Global,
    i: u32,
    tallies: &str,
    exhausted: u32,
    tied: &str,
    loser: &str,
) -> Result<String, AllocError>
    ensures { IfOk result (λ text. string_bytes text ≡
        codes "round " ++ decimal i ++ codes ":" ++ tallies.now ++
        codes " exhausted=" ++ decimal exhausted ++ codes "\n" ++ tied.now ++
        codes "eliminated " ++ loser.now ++ codes "\n") }
{
    format!(in alloc; "round {i}:{tallies} exhausted={exhausted}\n{tied}eliminated {loser}\n")
}

fn tied_text(alloc: Global, tied: &str) -> Result<String, AllocError>
    ensures { IfOk result (λ text. string_bytes text ≡
        codes "tied " ++ tied.now ++ codes "\n") }
{
    format!(in alloc; "tied {tied}\n")
}

// The line with the candidates who share the smallest tally, if there are several.
fn tied_line(alloc: Global, names: &[Name], tied: CandSet) -> Result<String, Memory>
    requires { length names.now ≤ ROOM }
    ensures { IfOk result (λ text. string_bytes text ≡ tied_line names.now tied) }
{
    if tied.len() < 2 {
        return Ok(String::new(alloc));
    }
    let ids = set_text(alloc, names, tied)?;
    let line = tied_text(alloc, ids.as_str())?;
    Ok(line)
}

// The lines of round `i`. These candidates remain in it, and the first of them is eliminated.
fn round_text(
    alloc: Global,
    names: &[Name],
    i: u32,
    remaining: &[Candidate],
    loser: Candidate,
    round: &Round,
) -> Result<String, Memory>
    requires few { length names.now ≤ ROOM }
    requires named { loser < length names.now }
    requires tallied { length (count_in round.now).votes ≡ length names.now }
    ensures { IfOk result (λ text. string_bytes text ≡
        round_text names.now i remaining.now loser (count_in round.now)) }
{
    let remaining = in_number_order(alloc, names.len(), remaining)?;
    let tallies = tallies_text(alloc, names, &round.tallies, &remaining)?;
    let tied = tied_line(alloc, names, round.tied)?;
    let text = round_lines(
        alloc,
        i,
        tallies.as_str(),
        round.exhausted,
        tied.as_str(),
        id_of(names, loser),
    )?;
    Ok(text)
}

fn rounds_text(
    alloc: Global,
    names: &[Name],
    order: &Order,
    rounds: &[Round],
) -> Result<String, Memory>
    requires few { length names.now ≤ ROOM }
    requires named { length order.now ≡ length names.now }
    requires fewer { length rounds.now < length order.now }
    requires tallied { All (λ round. length (count_in round).votes ≡ length names.now) rounds.now }
    ensures { IfOk result (λ text. string_bytes text ≡
        rounds_text names.now 1 order.now (counts_in rounds.now)) }
{
    let mut text = String::new(alloc);
    let places = order.candidates();
    for i in 0..rounds.len() {
        let lines = round_text(
            alloc,
            names,
            i as u32 + 1,
            &places[i..],
            places[i],
            &rounds[i],
        )?;
        text.push_str(lines.as_str())?;
    }
    Ok(text)
}

fn whole_text(
    alloc: Global,
    contest: &str,
    records: u32,
    rounds: &str,
    winner: &str,
) -> Result<String, AllocError>
    ensures { IfOk result (λ text. string_bytes text ≡
        codes "contest " ++ contest.now ++ codes "\nrecords " ++ decimal records ++ codes "\n" ++
        rounds.now ++ codes "winner " ++ winner.now ++ codes "\n") }
{
    format!(in alloc; "contest {contest}\nrecords {records}\n{rounds}winner {winner}\n")
}

/// Returns the lines of a tabulation: the contest, the number of records, the rounds, and the winner. A round has the tallies of the
/// candidates who remain, the records that rank none of them, and the candidate who is eliminated. Every line ends with a line feed.
pub fn tabulation(alloc: Global, votes: &Votes, t: &Tabulated) -> Result<String, Memory>
    requires { IsTabulation (length (votes.now).candidates) (votes.now).rankings t.now }
    ensures { IfOk result (λ text.
        string_bytes text ≡ tabulation_text votes.now (t.now).order (t.now).winner) }
{
    let names = votes.candidates();
    let rounds = rounds_text(alloc, names, &t.order, &t.rounds)?;
    let text = whole_text(
        alloc,
        votes.contest().text(),
        votes.records(),
        rounds.as_str(),
        id_of(names, t.winner),
    )?;
    Ok(text)
}
