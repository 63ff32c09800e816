// A command with its arguments, as a line asks for it.
ghost use Rattle.std.specs.Prelude.{◌≡◌, true, false, IfOk, IfSome};
ghost use Rattle.clap.specs.Words.{rows_of, found_of};
ghost use Rattle.command_line.specs.Words.{texts};
ghost use Rattle.command_line.specs.Line.{is_line, are_right, pieces_of, command_of, meaning};
ghost use Rattle.command_line.specs.OneForm.{AreOfLine, IsMeant};
ghost use Rattle.command_line.specs.Laws.{IsChecked};

use crate::arguments::{budget, contest, each_gamma, file, number, plan_terms, seed};
use crate::line::line_named;
use crate::matches::matches_of;
use crate::one_form::one_form;
use crate::table::{ASSERTIONS, BALLOTS, CLAIMS, CommandName, MANIFEST, OptionName, SEEN, SESSION};
use clap::ArgMatches;
use command::{
    AdoptTask, AuditPluralityTask, AuditTask, CheckTask, ContestsTask, OpenPluralityTask, OpenTask,
    PlanTask, PollEachTask, PollTask, ReportTask, SampleTask, SearchFewestTask, SearchTask,
    TabulateTask, TrialTask, TrimTask,
};
use irv_base::Memory;
use std::alloc::{AllocError, Global};

/// A command with what it is asked to do. Its files are named, but not read yet.
#[derive(Drop)]
pub enum Command {
    /// The assertions that confirm the winner of a contest, or why there are none.
    Search(SearchTask),
    /// Assertions like these with the fewest NENs.
    SearchFewest(SearchFewestTask),
    /// The rounds of a contest, or its first tie if that leaves open who has won.
    Tabulate(TabulateTask),
    /// Whether an assertion file holds for the ballots of a contest.
    Check(CheckTask),
    /// An assertion file without the claims that can be removed.
    Trim(TrimTask),
    /// An assertion file with the assertions of a claims file.
    Adopt(AdoptTask),
    /// The cards that a seed draws.
    Sample(SampleTask),
    /// The number of draws that a clean audit takes.
    Plan(PlanTask),
    /// The session of an audit before its first round.
    Open(OpenTask),
    /// The session with one more round.
    Audit(AuditTask),
    /// What a session says.
    Report(ReportTask),
    /// Whether what is on the drawn cards confirms the assertions, with no card matched to its record.
    Poll(PollTask),
    /// The same as `Poll`, with a look after each draw.
    PollEach(PollEachTask),
    /// The session of an audit of first preferences, before its first round.
    OpenPlurality(OpenPluralityTask),
    /// The session of an audit of first preferences with one more round.
    AuditPlurality(AuditPluralityTask),
    /// One round of an audit of each contest of a ballot file.
    Contests(ContestsTask),
    /// A search of a contest whose records are drawn from a number.
    Trial(TrialTask),
}

fn search(alloc: Global, matches: &ArgMatches<'_>) -> Result<Command, AllocError>
    ensures { IsMeant CommandName.Search (rows_of (found_of matches.now)) result }
{
    Ok(Command::Search(SearchTask {
        ballots: file(alloc, BALLOTS, matches)?,
        contest: contest(matches),
        workers: number(OptionName::Workers, matches),
        budget: budget(matches),
        floor: number(OptionName::Floor, matches),
        plan: plan_terms(matches),
    }))
}

fn search_fewest(alloc: Global, matches: &ArgMatches<'_>) -> Result<Command, AllocError>
    ensures { IsMeant CommandName.SearchFewest (rows_of (found_of matches.now)) result }
{
    Ok(Command::SearchFewest(SearchFewestTask {
        ballots: file(alloc, BALLOTS, matches)?,
        contest: contest(matches),
        workers: number(OptionName::Workers, matches),
        sets: number(OptionName::FewestSets, matches),
        floor: number(OptionName::Floor, matches),
        gap: number(OptionName::Gap, matches),
        plan: plan_terms(matches),
    }))
}

fn tabulate(alloc: Global, matches: &ArgMatches<'_>) -> Result<Command, AllocError>
    ensures { IsMeant CommandName.Tabulate (rows_of (found_of matches.now)) result }
{
    Ok(Command::Tabulate(TabulateTask {
        ballots: file(alloc, BALLOTS, matches)?,
        contest: contest(matches),
        nodes: number(OptionName::Nodes, matches),
    }))
}

fn check(alloc: Global, matches: &ArgMatches<'_>) -> Result<Command, AllocError>
    ensures { IsMeant CommandName.Check (rows_of (found_of matches.now)) result }
{
    Ok(Command::Check(CheckTask {
        ballots: file(alloc, BALLOTS, matches)?,
        assertions: file(alloc, ASSERTIONS, matches)?,
        contest: contest(matches),
        budget: budget(matches),
    }))
}

fn trim(alloc: Global, matches: &ArgMatches<'_>) -> Result<Command, AllocError>
    ensures { IsMeant CommandName.Trim (rows_of (found_of matches.now)) result }
{
    Ok(Command::Trim(TrimTask {
        ballots: file(alloc, BALLOTS, matches)?,
        assertions: file(alloc, ASSERTIONS, matches)?,
        contest: contest(matches),
        budget: budget(matches),
    }))
}

fn adopt(alloc: Global, matches: &ArgMatches<'_>) -> Result<Command, AllocError>
    ensures { IsMeant CommandName.Adopt (rows_of (found_of matches.now)) result }
{
    Ok(Command::Adopt(AdoptTask {
        ballots: file(alloc, BALLOTS, matches)?,
        claims: file(alloc, CLAIMS, matches)?,
        contest: contest(matches),
        budget: budget(matches),
    }))
}

fn sample(alloc: Global, matches: &ArgMatches<'_>) -> Result<Command, AllocError>
    requires { AreOfLine CommandName.Sample (rows_of (found_of matches.now)) }
    ensures { IsMeant CommandName.Sample (rows_of (found_of matches.now)) result }
{
    Ok(Command::Sample(SampleTask {
        manifest: file(alloc, MANIFEST, matches)?,
        seed: seed(matches),
        draws: number(OptionName::Draws, matches),
    }))
}

fn plan(alloc: Global, matches: &ArgMatches<'_>) -> Result<Command, AllocError>
    ensures { IsMeant CommandName.Plan (rows_of (found_of matches.now)) result }
{
    Ok(Command::Plan(PlanTask {
        manifest: file(alloc, MANIFEST, matches)?,
        assertions: file(alloc, ASSERTIONS, matches)?,
        limit: number(OptionName::Limit, matches),
        gamma: number(OptionName::Gamma, matches),
    }))
}

fn open_session(alloc: Global, matches: &ArgMatches<'_>) -> Result<Command, AllocError>
    requires { AreOfLine CommandName.Open (rows_of (found_of matches.now)) }
    ensures { IsMeant CommandName.Open (rows_of (found_of matches.now)) result }
{
    Ok(Command::Open(OpenTask {
        ballots: file(alloc, BALLOTS, matches)?,
        manifest: file(alloc, MANIFEST, matches)?,
        assertions: file(alloc, ASSERTIONS, matches)?,
        seed: seed(matches),
        contest: contest(matches),
        limit: number(OptionName::Limit, matches),
        gamma: number(OptionName::Gamma, matches),
        budget: budget(matches),
    }))
}

fn audit(alloc: Global, matches: &ArgMatches<'_>) -> Result<Command, AllocError>
    ensures { IsMeant CommandName.Audit (rows_of (found_of matches.now)) result }
{
    Ok(Command::Audit(AuditTask {
        session: file(alloc, SESSION, matches)?,
        ballots: file(alloc, BALLOTS, matches)?,
        manifest: file(alloc, MANIFEST, matches)?,
        assertions: file(alloc, ASSERTIONS, matches)?,
        seen: file(alloc, SEEN, matches)?,
        draws: number(OptionName::Draws, matches),
        budget: budget(matches),
    }))
}

fn report(alloc: Global, matches: &ArgMatches<'_>) -> Result<Command, AllocError>
    ensures { IsMeant CommandName.Report (rows_of (found_of matches.now)) result }
{
    Ok(Command::Report(ReportTask {
        session: file(alloc, SESSION, matches)?,
    }))
}

fn poll(alloc: Global, matches: &ArgMatches<'_>) -> Result<Command, AllocError>
    requires { AreOfLine CommandName.Poll (rows_of (found_of matches.now)) }
    ensures { IsMeant CommandName.Poll (rows_of (found_of matches.now)) result }
{
    Ok(Command::Poll(PollTask {
        manifest: file(alloc, MANIFEST, matches)?,
        assertions: file(alloc, ASSERTIONS, matches)?,
        seen: file(alloc, SEEN, matches)?,
        seed: seed(matches),
        draws: number(OptionName::Draws, matches),
        limit: number(OptionName::Limit, matches),
        gamma: number(OptionName::Gamma, matches),
        nodes: number(OptionName::Nodes, matches),
    }))
}

fn poll_each(alloc: Global, matches: &ArgMatches<'_>) -> Result<Command, AllocError>
    requires { AreOfLine CommandName.PollEach (rows_of (found_of matches.now)) }
    ensures { IsMeant CommandName.PollEach (rows_of (found_of matches.now)) result }
{
    Ok(Command::PollEach(PollEachTask {
        manifest: file(alloc, MANIFEST, matches)?,
        assertions: file(alloc, ASSERTIONS, matches)?,
        seen: file(alloc, SEEN, matches)?,
        seed: seed(matches),
        draws: number(OptionName::Draws, matches),
        limit: number(OptionName::Limit, matches),
        gamma: each_gamma(matches),
        nodes: number(OptionName::Nodes, matches),
    }))
}

fn open_plurality(alloc: Global, matches: &ArgMatches<'_>) -> Result<Command, AllocError>
    requires { AreOfLine CommandName.OpenPlurality (rows_of (found_of matches.now)) }
    ensures { IsMeant CommandName.OpenPlurality (rows_of (found_of matches.now)) result }
{
    Ok(Command::OpenPlurality(OpenPluralityTask {
        ballots: file(alloc, BALLOTS, matches)?,
        manifest: file(alloc, MANIFEST, matches)?,
        seed: seed(matches),
        contest: contest(matches),
        limit: number(OptionName::Limit, matches),
        gamma: number(OptionName::Gamma, matches),
    }))
}

fn audit_plurality(alloc: Global, matches: &ArgMatches<'_>) -> Result<Command, AllocError>
    ensures { IsMeant CommandName.AuditPlurality (rows_of (found_of matches.now)) result }
{
    Ok(Command::AuditPlurality(AuditPluralityTask {
        session: file(alloc, SESSION, matches)?,
        ballots: file(alloc, BALLOTS, matches)?,
        manifest: file(alloc, MANIFEST, matches)?,
        seen: file(alloc, SEEN, matches)?,
        draws: number(OptionName::Draws, matches),
    }))
}

fn contests(alloc: Global, matches: &ArgMatches<'_>) -> Result<Command, AllocError>
    requires { AreOfLine CommandName.Contests (rows_of (found_of matches.now)) }
    ensures { IsMeant CommandName.Contests (rows_of (found_of matches.now)) result }
{
    Ok(Command::Contests(ContestsTask {
        ballots: file(alloc, BALLOTS, matches)?,
        manifest: file(alloc, MANIFEST, matches)?,
        seen: file(alloc, SEEN, matches)?,
        seed: seed(matches),
        draws: number(OptionName::Draws, matches),
        limit: number(OptionName::Limit, matches),
        gamma: number(OptionName::Gamma, matches),
        workers: number(OptionName::Workers, matches),
        nodes: number(OptionName::Nodes, matches),
    }))
}

fn trial(matches: &ArgMatches<'_>) -> Command
    ensures { IsMeant CommandName.Trial (rows_of (found_of matches.now)) (Ok result) }
{
    Command::Trial(TrialTask {
        number: number(OptionName::Number, matches),
        candidates: number(OptionName::Candidates, matches),
        ballots: number(OptionName::Ballots, matches),
        workers: number(OptionName::Workers, matches),
        budget: budget(matches),
    })
}

// Reads the command from the matches of its line.
fn read_command(
    alloc: Global,
    name: CommandName,
    matches: &ArgMatches<'_>,
) -> Result<Command, AllocError>
    requires { AreOfLine name (rows_of (found_of matches.now)) }
    ensures { IsMeant name (rows_of (found_of matches.now)) result }
{
    match name {
        CommandName::Search => search(alloc, matches),
        CommandName::SearchFewest => search_fewest(alloc, matches),
        CommandName::Tabulate => tabulate(alloc, matches),
        CommandName::Check => check(alloc, matches),
        CommandName::Trim => trim(alloc, matches),
        CommandName::Adopt => adopt(alloc, matches),
        CommandName::Sample => sample(alloc, matches),
        CommandName::Plan => plan(alloc, matches),
        CommandName::Open => open_session(alloc, matches),
        CommandName::Audit => audit(alloc, matches),
        CommandName::Report => report(alloc, matches),
        CommandName::Poll => poll(alloc, matches),
        CommandName::PollEach => poll_each(alloc, matches),
        CommandName::OpenPlurality => open_plurality(alloc, matches),
        CommandName::AuditPlurality => audit_plurality(alloc, matches),
        CommandName::Contests => contests(alloc, matches),
        CommandName::Trial => Ok(trial(matches)),
    }
}

// Reads the command from a line that begins with the command's word.
fn read_line(alloc: Global, name: CommandName, words: &[String]) -> Result<Command, Memory>
    requires { are_right name (pieces_of name (texts words.now)) ≡ true }
    ensures { IfOk result (λ command. command ≡ meaning name (pieces_of name (texts words.now))) }
{
    let form = one_form(alloc, name, words)?;
    match matches_of(alloc, name, form.as_slice()) {
        Ok(matches) => Ok(read_command(alloc, name, &matches)?),
        Err(_) => Err(Memory),
    }
}

/// Returns the command that the words ask for. There is none exactly if the words aren't a line.
///
/// # Errors
///
/// Only `Memory`, and only for words that are a line.
pub fn read(alloc: Global, words: &[String]) -> Result<Option<Command>, Memory>
    ensures read { IfOk result (λ command. command ≡ command_of (texts words.now)) }
    // Files have names, and numbers are within their limits.
    ensures checked { IfOk result (λ command. IfSome command IsChecked) }
    ensures no_line { is_line (texts words.now) ≡ false → result ≡ Ok None }
{
    match words.split_first() {
        Some((word, words)) => match line_named(word.as_str(), words) {
            Some(name) => Ok(Some(read_line(alloc, name, words)?)),
            None => Ok(None),
        },
        None => Ok(None),
    }
}
