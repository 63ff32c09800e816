// The arguments of a command, from the matches of its line.
ghost use Rattle.std.specs.Prelude.{◌≡◌, List, ℕ, true, IsTrue, IfOk, Some};
ghost use Rattle.std.specs.List.{list_all};
ghost use Rattle.clap.specs.Words.{first_of, rows_of, found_of};
ghost use Rattle.command_line.specs.Table.{is_number_option};
ghost use Rattle.command_line.specs.Pieces.{Piece, fits};
ghost use Rattle.command_line.specs.Line.{budget, contest, each_gamma, given_number, number_of, plan_terms, seed};
ghost use Rattle.command_line.specs.OneForm.{IsShown, HasSeed, name_in, may_be_number, number_in};

use crate::table::{BEST, OptionName};
use budget::Budget;
use clap::ArgMatches;
use command::{FileName, PlanTerms};
use irv_base::Name;
use sampler::Seed;
use std::alloc::{AllocError, Global};

// The text that the matches have for an option or a file.
fn text<'a>(matches: &ArgMatches<'a>, id: &str) -> &'a str
    ensures { (text : List ℕ) → first_of id.now (rows_of (found_of matches.now)) ≡ Some text
        → result.now ≡ text }
{
    matches.get_str(id).unwrap_or("")
}

fn name_in(text: &str) -> Option<Name>
    ensures { result ≡ name_in text.now }
{
    Name::read(text.as_bytes())
}

/// The contest, if a line gives one.
pub fn contest(matches: &ArgMatches<'_>) -> Option<Name>
    ensures { (pieces : List Piece) → list_all fits pieces ≡ true
        → IsShown OptionName.Contest pieces (rows_of (found_of matches.now))
        → result ≡ contest pieces }
{
    name_in(text(matches, OptionName::Contest.text()))
}

/// The seed of a line that gives one.
pub fn seed(matches: &ArgMatches<'_>) -> Seed
    requires { HasSeed (rows_of (found_of matches.now)) }
    ensures { (pieces : List Piece)
        → IsShown OptionName.Seed pieces (rows_of (found_of matches.now))
        → result ≡ seed pieces }
{
    Seed::read(text(matches, OptionName::Seed.text())).unwrap()
}

fn number_in(text: &str) -> Option<u32>
    ensures { may_be_number text.now ≡ true → result ≡ number_in text.now }
{
    if text.is_empty() {
        return None;
    }
    text.parse::<u32>().ok()
}

/// The number that a line gives, if it gives one.
pub fn given_number(option: OptionName, matches: &ArgMatches<'_>) -> Option<u32>
    requires { IsTrue (is_number_option option) }
    ensures { (pieces : List Piece) → list_all fits pieces ≡ true
        → IsShown option pieces (rows_of (found_of matches.now))
        → result ≡ given_number option pieces }
{
    number_in(text(matches, option.text()))
}

/// The number that a line gives, or the default if it gives none.
pub fn number(option: OptionName, matches: &ArgMatches<'_>) -> u32
    requires { IsTrue (is_number_option option) }
    ensures { (pieces : List Piece) → list_all fits pieces ≡ true
        → IsShown option pieces (rows_of (found_of matches.now))
        → result ≡ number_of option pieces }
{
    given_number(option, matches).unwrap_or(option.kind().default())
}

/// The gamma of a poll with a look after each draw: the number that a line gives, or the default if it gives none. There is no gamma if the
/// line says `BEST`.
pub fn each_gamma(matches: &ArgMatches<'_>) -> Option<u32>
    ensures { (pieces : List Piece) → list_all fits pieces ≡ true
        → IsShown OptionName.EachGamma pieces (rows_of (found_of matches.now))
        → result ≡ each_gamma pieces }
{
    let text = text(matches, OptionName::EachGamma.text());
    if text == BEST {
        return None;
    }
    Some(number_in(text).unwrap_or(OptionName::EachGamma.kind().default()))
}

/// This many sets if a line gives them, and this many nodes otherwise.
pub fn budget(matches: &ArgMatches<'_>) -> Budget
    ensures { (pieces : List Piece) → list_all fits pieces ≡ true
        → IsShown OptionName.Nodes pieces (rows_of (found_of matches.now))
        → IsShown OptionName.Sets pieces (rows_of (found_of matches.now))
        → result ≡ budget pieces }
{
    let nodes = number(OptionName::Nodes, matches);
    match given_number(OptionName::Sets, matches) {
        Some(sets) => Budget::Sets(sets),
        None => Budget::Nodes(nodes),
    }
}

/// What clean draws are planned for, if a line gives a number of cards.
pub fn plan_terms(matches: &ArgMatches<'_>) -> Option<PlanTerms>
    ensures { (pieces : List Piece) → list_all fits pieces ≡ true
        → IsShown OptionName.Cards pieces (rows_of (found_of matches.now))
        → IsShown OptionName.Limit pieces (rows_of (found_of matches.now))
        → IsShown OptionName.Gamma pieces (rows_of (found_of matches.now))
        → result ≡ plan_terms pieces }
{
    let limit = number(OptionName::Limit, matches);
    let gamma = number(OptionName::Gamma, matches);
    let cards = given_number(OptionName::Cards, matches)?;
    Some(PlanTerms {
        cards,
        limit,
        gamma,
    })
}

/// The name of a file.
pub fn file(alloc: Global, id: &str, matches: &ArgMatches<'_>) -> Result<FileName, AllocError>
    ensures { (name : List ℕ) → first_of id.now (rows_of (found_of matches.now)) ≡ Some name
        → IfOk result (λ file. file ≡ name) }
{
    Ok(FileName::of(String::from_str(alloc, text(matches, id))?))
}
