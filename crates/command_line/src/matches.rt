// A line in its one form, parsed by a `clap` command that is made for its word.
ghost use Rattle.std.specs.Prelude.{◌≡◌, List, ℕ, false, IfOk, IfErr, map, string_bytes};
ghost use Rattle.clap.specs.Words.{app_of, new_rule, rule_of, rows_of, found_of, kind_of};
ghost use Rattle.command_line.specs.Words.{texts};
ghost use Rattle.command_line.specs.Pieces.{Piece};
ghost use Rattle.command_line.specs.OneForm.{option_rule, option_rules, with_rules, app_for, one_form, Shows};

use crate::table::{CommandName, Form, OptionName};
use clap::error::ErrorKind;
use clap::{Arg, ArgMatches, Command, Error};
use std::alloc::{AllocError, Global};

fn option_arg<'a>(alloc: Global, text: &'a str) -> Arg<'a>
    ensures rule { rule_of result ≡ option_rule text.entry.now }
    ensures local { result.global ≡ false }
{
    Arg::new(alloc, text).long(text)
}

fn with_options<'a>(
    alloc: Global,
    mut app: Command<'a>,
    options: &[OptionName],
) -> Result<Command<'a>, AllocError>
    ensures { IfOk result (λ new.
        app_of new ≡ with_rules (app_of app.entry) (option_rules options.now)) }
{
    for option in options {
        app = app.arg(option_arg(alloc, option.text()))?;
    }
    Ok(app)
}

fn with_files<'a>(
    alloc: Global,
    mut app: Command<'a>,
    files: &'a [&'a str],
) -> Result<Command<'a>, AllocError>
    ensures { IfOk result (λ new. app_of new
        ≡ with_rules (app_of app.entry) (map (λ name. new_rule name.now) files.entry.now)) }
{
    for name in files {
        app = app.arg(Arg::new(alloc, *name))?;
    }
    Ok(app)
}

fn app<'a>(alloc: Global, form: Form<'a>) -> Result<Command<'a>, AllocError>
    ensures { IfOk result (λ app. app_of app ≡ app_for form.entry.word.now
        (map (λ name. name.now) form.entry.files.now) form.entry.options.now) }
{
    let app = Command::new(alloc, form.word);
    let app = with_options(alloc, app, form.options)?;
    with_files(alloc, app, form.files)
}

/// Returns the matches of a line in its one form. It fails only if memory runs out.
pub fn matches_of<'a>(
    alloc: Global,
    command: CommandName,
    line: &'a [String],
) -> Result<ArgMatches<'a>, Error>
    ensures shows { (pieces : List Piece) → texts line.entry.now ≡ one_form command pieces
        → IfOk result (λ m. Shows command pieces (rows_of (found_of m))) }
    ensures memory { (pieces : List Piece) → texts line.entry.now ≡ one_form command pieces
        → IfErr result (λ e. kind_of e ≡ ErrorKind.OutOfMemory) }
{
    app(alloc, command.form())?.try_get_matches_from(line)
}
