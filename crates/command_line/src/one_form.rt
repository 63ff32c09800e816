// The one form in which a line is passed to `clap`: the command's word, each of its options as `--name=value` (or as `--name=` if it isn't
// given), a word `--`, and the files.
ghost use Rattle.std.specs.Prelude.{◌≡◌, ◌++◌, IfOk, OnOk, string_bytes};
ghost use Rattle.command_line.specs.Words.{texts};
ghost use Rattle.command_line.specs.Line.{file, value, pieces_of};
ghost use Rattle.command_line.specs.Pieces.{pieces};
ghost use Rattle.command_line.specs.OneForm.{value_text, option_word, options_given, files_given, one_form};

use crate::pieces::Pieces;
use crate::table::{CommandName, OptionName};
use std::alloc::{AllocError, Global};

fn value_text<'w>(option: OptionName, mut pieces: Pieces<'w>) -> &'w str
    ensures { result.now ≡ value_text option pieces.entry }
{
    match pieces.find(|piece| piece.gives(option)) {
        Some(piece) => piece.value(option).unwrap_or(""),
        None => "",
    }
}

fn file<'w>(i: usize, pieces: Pieces<'w>) -> &'w str
    ensures { result.now ≡ file i pieces.entry }
{
    match pieces.filter(|piece| piece.is_file()).nth(i) {
        Some(piece) => piece.file().unwrap_or(""),
        None => "",
    }
}

fn option_word(alloc: Global, option: OptionName, value: &str) -> Result<String, AllocError>
    ensures { IfOk result (λ word. string_bytes word ≡ option_word option value.now) }
{
    format!(in alloc; "--{}={value}", option.text())
}

fn push_options(
    alloc: Global,
    line: &mut Vec<String>,
    options: &[OptionName],
    words: &[String],
) -> Result<(), AllocError>
    ensures { OnOk result (texts line.new.items ≡ texts line.old.items
        ++ options_given options.now (pieces options.now (texts words.now))) }
{
    for option in options {
        let value = value_text(*option, Pieces::of(options, words));
        line.push(option_word(alloc, *option, value)?)?;
    }
    Ok(())
}

fn push_files(
    alloc: Global,
    line: &mut Vec<String>,
    count: usize,
    options: &[OptionName],
    words: &[String],
) -> Result<(), AllocError>
    ensures { OnOk result (texts line.new.items ≡ texts line.old.items
        ++ files_given count (pieces options.now (texts words.now))) }
{
    for i in 0..count {
        let name = file(i, Pieces::of(options, words));
        line.push(String::from_str(alloc, name)?)?;
    }
    Ok(())
}

/// The one form of a line of the command.
pub fn one_form(
    alloc: Global,
    command: CommandName,
    words: &[String],
) -> Result<Vec<String>, AllocError>
    ensures { IfOk result (λ line.
        texts line.items ≡ one_form command (pieces_of command (texts words.now))) }
{
    let form = command.form();
    let mut line = Vec::new(alloc);
    line.push(String::from_str(alloc, form.word)?)?;
    push_options(alloc, &mut line, form.options, words)?;
    line.push(String::from_str(alloc, "--")?)?;
    push_files(alloc, &mut line, form.files.len(), form.options, words)?;
    Ok(line)
}
