// Which words are a line.
ghost use Rattle.std.specs.Prelude.{◌≡◌, length};
ghost use Rattle.std.specs.List.{list_all};
ghost use Rattle.command_line.specs.Words.{texts};
ghost use Rattle.command_line.specs.Line.{is_line, is_line_of, line_named, are_given, are_right, is_given, is_given_apart, is_given_right, is_given_together, pieces_of};
ghost use Rattle.command_line.specs.Pieces.{pieces, files_in, values_in, fits};

use crate::pieces::Pieces;
use crate::table::{Apart, COMMANDS, CommandName, OptionName, Together};

fn file_count(pieces: Pieces<'_>) -> usize
    ensures { result ≡ length (files_in pieces.entry) }
{
    pieces.filter(|piece| piece.is_file()).count()
}

fn times_given(option: OptionName, pieces: Pieces<'_>) -> usize
    ensures { result ≡ length (values_in option pieces.entry) }
{
    pieces.filter(|piece| piece.gives(option)).count()
}

// Whether an option is given at most once, and exactly once if a line must give it.
fn is_given_right(option: OptionName, pieces: Pieces<'_>) -> bool
    ensures { result ≡ is_given_right option pieces.entry }
{
    let times = times_given(option, pieces);
    times <= 1 && (times == 1 || !option.kind().is_needed())
}

fn all_fit(mut pieces: Pieces<'_>) -> bool
    ensures { result ≡ list_all fits pieces.entry }
{
    pieces.all(|piece| piece.fits())
}

fn are_given_right(options: &[OptionName], words: &[String]) -> bool
    ensures { let all = pieces options.now (texts words.now) in
        result ≡ list_all (λ option. is_given_right option all) options.now }
{
    options.iter().all(|option| is_given_right(*option, Pieces::of(options, words)))
}

fn is_given(option: OptionName, pieces: Pieces<'_>) -> bool
    ensures { result ≡ is_given option pieces.entry }
{
    times_given(option, pieces) >= 1
}

fn are_given_together(options: &[OptionName], together: &[Together], words: &[String]) -> bool
    ensures { let all = pieces options.now (texts words.now) in
        result ≡ list_all (λ two. is_given_together two all) together.now }
{
    together.iter().all(|two| {
        !is_given(two.option, Pieces::of(options, words))
            || is_given(two.with, Pieces::of(options, words))
    })
}

fn are_given_apart(options: &[OptionName], apart: &[Apart], words: &[String]) -> bool
    ensures { let all = pieces options.now (texts words.now) in
        result ≡ list_all (λ two. is_given_apart two all) apart.now }
{
    apart.iter().all(|two| {
        !(is_given(two.option, Pieces::of(options, words))
            && is_given(two.other, Pieces::of(options, words)))
    })
}

fn are_given(
    options: &[OptionName],
    together: &[Together],
    apart: &[Apart],
    words: &[String],
) -> bool
    ensures { let all = pieces options.now (texts words.now) in
        result ≡ are_given options.now together.now apart.now all }
{
    are_given_right(options, words)
        && are_given_together(options, together, words)
        && are_given_apart(options, apart, words)
}

// Whether the words after the command's word are correct.
fn are_right(command: CommandName, words: &[String]) -> bool
    ensures { result ≡ are_right command (pieces_of command (texts words.now)) }
{
    let form = command.form();
    all_fit(Pieces::of(form.options, words))
        && file_count(Pieces::of(form.options, words)) == form.files.len()
        && are_given(form.options, form.together, form.apart, words)
}

fn is_line_of(command: CommandName, word: &str, words: &[String]) -> bool
    ensures { result ≡ is_line_of command word.now (texts words.now) }
{
    command.form().word == word && are_right(command, words)
}

/// The command whose line a word and the words after it are. Two commands may have the same word.
pub fn line_named(word: &str, words: &[String]) -> Option<CommandName>
    ensures { result ≡ line_named word.now (texts words.now) }
{
    COMMANDS
        .iter()
        .copied()
        .find(|command| is_line_of(*command, word, words))
}

/// Whether the words of a call, without the program's own name, are a line. Allocates no memory.
pub fn is_line(words: &[String]) -> bool
    ensures { result ≡ is_line (texts words.now) }
{
    match words.split_first() {
        Some((word, words)) => line_named(word.as_str(), words).is_some(),
        None => false,
    }
}
