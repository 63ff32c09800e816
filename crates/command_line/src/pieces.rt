// What the words after a command word mean: files, and options with their values.
ghost use Rattle.std.specs.Prelude.{◌≡◌, None, option_map};
ghost use Rattle.std.specs.Iterator.{YieldsFirstBy, item_count};
ghost use Rattle.command_line.specs.Words.{texts};
ghost use Rattle.command_line.specs.Pieces.{begins_with_hyphen, option_named, named, valued, long_sort, word_sort, value_piece, pieces, is_file, file_in, gives, value_in, fits};
ghost use Rattle.command_line.specs.Views.{piece, sort};

use crate::table::OptionName;
use std::marker::Model;
use std::slice::Iter;

/// A file, or an option with its value.
#[derive(Clone, Copy)]
pub enum Piece<'w> {
    /// The name of a file.
    File(&'w str),
    /// An option, and the text of its value.
    Given(OptionName, &'w str),
    /// A word that has no place in a line.
    Stray,
}

// A word by itself, before a word `--`.
#[derive(Clone, Copy)]
enum WordSort<'w> {
    Dashes,
    Plain,
    Flagged(OptionName),
    Named(OptionName),
    Valued(OptionName, &'w str),
    Unknown,
}

fn begins_with_hyphen(word: &str) -> bool
    ensures { result ≡ begins_with_hyphen word.now }
{
    word.starts_with("-")
}

fn option_named(options: &[OptionName], name: &str) -> Option<OptionName>
    ensures { result ≡ option_named options.now name.now }
{
    options.iter().copied().find(|option| option.text() == name)
}

// The word `--name`, for this option if there is one.
fn named<'w>(option: Option<OptionName>) -> WordSort<'w>
    ensures { sort result ≡ named option }
{
    match option {
        Some(option) => {
            if option.kind().is_flag() {
                WordSort::Flagged(option)
            } else {
                WordSort::Named(option)
            }
        }
        None => WordSort::Unknown,
    }
}

// The word `--name=value`, for this option if there is one.
fn valued<'w>(option: Option<OptionName>, value: &'w str) -> WordSort<'w>
    ensures { sort result ≡ valued option value.now }
{
    match option {
        Some(option) => {
            if option.kind().is_flag() {
                WordSort::Unknown
            } else {
                WordSort::Valued(option, value)
            }
        }
        None => WordSort::Unknown,
    }
}

fn long_sort<'w>(options: &[OptionName], long: &'w str) -> WordSort<'w>
    ensures { sort result ≡ long_sort options.now long.now }
{
    match long.split_once('=') {
        Some((name, value)) => valued(option_named(options, name), value),
        None => named(option_named(options, long)),
    }
}

fn word_sort<'w>(options: &[OptionName], word: &'w str) -> WordSort<'w>
    ensures { sort result ≡ word_sort options.now word.now }
{
    if word == "--" {
        return WordSort::Dashes;
    }
    match word.strip_prefix("--") {
        Some(long) => long_sort(options, long),
        None if begins_with_hyphen(word) => WordSort::Unknown,
        None => WordSort::Plain,
    }
}

// The word after `--name`.
fn value_piece<'w>(option: OptionName, word: &'w str) -> Piece<'w>
    ensures { piece result ≡ value_piece option word.now }
{
    if begins_with_hyphen(word) {
        Piece::Stray
    } else {
        Piece::Given(option, word)
    }
}

impl<'w> Piece<'w> {
    /// Whether it is a file.
    pub fn is_file(self) -> bool
        ensures { result ≡ is_file (piece self.entry) }
    {
        self.file().is_some()
    }

    /// Whether it is this option with a value.
    pub fn gives(self, option: OptionName) -> bool
        ensures { result ≡ gives option (piece self.entry) }
    {
        self.value(option).is_some()
    }

    /// The name of the file, if it is one.
    pub fn file(self) -> Option<&'w str>
        ensures { option_map (λ name. name.now) result ≡ file_in (piece self.entry) }
    {
        match self {
            Piece::File(name) => Some(name),
            _ => None,
        }
    }

    /// The text of the value, if it is this option.
    pub fn value(self, option: OptionName) -> Option<&'w str>
        ensures { option_map (λ value. value.now) result ≡ value_in option (piece self.entry) }
    {
        match self {
            Piece::Given(other, value) if other.is_same(option) => Some(value),
            _ => None,
        }
    }

    /// Whether a file has a name, and a value is of its option's kind.
    pub fn fits(self) -> bool
        ensures { result ≡ fits (piece self.entry) }
    {
        match self {
            Piece::File(name) => !name.is_empty(),
            Piece::Given(option, value) => option.kind().is_value(value),
            Piece::Stray => false,
        }
    }
}

/// The pieces that haven't been read yet.
#[derive(Drop)]
pub struct Pieces<'w> {
    words: Iter<'w, String>,
    options: &'w [OptionName],
    only_files: bool,
}

impl<'w> Model for Pieces<'w> {
    ghost use Rattle.std.specs.Prelude.{List, length, ◌<◌, ◌^◌};
    ghost use Rattle.std.specs.Slice.Iter.{iter_rest};
    ghost use Rattle.command_line.specs.Words.{texts};
    ghost use Rattle.command_line.specs.Pieces.{Piece, pieces_left};

    ghost Value = { List Piece };

    ghost view = { λ s. pieces_left s.only_files s.options.now (texts (iter_rest s.words)) };

    // The pieces can be counted.
    ghost invariant = { λ s.
        length (pieces_left s.only_files s.options.now (texts (iter_rest s.words))) < 2 ^ 64 };
}

impl<'w> Pieces<'w> {
    /// The pieces of the words after the word of a command that has these options.
    pub fn of(options: &'w [OptionName], words: &'w [String]) -> Pieces<'w>
        ensures { result ≡ pieces options.now (texts words.now) }
    {
        Pieces {
            words: words.iter(),
            options,
            only_files: false,
        }
    }
}

impl<'w> Iterator for Pieces<'w> {
    type Item = Piece<'w>;

    ghost next_gives = { YieldsFirstBy piece (λ pieces. pieces) };

    ghost remaining = { item_count (λ pieces. pieces) };

    fn next(&mut self) -> Option<Piece<'w>> {
        let word = self.words.next()?.as_str();
        if self.only_files {
            return Some(Piece::File(word));
        }
        match word_sort(self.options, word) {
            WordSort::Dashes => {
                self.only_files = true;
                Some(Piece::File(self.words.next()?.as_str()))
            }
            WordSort::Plain => Some(Piece::File(word)),
            WordSort::Flagged(option) => Some(Piece::Given(option, "")),
            WordSort::Named(option) => match self.words.next() {
                Some(value) => Some(value_piece(option, value.as_str())),
                None => Some(Piece::Stray),
            },
            WordSort::Valued(option, value) => Some(Piece::Given(option, value)),
            WordSort::Unknown => Some(Piece::Stray),
        }
    }
}
