ghost use Rattle.std.specs.Prelude.{◌≡◌, map, string_bytes};
ghost use Rattle.std.specs.List.{list_all, list_any};
ghost use Rattle.std.specs.Str.{bytes_eq};
ghost use Rattle.command_words.specs.Words.{fits, fits_values, are_options, is_file_name};

use crate::options::{ALSO, BEGIN, MAX_FRAME, MAX_INPUT, SENDER, SEQ, TARGET, TIME};
use std::marker::Model;

/// A form of the arguments. A command with two forms is two of these.
#[derive(Clone, Copy, Debug, PartialEq, Eq)]
pub enum Form {
    /// `check S`
    Check,
    /// `check S M`
    Coverage,
    /// `compat OLD NEW`
    Compat,
    /// `dump S`, with further schemas
    Dump,
    /// `build S`
    Build,
    /// `fixcheck M`
    FixCheck,
    /// `tofix S M`, with further schemas
    ToFix,
    /// `tosbe S M`
    ToSbe,
    /// `selftest S SEED COUNT`
    SelfTest,
    /// `regrade FROM TO`
    Regrade,
    /// `rawframe M`
    RawFrame,
}

/// The arguments of a form: a command's word, names of files, numbers, and options in pairs.
#[derive(Drop)]
pub struct Row {
    pub form: Form,
    /// The command's word.
    pub word: &'static str,
    /// How many names of files follow it.
    pub files: usize,
    /// How many numbers follow those: none, or a seed and a count.
    pub numbers: usize,
    /// The options that may come last.
    pub options: &'static [&'static str],
}

impl Model for Row {
    ghost use Rattle.std.specs.Prelude.{map};
    ghost use Rattle.command_words.specs.Words.{FormRow};

    ghost Value = { FormRow };

    ghost view = { λ row. record {
      form = row.form;
      word = row.word.now;
      files = row.files;
      numbers = row.numbers;
      options = map (λ option. option.now) row.options.now;
    } };
}

/// All forms, in the order in which they are tried: the form, its word, how many files it names, how many numbers
/// follow them, and its options.
pub const FORMS: [(Form, &str, usize, usize, &[&str]); 11] = [
    (Form::Check, "check", 1, 0, &[]),
    (Form::Coverage, "check", 2, 0, &[]),
    (Form::Compat, "compat", 2, 0, &[]),
    (Form::Dump, "dump", 1, 0, &[MAX_FRAME, MAX_INPUT, ALSO]),
    (Form::Build, "build", 1, 0, &[MAX_FRAME, MAX_INPUT]),
    (Form::FixCheck, "fixcheck", 1, 0, &[MAX_FRAME, MAX_INPUT]),
    (
        Form::ToFix,
        "tofix",
        2,
        0,
        &[MAX_FRAME, MAX_INPUT, BEGIN, SENDER, TARGET, SEQ, TIME, ALSO],
    ),
    (Form::ToSbe, "tosbe", 2, 0, &[MAX_FRAME, MAX_INPUT]),
    (Form::SelfTest, "selftest", 1, 2, &[MAX_FRAME]),
    (Form::Regrade, "regrade", 2, 0, &[MAX_FRAME, MAX_INPUT]),
    (Form::RawFrame, "rawframe", 1, 0, &[MAX_FRAME, MAX_INPUT]),
];

impl Row {
    /// Whether arguments have this form, whatever the numbers and the values of options are.
    pub fn fits(&self, words: &[String]) -> bool
        ensures { result ≡ fits self.now (map (λ word. string_bytes word) words.now) }
    {
        let [word, rest @ ..] = words else {
            return false;
        };
        if word.as_str() != self.word || rest.len() < self.files {
            return false;
        }
        if !are_file_names(&rest[..self.files]) {
            return false;
        }
        self.fits_values(&rest[self.files..])
    }

    /// Whether these arguments are as many numbers as the form has, of any value, and then its options.
    fn fits_values(&self, values: &[String]) -> bool
        ensures { result ≡ fits_values self.now (map (λ word. string_bytes word) values.now) }
    {
        if values.len() < self.numbers {
            return false;
        }
        self.takes_all(&values[self.numbers..])
    }

    /// Whether these arguments are options of the form, each with a value.
    fn takes_all(&self, options: &[String]) -> bool
        ensures { result ≡ are_options self.now.options (map (λ word. string_bytes word) options.now) }
    {
        let mut left = options;
        while let [word, _, rest @ ..] = left {
            if !is_among(word.as_str(), self.options) {
                return false;
            }
            left = rest;
        }
        left.is_empty()
    }
}

fn is_among(word: &str, options: &[&str]) -> bool
    ensures { result ≡ list_any (λ option. bytes_eq option.now word.now) options.now }
{
    options.iter().any(|option| *option == word)
}

fn are_file_names(words: &[String]) -> bool
    ensures { result ≡ list_all (λ word. is_file_name (string_bytes word)) words.now }
{
    words.iter().all(|word| names_file(word.as_str()))
}

/// Whether an argument can be the name of a file.
pub fn names_file(word: &str) -> bool
    ensures { result ≡ is_file_name word.now }
{
    let bytes = word.as_bytes();
    if bytes.is_empty() {
        return false;
    }
    &bytes[..bytes.len().min(2)] != b"--".as_slice()
}
