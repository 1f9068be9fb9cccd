ghost use Rattle.std.specs.Prelude.{◌≡◌, ◌<◌, map, string_bytes, IfOk, Some, length, slice_get};
ghost use Rattle.std.specs.List.{list_all};
ghost use Rattle.command_words.specs.Words.{Says, HasLimits, begin_given, command_from, command_of, file_at, head_of, is_file_name, limits_of};
ghost use Rattle.command_words.specs.Words.{names_given, rows, said_by, said_after, text_given, text_in, values_of};
ghost use Rattle.command_words.specs.declared.forms.TheConstants.{FORMS};

use crate::forms::{FORMS, Form, Row, names_file};
use crate::options::{
    ALSO, BEGIN, DEFAULT_BEGIN, Draws, FRAME_RANGE, HeadWords, INPUT_RANGE, MAX_FRAME, MAX_INPUT,
    MOST_ALSO, SENDER, SEQ, SEQ_RANGE, TARGET, TIME, draws_of, is_field_text, number_given,
};
use lists::{List, NoMem, Text};
use sbe_base::Limits;
use std::alloc::Global;
use std::marker::Model;
use thiserror::Error;

/// The name of a file: an argument that isn't empty and doesn't begin with `--`.
#[derive(Drop)]
pub struct Name {
    text: String,
}

impl Model for Name {
    ghost use Rattle.std.specs.Prelude.{ℕ, List, string_bytes};

    ghost Value = { List ℕ };

    ghost view = { λ name. string_bytes name.text };
}

/// Names of files, in the order of the arguments.
pub type NameList = List<Name>;

impl Name {
    /// The name with this text.
    fn new(alloc: Global, text: &str) -> Result<Name, NoMem>
        ensures { IfOk result (λ name. name ≡ text.now) }
    {
        let text = String::from_str(alloc, text)?;
        Ok(Name { text })
    }

    /// The name as text.
    pub fn as_str(&self) -> &str
        ensures { result.now ≡ self.now }
    {
        self.text.as_str()
    }
}

/// What a run has to do: the form of its arguments, and their values.
#[derive(Drop)]
pub struct Command {
    pub form: Form,
    /// The files that the form names, in the order of the arguments.
    pub files: NameList,
    /// The messages that the form draws. None if it has no numbers.
    pub draws: Draws,
    /// Further schemas.
    pub also: NameList,
    /// What is given for the head of a text. A form that writes no texts has a head that is given nothing.
    pub head: HeadWords,
    /// The limits of its input.
    pub limits: Limits,
}

impl Command {
    /// The name of the file at this index, or an empty name if the form has fewer files.
    pub fn file(&self, place: usize) -> &str
        ensures { result.now ≡ file_at self.now place }
    {
        match self.files.as_slice().get(place) {
            Some(name) => name.as_str(),
            None => "",
        }
    }
}

/// Why arguments aren't a command.
#[derive(Clone, Copy, Debug, PartialEq, Eq, Drop, Error)]
pub enum WordsErr {
    /// They have none of the forms.
    #[error("the words are no command")]
    Usage,
    #[error("out of memory")]
    Memory,
}

/// The command given by the arguments after the program's name.
///
/// # Errors
///
/// `Usage` exactly if they have none of the forms; `Memory` if memory runs out.
pub fn read_words(alloc: Global, words: &[String]) -> Result<Command, WordsErr>
    ensures says { Says result (command_of (map (λ word. string_bytes word) words.now)) }
    ensures ranges { IfOk result (λ command. HasLimits command) }
{
    for place in 0..FORMS.len() {
        let row = row_at(place);
        if row.fits(words) {
            return read_row(alloc, &row, words);
        }
    }
    Err(WordsErr::Usage)
}

/// The row of the table at this place.
fn row_at(place: usize) -> Row
    requires { place < length FORMS }
    ensures { slice_get rows place ≡ Some result }
{
    let (form, word, files, numbers, options) = FORMS[place];
    Row {
        form,
        word,
        files,
        numbers,
        options,
    }
}

/// The command given by arguments of this form.
fn read_row(alloc: Global, row: &Row, words: &[String]) -> Result<Command, WordsErr>
    ensures says { Says result (said_by row.now (map (λ word. string_bytes word) words.now)) }
    ensures ranges { IfOk result (λ command. HasLimits command) }
{
    let [_, rest @ ..] = words else {
        return Err(WordsErr::Usage);
    };
    if rest.len() < row.files {
        return Err(WordsErr::Usage);
    }
    read_values(alloc, row, &rest[..row.files], &rest[row.files..])
}

/// The command of a form with these files, and with the numbers and options that follow.
fn read_values(
    alloc: Global,
    row: &Row,
    files: &[String],
    values: &[String],
) -> Result<Command, WordsErr>
    ensures says { Says result (said_after row.now (map (λ word. string_bytes word) files.now) (map (λ word. string_bytes word) values.now)) }
    ensures ranges { IfOk result (λ command. HasLimits command) }
{
    if values.len() < row.numbers {
        return Err(WordsErr::Usage);
    }
    read_command(
        alloc,
        row.form,
        files,
        &values[..row.numbers],
        &values[row.numbers..],
    )
}

/// The command of a form with these files, numbers and options.
fn read_command(
    alloc: Global,
    form: Form,
    files: &[String],
    numbers: &[String],
    options: &[String],
) -> Result<Command, WordsErr>
    ensures says { Says result (command_from form (map (λ word. string_bytes word) files.now)
        (map (λ word. string_bytes word) numbers.now) (map (λ word. string_bytes word) options.now)) }
    ensures ranges { IfOk result (λ command. HasLimits command) }
{
    let Some(draws) = draws_of(numbers) else {
        return Err(WordsErr::Usage);
    };
    let Some(limits) = read_limits(options) else {
        return Err(WordsErr::Usage);
    };
    let also = match names_given(alloc, ALSO, MOST_ALSO, options) {
        Ok(also) => also,
        Err(e) => return Err(e),
    };
    let head = match read_head(alloc, options) {
        Ok(head) => head,
        Err(e) => return Err(e),
    };
    match names_of(alloc, files) {
        Ok(files) => Ok(Command {
            form,
            files,
            draws,
            also,
            head,
            limits,
        }),
        Err(NoMem) => Err(WordsErr::Memory),
    }
}

/// The arguments as names.
fn names_of(alloc: Global, words: &[String]) -> Result<NameList, NoMem>
    ensures { IfOk result (λ names. names ≡ map (λ word. string_bytes word) words.now) }
{
    let mut names = List::new(alloc);
    for word in words {
        names.push(Name::new(alloc, word.as_str())?)?;
    }
    Ok(names)
}

/// The limits that options give.
fn read_limits(options: &[String]) -> Option<Limits>
    ensures { result ≡ limits_of (map (λ word. string_bytes word) options.now) }
{
    let frame = number_given(MAX_FRAME, &FRAME_RANGE, options)?;
    let input = number_given(MAX_INPUT, &INPUT_RANGE, options)?;
    Some(Limits {
        frame: frame as usize,
        input,
    })
}

/// What options give for the head of a text.
fn read_head(alloc: Global, options: &[String]) -> Result<HeadWords, WordsErr>
    ensures { Says result (head_of (map (λ word. string_bytes word) options.now)) }
{
    let Some(seq) = number_given(SEQ, &SEQ_RANGE, options) else {
        return Err(WordsErr::Usage);
    };
    let begin = match begin_given(alloc, options) {
        Ok(begin) => begin,
        Err(e) => return Err(e),
    };
    let sender = match text_given(alloc, SENDER, options) {
        Ok(sender) => sender,
        Err(e) => return Err(e),
    };
    let target = match text_given(alloc, TARGET, options) {
        Ok(target) => target,
        Err(e) => return Err(e),
    };
    match text_given(alloc, TIME, options) {
        Ok(time) => Ok(HeadWords {
            begin,
            sender,
            target,
            seq,
            time,
        }),
        Err(e) => Err(e),
    }
}

/// The version of the encoding that options give, or its default.
fn begin_given(alloc: Global, options: &[String]) -> Result<Text, WordsErr>
    ensures { Says result (begin_given (map (λ word. string_bytes word) options.now)) }
{
    match text_given(alloc, BEGIN, options) {
        Ok(Some(begin)) => Ok(begin),
        Ok(None) => copied(alloc, DEFAULT_BEGIN.as_bytes()),
        Err(e) => Err(e),
    }
}

/// The header field that options give for one of them, which may be given at most once.
fn text_given(alloc: Global, option: &str, options: &[String]) -> Result<Option<Text>, WordsErr>
    ensures { Says result (text_given option.now (map (λ word. string_bytes word) options.now)) }
{
    let Ok(values) = values_of(alloc, option, options) else {
        return Err(WordsErr::Memory);
    };
    match values.as_slice() {
        [] => Ok(None),
        [value] => text_in(alloc, value.as_str().as_bytes()),
        _ => Err(WordsErr::Usage),
    }
}

/// The header field that an argument gives.
fn text_in(alloc: Global, word: &[u8]) -> Result<Option<Text>, WordsErr>
    ensures { Says result (text_in word.now) }
{
    if !is_field_text(word) {
        return Err(WordsErr::Usage);
    }
    match copied(alloc, word) {
        Ok(text) => Ok(Some(text)),
        Err(e) => Err(e),
    }
}

/// A copy of these bytes.
fn copied(alloc: Global, bytes: &[u8]) -> Result<Text, WordsErr>
    ensures { Says result (Some bytes.now) }
{
    match Text::from_slice(alloc, bytes) {
        Ok(text) => Ok(text),
        Err(NoMem) => Err(WordsErr::Memory),
    }
}

/// The names of files that options give for one of them, which may be given at most `most` times.
fn names_given(
    alloc: Global,
    option: &str,
    most: usize,
    options: &[String],
) -> Result<NameList, WordsErr>
    ensures { Says result (names_given option.now most (map (λ word. string_bytes word) options.now)) }
{
    let Ok(names) = values_of(alloc, option, options) else {
        return Err(WordsErr::Memory);
    };
    if names.len() <= most && are_file_names(names.as_slice()) {
        Ok(names)
    } else {
        Err(WordsErr::Usage)
    }
}

/// Whether each of these can be the name of a file.
fn are_file_names(names: &[Name]) -> bool
    ensures { result ≡ list_all is_file_name names.now }
{
    names.iter().all(|name| names_file(name.as_str()))
}

/// All values that options give for one of them.
fn values_of(alloc: Global, option: &str, options: &[String]) -> Result<NameList, NoMem>
    ensures { IfOk result (λ names. names ≡ values_of option.now (map (λ word. string_bytes word) options.now)) }
{
    let mut names = List::new(alloc);
    let mut left = options;
    while let [word, value, rest @ ..] = left {
        if word.as_str() == option {
            names.push(Name::new(alloc, value.as_str())?)?;
        }
        left = rest;
    }
    Ok(names)
}
