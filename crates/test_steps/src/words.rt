//! Arguments that become commands.

use anyhow::{Result, bail};
use sbe_base::Limits;
use sbe_cli::{Command, Draws, FORMS, WordsErr, read_words};
use std::alloc::Global;
use test_tables::Row;

/// The arguments that a row gives from index `first` on.
pub fn words_of(alloc: Global, row: &Row, first: usize) -> Result<Vec<String>> {
    let mut words = Vec::new(alloc);
    for i in first..row.len() {
        words.push(String::from_str(alloc, row.text(i)?)?)?;
    }
    Ok(words)
}

/// The text of a command: its word and its files; if it has numbers, the seed and the count; if it takes options, how
/// many further schemas it has, and its limits.
fn command_text(alloc: Global, command: &Command) -> Result<String> {
    let mut text = String::new(alloc);
    for (form, word, _, numbers, options) in FORMS {
        if form == command.form {
            text.push_str(word)?;
            put_files(&mut text, command)?;
            if numbers > 0 {
                let draws = draws_text(alloc, command)?;
                text.push_str(draws.as_str())?;
            }
            if !options.is_empty() {
                let options = options_text(alloc, command)?;
                text.push_str(options.as_str())?;
            }
        }
    }
    Ok(text)
}

fn put_files(text: &mut String, command: &Command) -> Result<()> {
    for name in command.files.as_slice() {
        text.push_str(" ")?;
        text.push_str(name.as_str())?;
    }
    Ok(())
}

fn draws_text(alloc: Global, command: &Command) -> Result<String> {
    let Draws { seed, count } = command.draws;
    Ok(format!(in alloc; " from {seed}, {count} messages")?)
}

fn options_text(alloc: Global, command: &Command) -> Result<String> {
    let more = command.also.len();
    let Limits { frame, input } = command.limits;
    Ok(format!(in alloc; " and {more}, frames of {frame}, input of {input}")?)
}

/// A row: arguments. Answers the command that they give, with its limits.
pub fn command_answer(alloc: Global, row: &Row) -> Result<String> {
    let words = words_of(alloc, row, 0)?;
    match read_words(alloc, words.as_slice()) {
        Ok(command) => command_text(alloc, &command),
        Err(WordsErr::Usage) => Ok(format!(in alloc; "no command")?),
        Err(WordsErr::Memory) => bail!("out of memory"),
    }
}

/// The words of the forms, in their order.
pub fn forms_answer(alloc: Global) -> Result<String> {
    let mut text = String::new(alloc);
    for (_, word, _, _, _) in FORMS {
        text.push_str(word)?;
        text.push_str(" ")?;
    }
    Ok(text)
}
