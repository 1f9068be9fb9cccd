//! A row: one run of `sbe`, and what it must write.
//!
//! A row is one JSON object on a line:
//!
//! | key | what | default |
//! |---|---|---|
//! | `name` | words that say what the row shows, once in a table | required |
//! | `why` | the rule that it shows, in one sentence | required |
//! | `words` | an array of texts: the arguments of `sbe` | required |
//! | `files` | an object: a name as in `words`, and a content | none |
//! | `input` | a content: the standard input | empty |
//! | `output`, `notes` | a content: what must be written | empty |
//! | `status` | the exit status, from 0 to 11 | required |
//! | `piece` | the most bytes of a read | 7 |
//! | `pieces` | run with each size from 1 to this one, always with the same end | none |
//! | `fails` | `source`, `output`, `notes`, `files`: the numbers of the calls that fail, from 1 | none |
//! | `left` | how many bytes the source still has after the run | not compared |
//! | `room` | how many bytes the output accepts | 65536 |

ghost use Rattle.std.specs.Prelude.{◌<◌, ◌≤◌, IfOk};

use crate::content::{Content, read_content};
use crate::member::{
    Members, items, items_of, needed, needed_number, needed_text, number, number_of, object,
    refuse_unknown, text_of,
};
use crate::refusal::RowErr;
use serde_json::Value;
use std::alloc::Global;

/// The keys of a row.
const KEYS: [&str; 13] = [
    "name", "why", "words", "files", "input", "output", "notes", "status", "piece", "pieces",
    "fails", "left", "room",
];

/// The keys of `fails`.
const OBJECTS: [&str; 4] = ["source", "output", "notes", "files"];

/// The highest status of a run.
const LAST_STATUS: usize = 11;

/// The size of a read in bytes, if a row doesn't state it.
const USUAL_PIECE: usize = 7;

/// How many bytes the output accepts, if a row doesn't state it.
const USUAL_ROOM: usize = 65_536;

/// A run, and what it must write.
#[derive(Drop)]
pub struct Row {
    pub name: String,
    pub words: Vec<String>,
    pub files: Vec<NamedContent>,
    pub input: Content,
    pub output: Content,
    pub notes: Content,
    pub status: u8,
    pub pieces: Pieces,
    pub fails: Fails,
    pub left: Option<usize>,
    pub room: usize,
}

/// A file of a run.
#[derive(Drop)]
pub struct NamedContent {
    pub name: String,
    pub content: Content,
}

/// The sizes of reads with which a row is run, one after another.
#[derive(Clone, Copy)]
pub struct Pieces {
    pub least: usize,
    pub most: usize,
}

/// The numbers of the calls that fail, from 1 on.
#[derive(Drop)]
pub struct Fails {
    pub source: Vec<u64>,
    pub output: Vec<u64>,
    pub notes: Vec<u64>,
    pub files: Vec<u64>,
}

impl Row {
    /// Reads a row of its JSON value.
    pub fn read(alloc: Global, value: &Value) -> Result<Row, RowErr> {
        let Some(members) = value.as_object() else {
            return Err(RowErr::NotOfForm("the row", "an object"));
        };
        refuse_unknown(members, &KEYS)?;
        needed_text(members, "why")?;
        Ok(Row {
            name: String::from_str(alloc, needed_text(members, "name")?)?,
            words: read_words(alloc, members)?,
            files: read_files(alloc, members)?,
            input: Content::of_key(alloc, members, "input")?,
            output: Content::of_key(alloc, members, "output")?,
            notes: Content::of_key(alloc, members, "notes")?,
            status: read_status(members)?,
            pieces: read_pieces(members)?,
            fails: read_fails(alloc, members)?,
            left: number(members, "left")?,
            room: number(members, "room")?.unwrap_or(USUAL_ROOM),
        })
    }
}

fn read_words(alloc: Global, members: &Members) -> Result<Vec<String>, RowErr> {
    let mut words = Vec::new(alloc);
    for item in items_of(needed(members, "words")?, "words")? {
        words.push(String::from_str(alloc, text_of(item, "words")?)?)?;
    }
    Ok(words)
}

fn read_files(alloc: Global, members: &Members) -> Result<Vec<NamedContent>, RowErr> {
    let mut files = Vec::new(alloc);
    let Some(named) = object(members, "files")? else {
        return Ok(files);
    };
    for (name, value) in named.iter() {
        files.push(NamedContent {
            name: name.clone()?,
            content: read_content(alloc, value)?,
        })?;
    }
    Ok(files)
}

fn read_status(members: &Members) -> Result<u8, RowErr>
    ensures { IfOk result (λ status. status ≤ 11) }
{
    let status = needed_number(members, "status")?;
    if status > LAST_STATUS {
        return Err(RowErr::NotOfForm("status", "a number from 0 to 11"));
    }
    Ok(status as u8)
}

fn read_pieces(members: &Members) -> Result<Pieces, RowErr>
    ensures { IfOk result (λ pieces. 0 < pieces.least) }
{
    match (number(members, "piece")?, number(members, "pieces")?) {
        (Some(0), _) => Err(RowErr::NotOfForm("piece", "1 or more")),
        (_, Some(0)) => Err(RowErr::NotOfForm("pieces", "1 or more")),
        (Some(_), Some(_)) => Err(RowErr::NotOfForm("pieces", "there without piece")),
        (None, Some(most)) => Ok(Pieces { least: 1, most }),
        (piece, None) => {
            let size = piece.unwrap_or(USUAL_PIECE);
            Ok(Pieces {
                least: size,
                most: size,
            })
        }
    }
}

fn read_fails(alloc: Global, members: &Members) -> Result<Fails, RowErr> {
    let Some(members) = object(members, "fails")? else {
        return Ok(Fails {
            source: Vec::new(alloc),
            output: Vec::new(alloc),
            notes: Vec::new(alloc),
            files: Vec::new(alloc),
        });
    };
    refuse_unknown(members, &OBJECTS)?;
    Ok(Fails {
        source: read_calls(alloc, members, "source")?,
        output: read_calls(alloc, members, "output")?,
        notes: read_calls(alloc, members, "notes")?,
        files: read_calls(alloc, members, "files")?,
    })
}

fn read_calls(alloc: Global, members: &Members, key: &'static str) -> Result<Vec<u64>, RowErr> {
    let mut calls = Vec::new(alloc);
    for item in items(members, key)? {
        let call = number_of(item, key)?;
        if call == 0 {
            return Err(RowErr::NotOfForm(key, "numbers from 1 on"));
        }
        calls.push(call as u64)?;
    }
    Ok(calls)
}
