use crate::folder::Folder;
use crate::refusal::RowErr;
use crate::row::{NamedContent, Row};
use sbe_base::{Files, MemFiles, MemSink, MemSource, NoMem};
use sbe_cli::run;
use std::alloc::Global;

/// How many bytes the notes accept.
const NOTES_ROOM: usize = 65_536;

/// The bytes that a row gives to its run.
#[derive(Drop)]
pub struct Given {
    files: Vec<NamedBytes>,
    input: Vec<u8>,
}

/// A file in memory.
#[derive(Drop)]
struct NamedBytes {
    name: String,
    bytes: Vec<u8>,
}

/// How a run must end, and what it must write.
#[derive(Drop)]
pub struct Wanted {
    pub status: u8,
    pub output: Vec<u8>,
    pub notes: Vec<u8>,
    pub left: Option<usize>,
}

/// How a run ended, and what it wrote.
#[derive(Drop)]
pub struct Outcome {
    pub status: u8,
    pub output: MemSink,
    pub notes: MemSink,
    pub left: usize,
}

impl Given {
    /// The bytes of a row's files and input.
    pub fn of<F: Files + Drop>(
        alloc: Global,
        folder: &mut Folder<F>,
        row: &Row,
    ) -> Result<Given, RowErr> {
        let mut files = Vec::new(alloc);
        for file in &row.files {
            files.push(NamedBytes::of(alloc, folder, file)?)?;
        }
        Ok(Given {
            files,
            input: row.input.bytes(alloc, folder)?,
        })
    }
}

impl NamedBytes {
    fn of<F: Files + Drop>(
        alloc: Global,
        folder: &mut Folder<F>,
        file: &NamedContent,
    ) -> Result<NamedBytes, RowErr> {
        Ok(NamedBytes {
            name: file.name.clone()?,
            bytes: file.content.bytes(alloc, folder)?,
        })
    }
}

impl Wanted {
    /// What a row requires.
    pub fn of<F: Files + Drop>(
        alloc: Global,
        folder: &mut Folder<F>,
        row: &Row,
    ) -> Result<Wanted, RowErr> {
        Ok(Wanted {
            status: row.status,
            output: row.output.bytes(alloc, folder)?,
            notes: row.notes.bytes(alloc, folder)?,
            left: row.left,
        })
    }
}

/// Runs a row, with reads of at most `piece` bytes.
pub fn run_once(alloc: Global, row: &Row, given: &Given, piece: usize) -> Result<Outcome, NoMem> {
    let mut files = files_of(alloc, row, given)?;
    let mut input = MemSource::new(
        alloc,
        given.input.as_slice(),
        piece.max(1),
        row.fails.source.as_slice(),
    )?;
    let mut output = MemSink::new(alloc, row.room, row.fails.output.as_slice())?;
    let mut notes = MemSink::new(alloc, NOTES_ROOM, row.fails.notes.as_slice())?;
    let status = run(
        alloc,
        row.words.as_slice(),
        &mut files,
        &mut input,
        &mut output,
        &mut notes,
    );
    Ok(Outcome {
        status: status.code(),
        output,
        notes,
        left: input.left().len(),
    })
}

/// The files of a run in memory.
fn files_of(alloc: Global, row: &Row, given: &Given) -> Result<MemFiles, NoMem> {
    let mut files = MemFiles::new(alloc, row.fails.files.as_slice())?;
    for file in &given.files {
        files.put(file.name.as_str(), file.bytes.as_slice())?;
    }
    Ok(files)
}
