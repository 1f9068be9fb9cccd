//! `sbe`: FIX Simple Binary Encoding on the command line.
#![tactic(auto)]

mod pages;

use pages::{Page, page_of};
use sbe_base::{
    BufferedSource, DirFiles, FlushFirst, NoMem, SharedWriter, Status, StdSink, settled,
    write_all_to,
};
use sbe_cli::run;
use std::env;
use std::io::{BufReader, ErrorKind, Write};
use std::process::ExitCode;

/// The most bytes of input that one read asks for. Before each such read the kept output is written, so with fewer
/// reads fewer writes are short.
const READ_AT_ONCE: usize = 65_536;

/// The most bytes of output that are kept.
const KEPT_AT_MOST: usize = 65_536;

fn main(rt: HostRuntime) -> ExitCode {
    ExitCode::from(answer(&rt).code())
}

/// Runs the arguments after the program's name, over the file system and the standard streams.
fn answer(rt: &HostRuntime) -> Status {
    let Ok(words) = words_of(rt) else {
        return Status::NoMemory;
    };
    let Ok(output) = SharedWriter::new(rt.alloc(), KEPT_AT_MOST, rt.stdout()) else {
        return Status::NoMemory;
    };
    let status = match page_of(words.as_slice()) {
        Some(page) => print_page(page, &output),
        None => run_words(rt, words.as_slice(), &output),
    };
    let mut last = &output;
    settled(status, last.flush())
}

fn print_page<W: Write + Drop>(page: Page, output: &SharedWriter<W>) -> Status {
    match write_all_to(&mut StdSink::new(output), page.text().as_bytes()) {
        Ok(()) => Status::Done,
        Err(_) => Status::WriteFault,
    }
}

/// Runs the arguments. The kept output is written before the program waits for input, and before each note.
fn run_words<W: Write + Drop>(
    rt: &HostRuntime,
    words: &[String],
    output: &SharedWriter<W>,
) -> Status {
    let alloc = rt.alloc();
    let Ok(input) = BufReader::with_capacity(
        alloc,
        READ_AT_ONCE,
        FlushFirst::new(rt.stdin(), output),
    ) else {
        return Status::NoMemory;
    };
    run(
        alloc,
        words,
        &mut DirFiles::new(*rt),
        &mut BufferedSource::new(input),
        &mut StdSink::new(output),
        &mut StdSink::new(FlushFirst::new(rt.stderr(), output)),
    )
}

/// The arguments after the program's name. If one isn't text, they can't be a command, so none are returned.
fn words_of(rt: &HostRuntime) -> Result<Vec<String>, NoMem> {
    let mut words = Vec::new(rt.alloc());
    let args = match env::args(rt) {
        Ok(args) => args,
        Err(e) => {
            if e.kind() == ErrorKind::OutOfMemory {
                return Err(NoMem);
            }
            return Ok(words);
        }
    };
    for word in args.skip(1) {
        words.push(word)?;
    }
    Ok(words)
}
