//! A reader and a writer of which the listed calls fail.

use anyhow::{Result, bail};
use std::alloc::Global;
use std::cell::RefCell;
use std::io;
use std::io::{ErrorKind, Read, Write};
use test_tables::Row;

/// How often a reader or a writer was called, how much it handles per call, and which calls fail, each with this kind.
#[derive(Drop)]
pub struct Course {
    calls: u64,
    most: usize,
    failing: Vec<u64>,
    kind: ErrorKind,
}

impl Course {
    /// How much is handled now, of `many` bytes. Fails if this call is listed.
    fn step(&mut self, many: usize) -> io::Result<usize> {
        self.calls = self.calls.saturating_add(1);
        if self.failing.contains(&self.calls) {
            return Err(io::Error::from(self.kind));
        }
        Ok(many.min(self.most))
    }

    /// How often it was called.
    pub fn calls(&self) -> u64 {
        self.calls
    }
}

fn kind_of(name: &str) -> Result<ErrorKind> {
    match name {
        "BrokenPipe" => Ok(ErrorKind::BrokenPipe),
        "Interrupted" => Ok(ErrorKind::Interrupted),
        "WouldBlock" => Ok(ErrorKind::WouldBlock),
        "TimedOut" => Ok(ErrorKind::TimedOut),
        _ => bail!("no kind of error: {name}"),
    }
}

/// The numbers in a text, separated by spaces.
pub fn numbers_of(alloc: Global, text: &str) -> Result<Vec<u64>> {
    let mut numbers = Vec::new(alloc);
    for word in text.split(' ') {
        if !word.is_empty() {
            numbers.push(word.parse::<u64>()?)?;
        }
    }
    Ok(numbers)
}

/// The course that a row gives from this index on: how much a call handles, which calls fail, and with which kind.
pub fn course_of(alloc: Global, row: &Row, i: usize) -> Result<Course> {
    Ok(Course {
        calls: 0,
        most: row.size(i)?,
        failing: numbers_of(alloc, row.text(i.saturating_add(1))?)?,
        kind: kind_of(row.text(i.saturating_add(2))?)?,
    })
}

/// What a writer was given.
#[derive(Drop)]
pub struct Taken {
    pub course: Course,
    pub bytes: Vec<u8>,
}

/// A writer whose contents can be inspected while it is lent.
#[derive(Drop)]
pub struct FakeWriter<'a> {
    taken: &'a RefCell<Taken>,
}

impl<'a> FakeWriter<'a> {
    pub fn new(taken: &'a RefCell<Taken>) -> FakeWriter<'a> {
        FakeWriter { taken }
    }
}

impl Write for FakeWriter<'_> {
    fn write(&mut self, buf: &[u8]) -> io::Result<usize> {
        let Ok(mut taken) = self.taken.try_borrow_mut() else {
            return Err(io::Error::from(ErrorKind::Other));
        };
        let many = taken.course.step(buf.len())?.min(buf.len());
        taken.bytes.extend_from_slice(&buf[..many])?;
        Ok(many)
    }

    fn flush(&mut self) -> io::Result<()> {
        Ok(())
    }
}

/// A reader over bytes.
#[derive(Drop)]
pub struct FakeReader<'a> {
    pub course: Course,
    pub bytes: &'a [u8],
}

impl Read for FakeReader<'_> {
    fn read(&mut self, buf: &mut [u8]) -> io::Result<usize> {
        let many = self.course.step(buf.len())?.min(buf.len());
        self.bytes.read(&mut buf[..many])
    }
}
