ghost use Rattle.std.specs.Prelude.{◌≤◌, length};

use crate::trial::{Outcome, Wanted};
use std::alloc::{AllocError, Global};
use std::fmt;

/// The most bytes of an output that are shown.
const SHOWN: usize = 300;

/// How many bytes are shown before the first one that differs.
const IN_FRONT: usize = 60;

/// What differs between a run and its row.
#[derive(Clone, Copy)]
pub enum Difference<'a> {
    Status { wanted: u8, got: u8 },
    Output { wanted: &'a [u8], got: &'a [u8] },
    Notes { wanted: &'a [u8], got: &'a [u8] },
    Left { wanted: usize, got: usize },
}

impl fmt::Display for Difference<'_> {
    fn fmt<W: fmt::Write>(&self, f: &mut fmt::Formatter<W>) -> fmt::Result {
        match self {
            Difference::Status { wanted, got } => write!(f, "status: wanted {wanted}, got {got}"),
            Difference::Output { wanted, got } => {
                write!(f, "output {}", BothBytes { wanted, got })
            }
            Difference::Notes { wanted, got } => {
                write!(f, "notes {}", BothBytes { wanted, got })
            }
            Difference::Left { wanted, got } => write!(f, "left: wanted {wanted}, got {got}"),
        }
    }
}

/// Bytes that differ.
#[derive(Clone, Copy)]
struct BothBytes<'a> {
    wanted: &'a [u8],
    got: &'a [u8],
}

impl fmt::Display for BothBytes<'_> {
    fn fmt<W: fmt::Write>(&self, f: &mut fmt::Formatter<W>) -> fmt::Result {
        let at = first_difference(self.wanted, self.got);
        let wanted = Excerpt::around(self.wanted, at);
        let got = Excerpt::around(self.got, at);
        write!(f, "at byte {at}: wanted {wanted}, got {got}")
    }
}

/// The offset of the first byte that differs.
fn first_difference(a: &[u8], b: &[u8]) -> usize
    ensures { result ≤ length a.now }
{
    a.iter()
        .zip(b.iter())
        .take_while(|two| two.0 == two.1)
        .count()
}

/// A part of some bytes, and their total number.
#[derive(Clone, Copy)]
struct Excerpt<'a> {
    part: &'a [u8],
    from: usize,
    length: usize,
}

impl<'a> Excerpt<'a> {
    /// All bytes if they are few, otherwise the part around an offset.
    fn around(bytes: &'a [u8], at: usize) -> Excerpt<'a> {
        let length = bytes.len();
        if length <= SHOWN {
            return Excerpt {
                part: bytes,
                from: 0,
                length,
            };
        }
        let from = at.saturating_sub(IN_FRONT).min(length);
        let rest = &bytes[from..];
        Excerpt {
            part: &rest[..rest.len().min(SHOWN)],
            from,
            length,
        }
    }
}

impl fmt::Display for Excerpt<'_> {
    fn fmt<W: fmt::Write>(&self, f: &mut fmt::Formatter<W>) -> fmt::Result {
        match str::from_utf8(self.part) {
            Ok(text) if is_printable(text) => write!(f, "{text:?}")?,
            _ => put_hex(self.part, f)?,
        }
        if self.part.len() < self.length {
            write!(f, " (from byte {} of {})", self.from, self.length)?;
        }
        Ok(())
    }
}

/// Whether a text has no control characters except newlines.
fn is_printable(text: &str) -> bool {
    text.chars().all(|c| c == '\n' || !c.is_control())
}

/// Writes bytes as hex digits.
fn put_hex<W: fmt::Write>(bytes: &[u8], f: &mut fmt::Formatter<W>) -> fmt::Result {
    write!(f, "hex ")?;
    for byte in bytes {
        write!(f, "{byte:02x}")?;
    }
    Ok(())
}

/// What differs between a run and its row.
pub fn differences<'a>(
    alloc: Global,
    wanted: &'a Wanted,
    outcome: &'a Outcome,
) -> Result<Vec<Difference<'a>>, AllocError> {
    let mut found = Vec::new(alloc);
    if outcome.status != wanted.status {
        found.push(Difference::Status {
            wanted: wanted.status,
            got: outcome.status,
        })?;
    }
    let (output, notes) = (outcome.output.bytes(), outcome.notes.bytes());
    if output != wanted.output.as_slice() {
        found.push(Difference::Output {
            wanted: wanted.output.as_slice(),
            got: output,
        })?;
    }
    if notes != wanted.notes.as_slice() {
        found.push(Difference::Notes {
            wanted: wanted.notes.as_slice(),
            got: notes,
        })?;
    }
    match wanted.left {
        Some(left) if left != outcome.left => found.push(Difference::Left {
            wanted: left,
            got: outcome.left,
        })?,
        _ => {}
    }
    Ok(found)
}
