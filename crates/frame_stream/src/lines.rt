ghost use Rattle.std.specs.Prelude.{◌≡◌, ◌≤◌, [], None, length, IfOk, IfSome, IsSome};
ghost use Rattle.open_framing.specs.Lines.{before_end};
ghost use Rattle.frame_stream.specs.LineTakes.{IsLastTaken, LineCause, LineOf, TakesLine, line_end_answer, lines_opened, window_bytes};

use crate::reading::Dry;
use crate::window::{NoEnd, Window};
use open_framing::LONGEST_LINE;
use sbe_base::{Limits, NoMem, Source};
use std::alloc::Global;
use std::marker::Model;
use thiserror::Error;

/// The answer of [`LineStream::take`].
#[derive(Clone, Copy, Debug, PartialEq, Eq)]
pub enum LineTaken {
    /// A line, which [`LineStream::line`] returns.
    Line,
    /// The source ended after a line, or before the first one.
    End,
}

/// Why [`LineStream::take`] failed.
#[derive(Clone, Copy, Debug, PartialEq, Eq, Drop, Error)]
pub enum LineErr {
    /// The next 1,048,577 bytes contain no line end, the byte 0a.
    #[error("a line has more than 1048576 bytes")]
    LineOver,
    /// As many bytes were taken as the limit of the input allows, they contain no further line end, and the source has
    /// more.
    #[error("the input has more bytes than its limit")]
    InputLimit,
    /// A read failed: the source's count of faults rose, or is at its largest value.
    #[error("a read failed")]
    ReadFault,
}

/// How a stream of lines ended. Once it ended, this answer stays.
#[derive(Clone, Copy, Debug, PartialEq, Eq)]
pub enum LineEnded {
    /// The source ended, and all its lines were taken.
    End,
    /// The next line is longer than a line may be.
    Over,
    /// There is one byte more than the limit of the input.
    Limit,
}

/// The lines of a source, taken one by one. A line ends with the byte 0a, which the last one may lack.
///
/// The lines are those of the source's bytes, whatever the sizes of the pieces in which the source gives them. The
/// stream reads ahead into its own buffer of 1,048,577 bytes; it reads only if the bytes after the last line contain no
/// line end.
#[derive(Drop)]
pub struct LineStream {
    bytes: Window,
    /// How many of the bytes belong to the last line.
    line: usize,
    /// How many of the bytes were taken with it.
    front: usize,
    ended: Option<LineEnded>,
}

impl Model for LineStream {
    ghost use Rattle.frame_stream.specs.LineTakes.{LineState, IsLineStream, lines_shown};

    ghost Value = { LineState };

    ghost view = { λ s. lines_shown s.line s.front s.bytes.held s.ended };

    ghost invariant = { λ s. IsLineStream s.line s.front s.bytes.held };
}

impl LineStream {
    /// A stream from which nothing was taken yet. It allocates memory for a line of 1,048,576 bytes and its end, and
    /// accepts an input of at most `limits.input` bytes. The limit of a frame is ignored.
    pub fn open(alloc: Global, limits: Limits) -> Result<LineStream, NoMem>
        ensures { IfOk result (λ stream. stream ≡ lines_opened limits.input) }
    {
        Ok(LineStream {
            bytes: Window::new(alloc, LONGEST_LINE + 1, limits.input)?,
            line: 0,
            front: 0,
            ended: None,
        })
    }

    /// Takes the next line and releases the previous one. Allocates nothing.
    ///
    /// After the end, a line that is too long, or the limit of the input, each later call gives the same answer and
    /// reads nothing. The same holds after a last line without a line end: each later call reports the end.
    ///
    /// # Errors
    ///
    /// Each variant of [`LineErr`]. After [`LineErr::ReadFault`] the bytes of the unfinished line are kept, and the
    /// next call goes on with them.
    pub fn take<I: Source>(&mut self, input: &mut I) -> Result<LineTaken, LineErr>
        ensures stays { IfSome self.old.ended (λ ended. result ≡ line_end_answer ended) }
        ensures kept { IsSome self.old.ended → self.new ≡ record self.old { line = [] } }
        ensures unread { IsSome self.old.ended → input.new ≡ input.old }
        ensures takes { self.old.ended ≡ None → TakesLine self.old self.new (I.state input.old).told (I.state input.new).told result }
        ensures ahead { IsSome (before_end self.old.held) → input.new ≡ input.old }
        ensures line { LineOf self.new result }
        ensures fits { length self.new.held ≤ window_bytes }
        ensures cause { LineCause (I.state input.old).faults (I.state input.new).faults result }
    {
        self.line = 0;
        if let Some(ended) = self.ended {
            return answer_at_end(ended);
        }
        match self.bytes.next_end(input, self.front) {
            Ok(i) => {
                self.line = i;
                self.front = i + 1;
                Ok(LineTaken::Line)
            }
            Err(NoEnd::Dry(Dry::Fault)) => {
                self.front = 0;
                Err(LineErr::ReadFault)
            }
            Err(NoEnd::Dry(Dry::End)) => {
                let len = self.bytes.len();
                self.line = len;
                self.front = len;
                self.ended = Some(LineEnded::End);
                Ok(last_taken(len))
            }
            Err(NoEnd::Dry(Dry::Over)) => {
                self.front = 0;
                self.ended = Some(LineEnded::Limit);
                Err(LineErr::InputLimit)
            }
            Err(NoEnd::Full) => {
                self.front = 0;
                self.ended = Some(LineEnded::Over);
                Err(LineErr::LineOver)
            }
        }
    }

    /// The line that was taken last, without its end. Empty if the last call took no line.
    pub fn line(&self) -> &[u8]
        ensures { result.now ≡ self.now.line }
    {
        &self.bytes.as_slice()[..self.line]
    }

    /// How many bytes were taken in all, including those that were read ahead. The one byte that shows that an input
    /// exceeds its limit isn't counted.
    pub fn taken(&self) -> u64
        ensures { result ≡ self.now.taken }
    {
        self.bytes.taken()
    }
}

/// The answer at and after an end.
fn answer_at_end(ended: LineEnded) -> Result<LineTaken, LineErr>
    ensures { result ≡ line_end_answer ended }
{
    match ended {
        LineEnded::End => Ok(LineTaken::End),
        LineEnded::Over => Err(LineErr::LineOver),
        LineEnded::Limit => Err(LineErr::InputLimit),
    }
}

/// What is taken at the end of a source when `len` bytes are held.
fn last_taken(len: usize) -> LineTaken
    ensures { IsLastTaken len result }
{
    if len == 0 {
        LineTaken::End
    } else {
        LineTaken::Line
    }
}
