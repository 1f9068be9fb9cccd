ghost use Rattle.std.specs.Prelude.{◌≡◌, ◌<◌, ◌≤◌, ◌+◌, None, length, IfOk, IfSome, IsSome};
ghost use Rattle.open_framing.specs.Frames.{first_item};
ghost use Rattle.open_framing.specs.declared.head.TheConstants.{HEAD_BYTES};
ghost use Rattle.frame_stream.specs.declared.stream.TheConstants.{LONGEST_FRAME};
ghost use Rattle.frame_stream.specs.Stream.{Takes, TakeCause, BodyOf, opened, end_answer};

use crate::held::{Ended, Stop};
use crate::window::Window;
use open_framing::{HEAD_BYTES, Head, HeadErr};
use sbe_base::{Limits, NoMem, Source};
use std::alloc::Global;
use std::marker::Model;
use thiserror::Error;

/// The largest limit of a frame: 16 MiB, including the head of the Simple Open Framing Header 1.0.
pub const LONGEST_FRAME: usize = 16_777_216;

/// The answer of [`FrameStream::take`].
#[derive(Clone, Copy, Debug, PartialEq, Eq)]
pub enum Taken {
    /// A frame with this head. [`FrameStream::frame`] returns its body.
    Frame(Head),
    /// The source ended after a frame, or before the first one.
    End,
    /// The source ended this many bytes into a frame: at least one, and fewer than the frame has.
    EndInside(usize),
}

/// Why [`FrameStream::take`] failed.
#[derive(Clone, Copy, Debug, PartialEq, Eq, Drop, Error)]
pub enum StreamErr {
    /// The next six bytes aren't the head of a frame. Never [`HeadErr::HeadShort`].
    #[error("{0}")]
    Head(HeadErr),
    /// As many bytes were taken as the limit of the input allows, the frame is incomplete, and the source has more.
    #[error("the input has more bytes than its limit")]
    InputLimit,
    /// A read failed: the source's count of faults rose, or is at its largest value.
    #[error("a read failed")]
    ReadFault,
}

/// The frames of a source, taken one by one. A frame follows the FIX Simple Open Framing Header 1.0: Message_Length in
/// four bytes, Encoding_Type in two, and the body.
///
/// The frames are the cut of the source's bytes, whatever the sizes of the pieces in which the source gives them. No
/// byte after a frame is asked for before the next frame is.
#[derive(Drop)]
pub struct FrameStream {
    bytes: Window,
    whole: bool,
    ended: Option<Ended>,
}

impl Model for FrameStream {
    ghost use Rattle.frame_stream.specs.Stream.{StreamState, IsStream, shown};

    ghost Value = { StreamState };

    ghost view = { λ s. shown s.whole s.bytes.held s.ended };

    ghost invariant = { λ s. IsStream s.whole s.bytes.held s.ended };
}

impl FrameStream {
    /// A stream from which nothing was taken yet. It allocates memory for a frame of `limits.frame` bytes, including
    /// its head, and accepts an input of at most `limits.input` bytes.
    pub fn open(alloc: Global, limits: Limits) -> Result<FrameStream, NoMem>
        requires low { HEAD_BYTES ≤ limits.frame }
        requires high { limits.frame ≤ LONGEST_FRAME }
        ensures { IfOk result (λ stream. stream ≡ opened limits) }
    {
        Ok(FrameStream {
            bytes: Window::new(alloc, limits.frame, limits.input)?,
            whole: false,
            ended: None,
        })
    }

    /// Takes the next frame and releases the previous one. Allocates nothing.
    ///
    /// After the end, a faulty head or the limit of the input, each later call gives the same answer and reads nothing.
    ///
    /// # Errors
    ///
    /// Each variant of [`StreamErr`]. After [`StreamErr::ReadFault`] the bytes of the unfinished frame are kept, and
    /// the next call goes on with them.
    #[inline(always)]
    pub fn take<I: Source>(&mut self, input: &mut I) -> Result<Taken, StreamErr>
        ensures stays { IfSome self.old.ended (λ ended. result ≡ end_answer ended) }
        ensures kept { IsSome self.old.ended → self.new ≡ self.old }
        ensures unread { IsSome self.old.ended → input.new ≡ input.old }
        ensures takes { self.old.ended ≡ None → Takes self.old self.new (I.state input.old).told (I.state input.new).told result }
        ensures body { BodyOf self.new result }
        ensures part { first_item self.new.frame self.new.held ≡ None }
        ensures fits { length self.new.held ≤ self.new.frame }
        ensures cause { TakeCause (I.state input.old).faults (I.state input.new).faults result }
    {
        if let Some(ended) = self.ended {
            return answer_at_end(ended);
        }
        match self.bytes.next_frame(input, self.whole) {
            Ok(head) => {
                self.whole = true;
                Ok(Taken::Frame(head))
            }
            Err(Stop::Fault) => {
                self.whole = false;
                Err(StreamErr::ReadFault)
            }
            Err(Stop::Ended(ended)) => {
                self.whole = false;
                self.ended = Some(ended);
                answer_at_end(ended)
            }
        }
    }

    /// The body of the frame that was taken last. Empty if the last call took no frame.
    pub fn frame(&self) -> &[u8]
        ensures { result.now ≡ self.now.body }
    {
        if self.whole {
            &self.bytes.as_slice()[HEAD_BYTES..]
        } else {
            &[]
        }
    }

    /// The bytes that were taken after the last whole frame: those of an incomplete frame, or of a faulty head.
    pub fn held(&self) -> &[u8]
        ensures { result.now ≡ self.now.held }
    {
        if self.whole {
            &[]
        } else {
            self.bytes.as_slice()
        }
    }

    /// How many bytes were taken in all. The one byte that shows that an input exceeds its limit isn't counted.
    pub fn taken(&self) -> u64
        ensures { result ≡ self.now.taken }
    {
        self.bytes.taken()
    }
}

/// The answer at and after an end.
fn answer_at_end(ended: Ended) -> Result<Taken, StreamErr>
    ensures { result ≡ end_answer ended }
{
    match ended {
        Ended::End => Ok(Taken::End),
        Ended::Inside(n) => Ok(Taken::EndInside(n)),
        Ended::Head(e) => Err(StreamErr::Head(e)),
        Ended::Over => Err(StreamErr::InputLimit),
    }
}
