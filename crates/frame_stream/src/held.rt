ghost use Rattle.std.specs.Prelude.{◌≡◌, ◌<◌, ◌≤◌, [], None, Ok, false, length, IfSome, OnErr, OnOk};
ghost use Rattle.open_framing.specs.Heads.{IsBytes};
ghost use Rattle.open_framing.specs.declared.head.TheConstants.{HEAD_BYTES};
ghost use Rattle.frame_stream.specs.Held.{Begins, Fills, IsBegun, IsEndBehind, IsStopOf, Nexts, StopCause, released};

use crate::reading::Dry;
use crate::window::Window;
use open_framing::{HEAD_BYTES, Head, HeadErr, read_head};
use sbe_base::Source;

/// How a stream of frames ended. Once it ended, this answer stays.
#[derive(Clone, Copy, Debug, PartialEq, Eq)]
pub enum Ended {
    /// The source ended after a frame, or before the first one.
    End,
    /// The source ended this many bytes into a frame.
    Inside(usize),
    /// The next six bytes aren't a head.
    Head(HeadErr),
    /// There is one byte more than the limit of the input.
    Over,
}

/// Why no frame is held.
#[derive(Clone, Copy, Debug, PartialEq, Eq)]
pub(crate) enum Stop {
    /// A read failed.
    Fault,
    /// There will be no further frame.
    Ended(Ended),
}

impl Window {
    /// Takes the next frame. A whole frame that was held is released first.
    #[inline(always)]
    pub(crate) fn next_frame<I: Source>(&mut self, input: &mut I, whole: bool) -> Result<Head, Stop>
        requires room { HEAD_BYTES ≤ self.old.held.size }
        requires begun { whole ≡ false → IsBegun self.old.held }
        ensures nexts { Nexts (released whole self.old.held) self.new.held (I.state input.old).told (I.state input.new).told result }
        ensures cause { StopCause (I.state input.old).faults (I.state input.new).faults result }
    {
        if whole {
            self.let_go_all();
            if let Some(head) = self.take_ahead(input) {
                return Ok(head);
            }
        }
        self.read_frame(input)
    }

    /// Takes the next frame from what the source has read ahead, if all of it is there.
    #[inline(always)]
    fn take_ahead<I: Source>(&mut self, input: &mut I) -> Option<Head>
        requires none { self.old.held.bytes ≡ [] }
        ensures nexts { IfSome result (λ head. Nexts self.old.held self.new.held (I.state input.old).told (I.state input.new).told (Ok head)) }
        ensures none { result ≡ None → (self.new.held ≡ self.old.held) × (input.new ≡ input.old) }
        ensures cause { (I.state input.new).faults ≡ (I.state input.old).faults }
    {
        let head = match read_head(input.ahead(), self.size()) {
            Ok(head) => head,
            Err(_) => return None,
        };
        if self.copy_ahead(input, head.length as usize) {
            are_bytes(self.as_slice());
            return Some(head);
        }
        None
    }

    /// Takes the next frame, of which a part may be held already.
    #[inline(never)]
    fn read_frame<I: Source>(&mut self, input: &mut I) -> Result<Head, Stop>
        requires room { HEAD_BYTES ≤ self.old.held.size }
        requires begun { IsBegun self.old.held }
        ensures nexts { Nexts self.old.held self.new.held (I.state input.old).told (I.state input.new).told result }
        ensures cause { StopCause (I.state input.old).faults (I.state input.new).faults result }
    {
        match self.begin_frame(input) {
            Ok(()) => {}
            Err(stop) => return Err(stop),
        }
        match read_head(self.as_slice(), self.size()) {
            Ok(head) => match self.fill(input, head.length as usize) {
                Ok(()) => {
                    are_bytes(self.as_slice());
                    Ok(head)
                }
                Err(stop) => Err(stop),
            },
            Err(e) => Err(Stop::Ended(Ended::Head(e))),
        }
    }

    /// Reads until a head is held.
    fn begin_frame<I: Source>(&mut self, input: &mut I) -> Result<(), Stop>
        requires room { HEAD_BYTES ≤ self.old.held.size }
        requires begun { IsBegun self.old.held }
        ensures begins { Begins self.old.held self.new.held (I.state input.old).told (I.state input.new).told result }
        ensures cause { StopCause (I.state input.old).faults (I.state input.new).faults result }
    {
        self.is_within();
        if self.len() < HEAD_BYTES {
            return self.fill(input, HEAD_BYTES);
        }
        Ok(())
    }

    /// Reads until `want` bytes are held.
    fn fill<I: Source>(&mut self, input: &mut I, want: usize) -> Result<(), Stop>
        requires room { want ≤ self.old.held.size }
        requires less { length self.old.held.bytes ≤ want }
        ensures whole { OnOk result (length self.new.held.bytes ≡ want) }
        ensures part { OnErr result (length self.new.held.bytes < want) }
        ensures fills { Fills self.old.held self.new.held (I.state input.old).told (I.state input.new).told result }
        ensures cause { StopCause (I.state input.old).faults (I.state input.new).faults result }
    {
        self.is_within();
        while self.len() < want {
            match self.more(input, want) {
                Ok(()) => {}
                Err(dry) => return Err(stop_of(dry, self.len())),
            }
        }
        Ok(())
    }
}

/// The items of a byte slice are bytes.
fn are_bytes(bytes: &[u8])
    ensures { IsBytes bytes.now }
{}

/// Why no frame is held, when `len` bytes of it are and no more came.
fn stop_of(dry: Dry, len: usize) -> Stop
    ensures { IsStopOf dry len result }
{
    match dry {
        Dry::Fault => Stop::Fault,
        Dry::End => Stop::Ended(end_after(len)),
        Dry::Over => Stop::Ended(Ended::Over),
    }
}

/// The end of a source after `len` bytes of a frame.
fn end_after(len: usize) -> Ended
    ensures { IsEndBehind len result }
{
    if len == 0 {
        Ended::End
    } else {
        Ended::Inside(len)
    }
}
