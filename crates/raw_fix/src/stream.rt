ghost use Rattle.std.specs.Prelude.{◌≡◌, ◌≤◌, true, None, IfOk, IfSome, IsSome};
ghost use Rattle.frame_stream.specs.declared.stream.TheConstants.{LONGEST_FRAME};
ghost use Rattle.raw_fix.specs.declared.items.TheConstants.{LEAST_FRAME};
ghost use Rattle.raw_fix.specs.Items.{raw_opened};
ghost use Rattle.raw_fix.specs.Taking.{RawCause, RawTextOf, TakesRaw, TableOf, end_answer, lefts_if, texts_for};

use crate::items::{Items, Settled};
use crate::taken::{RawEnded, RawErr, RawTaken};
use crate::verdict::drop_fields;
use sbe_base::{Limits, NoMem, Source};
use std::alloc::Global;
use std::marker::Model;
use tagvalue_codec::{DataTags, FieldTable};

/// The tag-value texts of a source, taken one by one, and the bytes between them that aren't a text.
///
/// A text is found by its BodyLength and its CheckSum. The items are those of the source's bytes, whatever the sizes of
/// the pieces in which the source gives them. The stream reads ahead into its own buffer; it reads only if the bytes
/// that it holds don't decide the next item.
#[derive(Drop)]
pub struct RawStream {
    items: Items,
    /// How many of the first bytes are the text taken last.
    text: usize,
    ended: Option<RawEnded>,
}

impl Model for RawStream {
    ghost use Rattle.raw_fix.specs.Stream.{RawState};
    ghost use Rattle.raw_fix.specs.Items.{IsRawStream, raw_shown};

    ghost Value = { RawState };

    ghost view = { λ s. raw_shown s.text s.items s.ended };

    ghost invariant = { λ s. IsRawStream s.text s.items.held s.ended };
}

impl RawStream {
    /// A stream from which nothing was taken yet. It allocates memory for a frame of `limits.frame` bytes, and accepts
    /// an input of at most `limits.input` bytes. A text may have at most as many bytes as a frame without its head.
    ///
    /// # Errors
    ///
    /// If memory runs out.
    pub fn open(alloc: Global, limits: Limits) -> Result<RawStream, NoMem>
        requires low { LEAST_FRAME ≤ limits.frame }
        requires high { limits.frame ≤ LONGEST_FRAME }
        ensures { IfOk result (λ stream. stream ≡ raw_opened limits.frame limits.input) }
    {
        Ok(RawStream {
            items: Items::new(alloc, limits.frame, limits.input)?,
            text: 0,
            ended: None,
        })
    }

    /// Takes the next item and releases the previous text. Allocates nothing.
    ///
    /// After a message the table holds its fields, and after any other answer it is empty. After the end or the limit
    /// of the input, each later call gives the same answer and reads nothing. Once a read has found the end of the
    /// source, there are no more reads: the bytes that are held are all that is left.
    ///
    /// # Errors
    ///
    /// Each variant of [`RawErr`]. After [`RawErr::ReadFault`] the bytes that were taken are kept, or counted if no
    /// message can begin in them, and the next call goes on after them.
    pub fn take<I: Source>(
        &mut self,
        input: &mut I,
        tags: &DataTags,
        table: &mut FieldTable,
    ) -> Result<RawTaken, RawErr>
        ensures stays { IfSome self.old.ended (λ ended. result ≡ end_answer ended) }
        ensures kept { IsSome self.old.ended → self.new ≡ self.old }
        ensures unread { IsSome self.old.ended → input.new ≡ input.old }
        ensures unread_met { self.old.met ≡ true → input.new ≡ input.old }
        ensures takes { self.old.ended ≡ None → TakesRaw (texts_for tags.now self.old) self.old self.new
            (lefts_if self.old.met (record { before = (I.state input.old).told; after = (I.state input.new).told })) result }
        ensures text { RawTextOf self.new result }
        ensures table { TableOf tags.now self.new.text result table.new }
        ensures cause { RawCause (I.state input.old).faults (I.state input.new).faults result }
    {
        drop_fields(tags, table);
        if let Some(ended) = self.ended {
            return answer_at_end(ended);
        }
        self.items.release(self.text);
        self.text = 0;
        match self.items.next(input, tags, table) {
            Ok(Settled::Message(n)) => {
                self.text = n;
                Ok(RawTaken::Message)
            }
            Ok(Settled::Garbled(run)) => Ok(RawTaken::Garbled {
                code: run.code,
                at: run.at,
                length: run.length,
            }),
            Ok(Settled::End) => {
                self.ended = Some(RawEnded::End);
                Ok(RawTaken::End)
            }
            Err(RawErr::InputLimit) => {
                self.ended = Some(RawEnded::Limit);
                Err(RawErr::InputLimit)
            }
            Err(RawErr::ReadFault) => Err(RawErr::ReadFault),
        }
    }

    /// The text of the message that was taken last. Empty if the last call took no message.
    pub fn text(&self) -> &[u8]
        ensures { result.now ≡ self.now.text }
    {
        &self.items.as_slice()[..self.text]
    }

    /// How many bytes were taken in all, including those that were read ahead. The one byte that shows that an input
    /// exceeds its limit isn't counted.
    pub fn taken(&self) -> u64
        ensures { result ≡ self.now.taken }
    {
        self.items.taken()
    }
}

/// The answer at and after an end.
fn answer_at_end(ended: RawEnded) -> Result<RawTaken, RawErr>
    ensures { result ≡ end_answer ended }
{
    match ended {
        RawEnded::End => Ok(RawTaken::End),
        RawEnded::Limit => Err(RawErr::InputLimit),
    }
}
