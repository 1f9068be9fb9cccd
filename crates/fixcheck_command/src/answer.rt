ghost use Rattle.std.specs.Prelude.{◌≡◌, ◌-◌, Some, true, length, slice_get, take, drop};
ghost use Rattle.replies.specs.Outside.{sinks_of};
ghost use Rattle.command_steps.specs.Replies.{Replied, Wants};
ghost use Rattle.tagvalue_codec.specs.declared.table.FixField.{FixField};
ghost use Rattle.fixcheck_command.specs.FixCheck.{HoldsType, IsTextReply, put_so};

use crate::lines::{note_encoding, note_fault, write_text};
use lists::NoMem;
use open_framing::TAG_VALUE;
use printers::Chunk;
use replies::Verdict;
use sbe_base::{Sink, Status, WriteFault};
use std::alloc::Global;
use tagvalue_codec::{DataTags, FieldTable, read_fix};

/// What the answers to frames are made with: the fields of a text, and the chunk through which lines are printed.
#[derive(Drop)]
pub struct TextSpace {
    table: FieldTable,
    chunk: Chunk,
}

impl TextSpace {
    /// Allocates memory for the fields of one text.
    pub fn new(alloc: Global) -> Result<TextSpace, NoMem> {
        let table = FieldTable::new(alloc)?;
        Ok(TextSpace {
            table,
            chunk: Chunk::new(),
        })
    }
}

/// Writes the answer to a frame: the line of a text to the output, or the line of a refused item to the notes.
/// Allocates nothing.
///
/// # Errors
///
/// `WriteFault` if a write fails. The sink then holds a prefix of the line.
pub fn answer_text<O: Sink, N: Sink>(
    tags: &DataTags,
    item: u64,
    encoding: u16,
    body: &[u8],
    space: &mut TextSpace,
    output: &mut O,
    notes: &mut N,
) -> Result<Verdict, Status>
    ensures replied { Replied (length body.now) (IsTextReply tags.now item (record { encoding = encoding; body = body.now }))
        (sinks_of (O.state output.old) (N.state notes.old))
        (sinks_of (O.state output.new) (N.state notes.new))
        result }
    ensures wants { Wants true result }
{
    if encoding != TAG_VALUE {
        return verdict_of(
            note_encoding(notes, item, encoding, &mut space.chunk),
            Verdict::Refused,
        );
    }
    match read_fix(body, tags, &mut space.table) {
        Ok(()) => {
            let kind = type_in(body, &space.table);
            let fields = space.table.len();
            verdict_of(
                write_text(output, item, kind, fields, &mut space.chunk),
                Verdict::Answered,
            )
        }
        Err(fault) => verdict_of(
            note_fault(notes, item, &fault, &mut space.chunk),
            Verdict::Refused,
        ),
    }
}

/// The type of a text whose fields the table holds.
fn type_in<'a>(text: &'a [u8], table: &FieldTable) -> &'a [u8]
    requires { HoldsType text.now table.now }
    ensures { (field : FixField) → slice_get table.now 2 ≡ Some field → result.now ≡ take (field.to - field.from) (drop field.from text.now) }
{
    let field = table.field(2);
    &text[field.from..field.to]
}

/// What becomes of an item after its line was written.
fn verdict_of(put: Result<(), WriteFault>, verdict: Verdict) -> Result<Verdict, Status>
    ensures told { result ≡ put_so put verdict }
    ensures wants { Wants true result }
{
    match put {
        Ok(()) => Ok(verdict),
        Err(WriteFault) => Err(Status::WriteFault),
    }
}
