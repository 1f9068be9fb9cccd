ghost use Rattle.std.specs.Prelude.{◌≡◌, ◌∷◌, [], ◌≤◌, ◌<◌, ◌+◌, ◌*◌, length, drop, OnOk, OnErr, IfOk, IfErr, Some, slice_get};
ghost use Rattle.std.specs.Borrow.{sem};
ghost use Rattle.std.specs.Result.{result_err};
ghost use Rattle.sbe_types.specs.Places.{members_end};
ghost use Rattle.schema_facts.specs.Levels.{all_nodes};
ghost use Rattle.kind_bytes.specs.Members.{followed_by};
ghost use Rattle.typed_writer.specs.Lending.{FieldsRest, RootRests, TailRests};
ghost use Rattle.typed_writer.specs.States.{AppendsEntries, AppendsParts, SetsFields, block_at, entries_left, level_of, next_part, parts_done};
ghost use Rattle.typed_writer.specs.Steps.{Begins, IsFull, Opens, StartRefused, block_in, header_in, ends, first_unset, goes_on_as, must_be_set, none_set};

use crate::marks::Marks;
use crate::room::{Full, Room};
use crate::stack::{Frame, Stack};
use crate::states::{FieldsW, NextPart, StartErr, TailW};
use layout_tables::Layout;
use lists::NoMem;
use sbe_wire::Counters;
use std::alloc::Global;
use std::marker::Model;

/// The bytes of a body, and its open writers. All memory is allocated when it is made.
#[derive(Drop)]
pub struct FrameBuf {
    pub(crate) room: Room,
    pub(crate) stack: Stack,
    /// The offset of the block that was begun last.
    pub(crate) at: usize,
    pub(crate) marks: Marks,
}

impl Model for FrameBuf {
    ghost use Rattle.typed_writer.specs.Held.{Held};

    ghost Value = { Held };

    ghost view = { λ b. record { bytes = b.room.bytes; frames = b.stack; at = b.at; set = b.marks; limit = b.room.limit } };
}

impl FrameBuf {
    /// Allocates all memory for a body of at most `limit` bytes.
    pub fn new(alloc: Global, limit: usize) -> Result<FrameBuf, NoMem>
        ensures empty { IfOk result (λ b. b.bytes ≡ []) }
        ensures closed { IfOk result (λ b. b.frames ≡ []) }
        ensures limit { IfOk result (λ b. b.limit ≡ limit) }
    {
        let room = Room::new(alloc, limit)?;
        let stack = Stack::new(alloc)?;
        let marks = Marks::new(alloc)?;
        Ok(FrameBuf {
            room,
            stack,
            at: 0,
            marks,
        })
    }

    /// The bytes of the body so far.
    pub fn bytes(&self) -> &[u8]
        ensures { result.now ≡ self.now.bytes }
    {
        self.room.bytes()
    }

    /// The most bytes that a body may have. The contents of the buffer are within it.
    pub fn limit(&self) -> usize
        ensures same { result ≡ self.now.limit }
        ensures within { length self.now.bytes ≤ self.now.limit }
    {
        let _len = self.room.len();
        self.room.limit()
    }

    /// The number of open writers.
    pub fn depth(&self) -> usize
        ensures { result ≡ length self.now.frames }
    {
        self.stack.len()
    }

    /// Empties the buffer.
    pub fn clear(&mut self)
        ensures bytes { self.new.bytes ≡ [] }
        ensures frames { self.new.frames ≡ [] }
        ensures limit { self.new.limit ≡ self.old.limit }
    {
        self.room.clear();
        self.stack.clear();
    }

    /// How many entries the innermost writer still has to append.
    pub(crate) fn left(&self) -> u32
        ensures { result ≡ entries_left self.now.frames }
    {
        match self.stack.top() {
            Some(Frame::Entries { left, .. }) => left,
            Some(Frame::Fields { .. }) => 0,
            Some(Frame::Tail { .. }) => 0,
            None => 0,
        }
    }

    /// What the innermost writer has to append next.
    pub(crate) fn next(&self, layout: &Layout) -> NextPart
        requires { AppendsParts layout.now self.now }
        ensures { result ≡ next_part layout.now (level_of self.now.frames) (parts_done self.now.frames) }
    {
        match self.stack.top() {
            Some(Frame::Tail { level, next }) => next_of(layout, level, next),
            Some(Frame::Fields { .. }) => unreachable!(),
            Some(Frame::Entries { .. }) => unreachable!(),
            None => unreachable!(),
        }
    }

    /// The first field that must be set and isn't.
    pub(crate) fn unset(&self, layout: &Layout) -> Option<usize>
        requires { SetsFields layout.now self.now }
        ensures { result ≡ first_unset layout.now (level_of self.now.frames) self.now.set }
    {
        match self.stack.top() {
            Some(Frame::Fields { level }) => self.marks.unset(layout.fields(level)),
            Some(Frame::Tail { .. }) => unreachable!(),
            Some(Frame::Entries { .. }) => unreachable!(),
            None => unreachable!(),
        }
    }

    /// Closes the innermost writer.
    pub(crate) fn leave(&mut self)
        requires { 0 < length self.old.frames }
        ensures { self.new ≡ ends self.old }
    {
        self.stack.pop();
    }

    /// Replaces the innermost writer.
    pub(crate) fn go_on(&mut self, frame: Frame)
        requires { 0 < length self.old.frames }
        ensures { self.new ≡ goes_on_as self.old frame }
    {
        self.stack.replace(frame);
    }

    /// Appends the empty block of a level, for which there is room, and starts its marks.
    #[tactic(auto, using(crate::proofs::Checked::fields_stand, crate::proofs::Checked::fields_within, crate::proofs::Checked::fields_few, crate::proofs::Checked::block_told))]
    pub(crate) fn lay_block(&mut self, layout: &Layout, level: usize)
        requires level { level < length (all_nodes layout.now) }
        requires room { length self.old.bytes + block_at layout.now level ≤ self.old.limit }
        ensures bytes { followed_by self.old.bytes (block_in layout.now level) ≡ Some self.new.bytes }
        ensures len { length self.new.bytes ≡ length self.old.bytes + block_at layout.now level }
        ensures frames { self.new.frames ≡ self.old.frames }
        ensures at { self.new.at ≡ length self.old.bytes }
        ensures set { self.new.set ≡ none_set layout.now level }
        ensures limit { self.new.limit ≡ self.old.limit }
    {
        let _schema = layout.schema();
        let fields = layout.fields(level);
        self.at = self.room.len();
        self.room.block(layout.order(), layout.block(level), fields);
        self.marks.begin(fields.len());
    }

    /// Begins the body of a message: its header, and the empty block of its root.
    #[tactic(auto, using(crate::proofs::Holding::root_within, crate::proofs::Holding::root_bytes, crate::proofs::Checked::block_told))]
    fn lay_root(&mut self, layout: &Layout, template: usize) -> Result<(), StartErr>
        ensures ok { OnOk result (Begins layout.now template self.old self.new) }
        ensures ready { OnOk result (SetsFields layout.now self.new) }
        ensures err { OnErr result (self.new.bytes ≡ []) }
        ensures refused { IfErr result (StartRefused layout.now template self.old.limit) }
        ensures limit { self.new.limit ≡ self.old.limit }
    {
        let _schema = layout.schema();
        self.clear();
        if template >= layout.templates() {
            return Err(StartErr::Template);
        }
        let level = layout.root(template);
        let needed = layout.header_row().width as u64 + layout.block(level) as u64;
        match self.room.judge(needed) {
            Ok(()) => {}
            Err(full) => return Err(StartErr::Full(full)),
        }
        self.lay_header(layout, template);
        self.lay_block(layout, level);
        self.stack.push(Frame::Fields { level });
        Ok(())
    }

    /// Appends the header of a message, for which there is room.
    #[tactic(auto, using(crate::proofs::Holding::header_holds, crate::proofs::Holding::header_stands, crate::proofs::Holding::header_told))]
    fn lay_header(&mut self, layout: &Layout, template: usize)
        requires template { template < length layout.now.messages }
        requires room { length self.old.bytes + members_end 0 layout.now.header.members ≤ self.old.limit }
        ensures bytes { followed_by self.old.bytes (header_in layout.now template) ≡ Some self.new.bytes }
        ensures len { length self.new.bytes ≡ length self.old.bytes + members_end 0 layout.now.header.members }
        ensures frames { self.new.frames ≡ self.old.frames }
        ensures limit { self.new.limit ≡ self.old.limit }
    {
        let schema = layout.schema();
        let root = layout.message(template);
        let numbers = Counters::Header {
            block: root.block_length,
            template: root.id,
            schema: schema.id,
            version: schema.version,
        };
        self.room
            .members(schema.order, &schema.header.members, numbers);
    }

    /// Begins the body of a new message. The previous contents of the buffer are discarded.
    ///
    /// # Errors
    ///
    /// `Template` exactly if the schema has no message with this number; otherwise `Full` exactly if its header and its
    /// root's block exceed the limit. The buffer is empty after both.
    pub fn begin<'b>(
        &'b mut self,
        layout: &'b Layout,
        template: usize,
    ) -> Result<FieldsW<'b>, StartErr>
        ensures* rests { sem 𝓛 (RootRests self.entry result) }
        ensures same_reference { IfOk result (λ f. f.buf.ghost_name ≡ self.entry.ghost_name) }
        ensures ok { IfOk result (λ f. Begins layout.now template self.old f.buf.now) }
        ensures ready { IfOk result (λ f. SetsFields layout.now f.buf.now) }
        ensures layout { IfOk result (λ f. f.layout.now ≡ layout.now) }
        ensures refused { IfErr result (StartRefused layout.now template self.old.limit) }
    {
        match self.lay_root(layout, template) {
            Ok(()) => Ok(FieldsW { buf: self, layout }),
            Err(e) => Err(e),
        }
    }

    /// Appends the empty block of the next entry.
    fn lay_entry(&mut self, layout: &Layout) -> Result<(), Full>
        requires state { AppendsEntries layout.now self.old }
        requires some { 0 < entries_left self.old.frames }
        ensures ok { OnOk result (Opens layout.now self.old self.new) }
        ensures ready { OnOk result (SetsFields layout.now self.new) }
        ensures err { OnErr result (self.new ≡ self.old) }
        ensures full { IfErr result (λ f. IsFull self.old (block_at layout.now (level_of self.old.frames)) f) }
    {
        match self.stack.top() {
            Some(Frame::Entries { level, left }) => {
                match self.room.judge(layout.block(level) as u64) {
                    Ok(()) => {}
                    Err(full) => return Err(full),
                }
                self.lay_block(layout, level);
                self.stack.replace(Frame::Entries {
                    level,
                    left: left - 1,
                });
                self.stack.push(Frame::Fields { level });
                Ok(())
            }
            Some(Frame::Fields { .. }) => unreachable!(),
            Some(Frame::Tail { .. }) => unreachable!(),
            None => unreachable!(),
        }
    }

    /// Begins the next entry of the current group. Requires an entry that is still to come.
    ///
    /// # Errors
    ///
    /// `Full` exactly if the entry's block exceeds the limit. The buffer is then unchanged.
    pub fn entry<'b>(&'b mut self, layout: &'b Layout) -> Result<FieldsW<'b>, Full>
        requires state { AppendsEntries layout.now self.old }
        requires some { 0 < entries_left self.old.frames }
        ensures* rests { sem 𝓛 (FieldsRest self.entry result) }
        ensures same_reference { IfOk result (λ f. f.buf.ghost_name ≡ self.entry.ghost_name) }
        ensures ok { IfOk result (λ f. Opens layout.now self.old f.buf.now) }
        ensures ready { IfOk result (λ f. SetsFields layout.now f.buf.now) }
        ensures layout { IfOk result (λ f. f.layout.now ≡ layout.now) }
        ensures full { IfErr result (λ f. IsFull self.old (block_at layout.now (level_of self.old.frames)) f) }
    {
        match self.lay_entry(layout) {
            Ok(()) => Ok(FieldsW { buf: self, layout }),
            Err(full) => Err(full),
        }
    }

    /// Ends the fields of a block. Its groups and data follow.
    ///
    /// # Errors
    ///
    /// The first field that must be set and isn't. A field must be set unless it is a constant or an optional leaf or
    /// enum other than octets. The buffer is then unchanged.
    pub fn done<'b>(&'b mut self, layout: &'b Layout) -> Result<TailW<'b>, usize>
        requires { SetsFields layout.now self.old }
        ensures* rests { sem 𝓛 (TailRests self.entry result) }
        ensures same_reference { IfOk result (λ t. t.buf.ghost_name ≡ self.entry.ghost_name) }
        ensures ok { IfOk result (λ t. t.buf.now ≡ goes_on_as self.old (Frame.Tail (level_of self.old.frames) 0)) }
        ensures ready { IfOk result (λ t. AppendsParts layout.now t.buf.now) }
        ensures depth { IfOk result (λ t. t.depth ≡ length self.old.frames) }
        ensures layout { IfOk result (λ t. t.layout.now ≡ layout.now) }
        ensures unset { first_unset layout.now (level_of self.old.frames) self.old.set ≡ result_err result }
    {
        if let Some(unset) = self.unset(layout) {
            return Err(unset);
        }
        self.to_tail(layout);
        let depth = self.stack.len();
        Ok(TailW {
            buf: self,
            layout,
            depth,
        })
    }

    /// Ends the fields; the groups and data follow.
    pub(crate) fn to_tail(&mut self, layout: &Layout)
        requires { SetsFields layout.now self.old }
        ensures now { self.new ≡ goes_on_as self.old (Frame.Tail (level_of self.old.frames) 0) }
        ensures ready { AppendsParts layout.now self.new }
    {
        match self.stack.top() {
            Some(Frame::Fields { level }) => self.stack.replace(Frame::Tail { level, next: 0 }),
            Some(Frame::Tail { .. }) => unreachable!(),
            Some(Frame::Entries { .. }) => unreachable!(),
            None => unreachable!(),
        }
    }
}

/// What follows the first `many` groups and data parts of a level.
fn next_of(layout: &Layout, level: usize, many: usize) -> NextPart
    requires { level < length (all_nodes layout.now) }
    ensures { result ≡ next_part layout.now level many }
{
    let (_, groups, parts) = layout.counts(level);
    if many < groups {
        return NextPart::Group(many);
    }
    if many - groups < parts {
        return NextPart::Data(many - groups);
    }
    NextPart::End
}
