ghost use Rattle.std.specs.Prelude.{◌≡◌, ◌≤◌, ◌<◌, ◌==◌, ◌∷◌, [], length, drop, IfOk, IfErr, OnOk, OnErr};
ghost use Rattle.schema_facts.specs.Levels.{fields_at, groups_at};
ghost use Rattle.std.specs.Borrow.{sem};
ghost use Rattle.std.specs.Option.{option_map};
ghost use Rattle.std.specs.Result.{result_err};
ghost use Rattle.kind_bytes.specs.Misfits.{misfit_of};
ghost use Rattle.typed_writer.specs.Lending.{RootRests};
ghost use Rattle.typed_writer.specs.States.{AppendsEntries, AppendsParts, SetsFields, block_at, entries_left, level_of, next_part, parts_done, parts_in_tail};
ghost use Rattle.typed_writer.specs.Steps.{Adds, Begins, DataRefused, GroupRefused, Groups, IsFull, Opens, SetsField, StartRefused, ends, first_unset, goes_on_as, misfit_at, next_group};

use crate::buffer::FrameBuf;
use crate::room::Full;
use crate::stack::Frame;
use kind_bytes::FieldErr;
use layout_tables::Layout;
use sbe_types::Value;
use thiserror::Error;

/// What comes next after a block.
#[derive(Clone, Copy, Debug, PartialEq, Eq)]
pub enum NextPart {
    /// Group `i` of the level.
    Group(usize),
    /// Data part `i` of the level.
    Data(usize),
    /// Nothing more.
    End,
}

/// Why a message can't be begun.
#[derive(Clone, Copy, Debug, PartialEq, Eq, Drop, Error)]
pub enum StartErr {
    /// The schema has no message with this number.
    #[error("there is no such message")]
    Template,
    /// There is no room for the header and the root's block.
    #[error("{0}")]
    Full(Full),
}

/// Why a group or a data part can't be appended.
#[derive(Clone, Copy, Debug, PartialEq, Eq, Drop, Error)]
pub enum TailErr {
    /// The count of the group doesn't allow this many entries.
    #[error("the group may not have so many entries")]
    Count,
    /// The length of the data part doesn't allow this many bytes.
    #[error("the data may not have so many bytes")]
    Length,
    /// There is no room for the group's dimension, or for the data.
    #[error("{0}")]
    Full(Full),
}

/// A block whose fields are being set.
#[derive(Drop)]
pub struct FieldsW<'b> {
    pub buf: &'b mut FrameBuf,
    pub layout: &'b Layout,
}

/// A block whose groups and data are being appended.
#[derive(Drop)]
pub struct TailW<'b> {
    pub buf: &'b mut FrameBuf,
    pub layout: &'b Layout,
    /// The number of open writers while it is the innermost one.
    pub depth: usize,
}

/// A group whose entries are being appended.
#[derive(Drop)]
pub struct EntriesW<'b> {
    pub buf: &'b mut FrameBuf,
    pub layout: &'b Layout,
    /// The number of open writers while it is the innermost one.
    pub depth: usize,
}

/// A block with a field that isn't set.
#[derive(Drop)]
pub struct Undone<'b> {
    pub fields: FieldsW<'b>,
    /// The first field that must be set and isn't.
    pub unset: usize,
}

/// Begins the body of a new message (SBE 1.0, "Message structure"). The previous contents of the buffer are discarded.
///
/// # Errors
///
/// `Template` exactly if the schema has no message with this number; otherwise `Full` exactly if its header and its
/// root's block exceed the limit. The buffer is empty after both.
pub fn start<'b>(
    buf: &'b mut FrameBuf,
    layout: &'b Layout,
    template: usize,
) -> Result<FieldsW<'b>, StartErr>
    ensures* rests { sem 𝓛 (RootRests buf.entry result) }
    ensures same_reference { IfOk result (λ f. f.buf.ghost_name ≡ buf.entry.ghost_name) }
    ensures ok { IfOk result (λ f. Begins layout.now template buf.old f.buf.now) }
    ensures ready { IfOk result (λ f. SetsFields layout.now f.buf.now) }
    ensures layout { IfOk result (λ f. f.layout.now ≡ layout.now) }
    ensures refused { IfErr result (StartRefused layout.now template buf.old.limit) }
{
    buf.begin(layout, template)
}

impl<'b> FieldsW<'b> {
    /// Sets field `i` of the block (SBE 1.0, "Field encoding"). A later value replaces an earlier one. Requires a field
    /// in range.
    ///
    /// # Errors
    ///
    /// The first member, element or byte that doesn't fit the field; any value for a constant. The bytes, and which
    /// fields are set, are then unchanged.
    pub fn set(&mut self, i: usize, v: &Value) -> Result<(), FieldErr>
        requires state { SetsFields self.old.layout.now self.old.buf.now }
        requires field { i < length (fields_at self.old.layout.now (level_of self.old.buf.now.frames)) }
        ensures same_reference { self.new.buf.ghost_name ≡ self.old.buf.ghost_name }
        ensures same_layout { self.new.layout ≡ self.old.layout }
        ensures ok { OnOk result (SetsField self.old.layout.now (level_of self.old.buf.now.frames) i v.now self.old.buf.now self.new.buf.now) }
        ensures ready { OnOk result (SetsFields self.old.layout.now self.new.buf.now) }
        ensures err { OnErr result (self.new.buf.now ≡ self.old.buf.now) }
        ensures refused { option_map misfit_of (result_err result) ≡ misfit_at self.old.layout.now (level_of self.old.buf.now.frames) i v.now }
    {
        self.buf.set(self.layout, i, v)
    }

    /// Ends the fields of the block. Its groups and data follow.
    ///
    /// # Errors
    ///
    /// The writer itself with the first field that must be set and isn't. A field must be set unless it is a constant
    /// or an optional leaf or enum other than octets.
    pub fn done(self) -> Result<TailW<'b>, Undone<'b>>
        requires { SetsFields self.layout.now self.buf.now }
        ensures ok_reference { IfOk result (λ t. t.buf.ghost_name ≡ self.entry.buf.ghost_name) }
        ensures err_reference { IfErr result (λ u. u.fields.buf.ghost_name ≡ self.entry.buf.ghost_name) }
        ensures ok { IfOk result (λ t. t.buf.now ≡ goes_on_as self.entry.buf.now (Frame.Tail (level_of self.entry.buf.now.frames) 0)) }
        ensures depth { IfOk result (λ t. t.depth ≡ length self.entry.buf.now.frames) }
        ensures ready { IfOk result (λ t. AppendsParts self.entry.layout.now t.buf.now) }
        ensures layout { IfOk result (λ t. t.layout.now ≡ self.entry.layout.now) }
        ensures err { IfErr result (λ u. u.fields.buf.now ≡ self.entry.buf.now) }
        ensures unset { first_unset self.entry.layout.now (level_of self.entry.buf.now.frames) self.entry.buf.now.set ≡ option_map (λ u. u.unset) (result_err result) }
    {
        let FieldsW { buf, layout } = self;
        if let Some(unset) = buf.unset(layout) {
            return Err(Undone {
                fields: FieldsW { buf, layout },
                unset,
            });
        }
        buf.to_tail(layout);
        let depth = buf.depth();
        Ok(TailW { buf, layout, depth })
    }
}

impl<'b> TailW<'b> {
    /// Whether no writer inside this one is unfinished.
    pub fn whole(&self) -> bool
        ensures { result ≡ (length self.now.buf.now.frames == self.now.depth) }
    {
        self.buf.depth() == self.depth
    }

    /// What comes next.
    pub fn next(&self) -> NextPart
        requires { AppendsParts self.now.layout.now self.now.buf.now }
        ensures { result ≡ next_part self.now.layout.now (level_of self.now.buf.now.frames) (parts_done self.now.buf.now.frames) }
    {
        self.buf.next(self.layout)
    }

    /// Begins the next group, with `count` entries. Requires that a group is next.
    ///
    /// # Errors
    ///
    /// `Count` exactly if the group's count doesn't allow this many entries; otherwise `Full` exactly if its dimension
    /// exceeds the limit.
    pub fn group(&mut self, count: u32) -> Result<EntriesW<'_>, TailErr>
        requires state { AppendsParts self.old.layout.now self.old.buf.now }
        requires group { parts_done self.old.buf.now.frames < length (groups_at self.old.layout.now (level_of self.old.buf.now.frames)) }
        ensures same_layout { IfOk result (λ e. e.layout.now ≡ self.old.layout.now) }
        ensures depth { IfOk result (λ e. e.depth ≡ length e.buf.now.frames) }
        ensures ok { IfOk result (λ e. Groups self.old.layout.now count self.old.buf.now e.buf.now) }
        ensures ready { IfOk result (λ e. AppendsEntries e.layout.now e.buf.now) }
        ensures refused { IfErr result (GroupRefused self.old.layout.now (next_group self.old.layout.now self.old.buf.now.frames) count self.old.buf.now) }
    {
        let layout = self.layout;
        self.buf.group(layout, count)
    }

    /// Appends the next data part (SBE 1.0, "Variable-length data"). Requires that a data part is next.
    ///
    /// # Errors
    ///
    /// `Length` exactly if the part's length doesn't allow this many bytes; otherwise `Full` exactly if they exceed the
    /// limit with their length number. The buffer is then unchanged.
    pub fn data(&mut self, bytes: &[u8]) -> Result<(), TailErr>
        requires state { AppendsParts self.old.layout.now self.old.buf.now }
        requires groups { length (groups_at self.old.layout.now (level_of self.old.buf.now.frames)) ≤ parts_done self.old.buf.now.frames }
        requires part { parts_done self.old.buf.now.frames < parts_in_tail self.old.layout.now (level_of self.old.buf.now.frames) }
        ensures same_reference { self.new.buf.ghost_name ≡ self.old.buf.ghost_name }
        ensures same_layout { self.new.layout ≡ self.old.layout }
        ensures depth { self.new.depth ≡ self.old.depth }
        ensures ok { OnOk result (Adds self.old.layout.now bytes.now self.old.buf.now self.new.buf.now) }
        ensures ready { OnOk result (AppendsParts self.old.layout.now self.new.buf.now) }
        ensures err { OnErr result (self.new.buf.now ≡ self.old.buf.now) }
        ensures refused { IfErr result (DataRefused self.old.layout.now (length bytes.now) self.old.buf.now) }
    {
        self.buf.put_data(self.layout, bytes)
    }

    /// Ends an entry, after its last part. Requires a writer that isn't the root's.
    pub fn close(self)
        requires state { AppendsParts self.layout.now self.buf.now }
        requires end { parts_done self.buf.now.frames ≡ parts_in_tail self.layout.now (level_of self.buf.now.frames) }
        requires entry { 1 < length self.buf.now.frames }
        ensures { self.exit.0.now ≡ ends self.entry.buf.now }
    {
        self.buf.leave();
    }

    /// Ends the message, after its last part, and returns the length of its body. Requires the root's writer.
    pub fn finish(self) -> usize
        requires state { AppendsParts self.layout.now self.buf.now }
        requires end { parts_done self.buf.now.frames ≡ parts_in_tail self.layout.now (level_of self.buf.now.frames) }
        requires root { length self.buf.now.frames ≡ 1 }
        ensures ends { self.exit.0.now ≡ ends self.entry.buf.now }
        ensures length { result ≡ length self.entry.buf.now.bytes }
    {
        self.buf.leave();
        self.buf.bytes().len()
    }
}

impl<'b> EntriesW<'b> {
    /// How many entries are still to come.
    pub fn left(&self) -> u32
        ensures { result ≡ entries_left self.now.buf.now.frames }
    {
        self.buf.left()
    }

    /// Whether no writer inside this one is unfinished.
    pub fn whole(&self) -> bool
        ensures { result ≡ (length self.now.buf.now.frames == self.now.depth) }
    {
        self.buf.depth() == self.depth
    }

    /// Begins the next entry. Requires an entry that is still to come.
    ///
    /// # Errors
    ///
    /// `Full` exactly if the entry's block exceeds the limit.
    pub fn entry(&mut self) -> Result<FieldsW<'_>, Full>
        requires state { AppendsEntries self.old.layout.now self.old.buf.now }
        requires some { 0 < entries_left self.old.buf.now.frames }
        ensures same_layout { IfOk result (λ f. f.layout.now ≡ self.old.layout.now) }
        ensures ok { IfOk result (λ f. Opens self.old.layout.now self.old.buf.now f.buf.now) }
        ensures ready { IfOk result (λ f. SetsFields f.layout.now f.buf.now) }
        ensures full { IfErr result (λ f. IsFull self.old.buf.now (block_at self.old.layout.now (level_of self.old.buf.now.frames)) f) }
    {
        let layout = self.layout;
        self.buf.entry(layout)
    }

    /// Ends the group, after its last entry.
    pub fn end(self)
        requires state { AppendsEntries self.layout.now self.buf.now }
        requires none { entries_left self.buf.now.frames ≡ 0 }
        ensures { self.exit.0.now ≡ ends self.entry.buf.now }
    {
        self.buf.leave();
    }
}
