//! Single values of a message, by their places.
ghost use Rattle.std.specs.Prelude.{◌≡◌, ◌<◌, length, slice_get, IfSome};
ghost use Rattle.std.specs.Option.{option_map};
ghost use Rattle.field_lookup.specs.Places.{block_of, entry_at, message_data, message_number, message_state, message_text, place_at, place_of, spot_at, value_place};

use crate::values::{composite_of, data_of, number_of, text_of};
use flyweight_view::{BlockView, EntriesView, FieldState, MsgView};

/// A step from a block to an entry: a group of the block, and an entry of that group. Each is counted from 0.
#[repr(C)]
#[derive(Clone, Copy)]
pub struct Step {
    /// The group, in the schema's order.
    pub group: usize,
    /// The entry.
    pub entry: usize,
}

/// A field of a block, and a member of it if it is a composite. Each is counted from 0, in the schema's order.
#[repr(C)]
#[derive(Clone, Copy)]
pub struct FieldPlace {
    /// The field.
    pub field: usize,
    /// The member.
    pub member: usize,
}

/// Where a value is: a field of a block, or a member of a composite.
#[derive(Drop)]
pub struct ValuePlace<'a> {
    block: BlockView<'a>,
    i: usize,
}

/// The number of a field of the block to which the steps lead from the root. There is none if the message has no such
/// entry, or the field no number.
pub fn message_number(view: &MsgView<'_>, steps: &[Step], field: FieldPlace) -> Option<i128>
    ensures { result ≡ message_number (spot_at steps.now field) view.now }
{
    match find_value(view, steps, field) {
        Some(place) => number_of(&place.block, place.i),
        None => None,
    }
}

/// The text of such a field, without what follows its first 00.
pub fn message_text<'a>(view: &MsgView<'a>, steps: &[Step], field: FieldPlace) -> Option<&'a [u8]>
    ensures { option_map (λ b. b.now) result ≡ message_text (spot_at steps.now field) view.now }
{
    match find_value(view, steps, field) {
        Some(place) => text_of(&place.block, place.i),
        None => None,
    }
}

/// The state of such a field. There is none if the message has no such entry, or the schema no such field.
pub fn message_state(view: &MsgView<'_>, steps: &[Step], field: FieldPlace) -> Option<FieldState>
    ensures { result ≡ message_state (spot_at steps.now field) view.now }
{
    match find_value(view, steps, field) {
        Some(place) => Some(place.block.state(place.i)),
        None => None,
    }
}

/// The bytes of a data part of the block to which the steps lead from the root. There are none if the message has no such
/// entry, or its version no such part.
pub fn message_data<'a>(view: &MsgView<'a>, steps: &[Step], part: usize) -> Option<&'a [u8]>
    ensures { option_map (λ b. b.now) result ≡ message_data steps.now part view.now }
{
    match block_of(view, steps) {
        Some(block) => data_of(&block, part),
        None => None,
    }
}

/// Where the value of a field is.
fn find_value<'a>(view: &MsgView<'a>, steps: &[Step], field: FieldPlace) -> Option<ValuePlace<'a>>
    ensures place { result ≡ place_of (spot_at steps.now field) view.now }
    ensures within { IfSome result (λ p. p.i < length p.block.fields) }
{
    match block_of(view, steps) {
        Some(block) => value_place(block, field),
        None => None,
    }
}

/// The block to which the steps lead from the root.
fn block_of<'a>(view: &MsgView<'a>, steps: &[Step]) -> Option<BlockView<'a>>
    ensures { result ≡ block_of steps.now view.now }
{
    let mut block = view.root();
    for step in steps {
        match entry_of(&block, *step) {
            Some(entry) => block = entry,
            None => return None,
        }
    }
    Some(block)
}

/// The entry to which a step leads.
fn entry_of<'a>(block: &BlockView<'a>, step: Step) -> Option<BlockView<'a>>
    ensures { result ≡ entry_at step block.now }
{
    if step.group >= block.counts().1 {
        return None;
    }
    match block.group(step.group) {
        Some(entries) => nth_of(entries, step.entry),
        None => None,
    }
}

/// One of a group's entries, counted from 0.
fn nth_of<'a>(entries: EntriesView<'a>, n: usize) -> Option<BlockView<'a>>
    ensures { result ≡ slice_get entries.entry n }
{
    let mut before = n;
    for entry in entries {
        if before == 0 {
            return Some(entry);
        }
        before -= 1;
    }
    None
}

/// Where the value of a block's field is.
fn value_place<'a>(block: BlockView<'a>, field: FieldPlace) -> Option<ValuePlace<'a>>
    ensures place { result ≡ value_place field block.entry }
    ensures within { IfSome result (λ p. p.i < length p.block.fields) }
{
    if field.field >= block.counts().0 {
        return None;
    }
    match composite_of(&block, field.field) {
        Some(members) => place_at(members, field.member),
        None => place_at(block, field.field),
    }
}

/// The place of a block's field.
fn place_at<'a>(block: BlockView<'a>, i: usize) -> Option<ValuePlace<'a>>
    ensures place { result ≡ place_at i block.entry }
    ensures within { IfSome result (λ p. p.i < length p.block.fields) }
{
    if i >= block.counts().0 {
        return None;
    }
    Some(ValuePlace { block, i })
}
