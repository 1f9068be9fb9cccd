// An order, written part by part.
ghost use Rattle.std.specs.Prelude.{◌≡◌, ◌∷◌, [], ◌-◌, ◌<◌, drop, length, true, OnOk, OnErr, IfOk};
ghost use Rattle.sbe_wire.specs.Canonical.{canonical};
ghost use Rattle.sbe_wire.specs.Fits.{Fits};
ghost use Rattle.schema_facts.specs.Levels.{root_of};
ghost use Rattle.body_walk.specs.inner.Ready.{IsReadySchema};
ghost use Rattle.kind_bytes.specs.Members.{followed_by};
ghost use Rattle.typed_writer.specs.States.{entries_left, level_of, AppendsEntries, AppendsParts};
ghost use Rattle.library_examples.specs.Orders.{leg_bytes, legs_bytes, message_of_order, AtLegs, IsNoOrder, IsOrderSchema, LegFits, LegHasRoom, LegsFit, LegsHaveRoom, PutsLeg, PutsLegs};

use layout_tables::Layout;
use sbe_types::Value;
use typed_writer::{EntriesW, FieldErr, Frame, FrameBuf, Full, StartErr, TailErr, TailW, start};

/// An order: its number, the quantity of each leg, and a note.
#[derive(Clone, Copy)]
pub struct Order<'a> {
    pub number: i128,
    pub legs: &'a [i128],
    pub note: &'a [u8],
}

/// Why an order wasn't written.
#[derive(Drop)]
pub enum OrderErr {
    /// The schema's first message isn't an order.
    Schema,
    /// The message can't be begun.
    Start(StartErr),
    /// A number doesn't fit its field.
    Field(FieldErr),
    /// Another field of the block must be set.
    Unset(usize),
    /// The legs or the note can't be appended.
    Part(TailErr),
    /// There is no room for a leg.
    Full(Full),
}

/// Writes an order as the first message of a schema: the message fits, and the buffer then holds its canonical body.
/// Returns its length in bytes. The message must have one field, one group whose entries have one field, and one data
/// part. Allocates nothing.
///
/// # Errors
///
/// Only if the first message of the schema isn't an order, or the order has a misfit within the buffer's limit. No
/// contract says which one, or what the buffer then holds.
pub fn write_order(
    layout: &Layout,
    order: &Order<'_>,
    buffer: &mut FrameBuf,
) -> Result<usize, OrderErr>
    ensures fits { OnOk result (Fits layout.now (message_of_order layout.now.version order.now)) }
    ensures body { OnOk result (canonical layout.now (message_of_order layout.now.version order.now) ≡ Some buffer.new.bytes) }
    ensures length { IfOk result (λ n. n ≡ length buffer.new.bytes) }
    ensures whole { OnOk result (buffer.new.frames ≡ []) }
    ensures refused { OnErr result (IsNoOrder layout.now (message_of_order layout.now.version order.now) buffer.old.limit) }
{
    let _schema = layout.schema();
    if !is_order(layout) {
        return Err(OrderErr::Schema);
    }
    match start(buffer, layout, 0) {
        Ok(mut fields) => {
            match fields.set(0, &Value::Num(order.number)) {
                Ok(()) => {}
                Err(e) => return Err(OrderErr::Field(e)),
            }
            match fields.buf.done(layout) {
                Ok(mut tail) => {
                    write_legs(layout, &mut tail, order.legs)?;
                    match tail.data(order.note) {
                        Ok(()) => Ok(tail.finish()),
                        Err(e) => Err(OrderErr::Part(e)),
                    }
                }
                Err(unset) => Err(OrderErr::Unset(unset)),
            }
        }
        Err(e) => Err(OrderErr::Start(e)),
    }
}

/// Whether the schema's first message has the parts of an order.
fn is_order(layout: &Layout) -> bool
    ensures yes { result ≡ true → IsOrderSchema layout.now }
    ensures no { IsOrderSchema layout.now → result ≡ true }
{
    if layout.templates() == 0 {
        return false;
    }
    let root = layout.root(0);
    if root >= layout.levels() {
        return false;
    }
    let (fields, groups, parts) = layout.counts(root);
    if fields != 1 || groups != 1 || parts != 1 {
        return false;
    }
    let (fields, groups, parts) = layout.counts(layout.group(root, 0));
    fields == 1 && groups == 0 && parts == 0
}

/// Appends the group with an entry for each leg.
fn write_legs(layout: &Layout, tail: &mut TailW<'_>, legs: &[i128]) -> Result<(), OrderErr>
    requires ready { IsReadySchema layout.now }
    requires schema { IsOrderSchema layout.now }
    requires state { AppendsParts layout.now tail.old.buf.now }
    requires at { tail.old.buf.now.frames ≡ Frame.Tail (root_of layout.now 0) 0 ∷ [] }
    ensures same_reference { tail.new.buf.ghost_name ≡ tail.old.buf.ghost_name }
    ensures same_layout { tail.new.layout ≡ tail.old.layout }
    ensures ready { OnOk result (AppendsParts layout.now tail.new.buf.now) }
    ensures fits { OnOk result (LegsFit layout.now legs.now) }
    ensures bytes { OnOk result (followed_by tail.old.buf.now.bytes (legs_bytes layout.now legs.now) ≡ Some tail.new.buf.now.bytes) }
    ensures after { OnOk result (tail.new.buf.now.frames ≡ Frame.Tail (root_of layout.now 0) 1 ∷ []) }
    ensures puts { OnOk result (LegsHaveRoom layout.now legs.now tail.old.buf.now → PutsLegs layout.now legs.now tail.old.buf.now tail.new.buf.now) }
    ensures refused { OnErr result (LegsHaveRoom layout.now legs.now tail.old.buf.now → ⊥) }
{
    let Ok(count) = u32::try_from(legs.len()) else {
        return Err(OrderErr::Part(TailErr::Count));
    };
    match tail.buf.group(layout, count) {
        Ok(mut entries) => {
            for quantity in legs {
                write_leg(layout, &mut entries, *quantity)?;
            }
            entries.end();
            Ok(())
        }
        Err(e) => Err(OrderErr::Part(e)),
    }
}

/// Appends the entry of a leg. Requires an entry that is still to come.
fn write_leg(layout: &Layout, entries: &mut EntriesW<'_>, quantity: i128) -> Result<(), OrderErr>
    requires ready { IsReadySchema layout.now }
    requires schema { IsOrderSchema layout.now }
    requires state { AppendsEntries layout.now entries.old.buf.now }
    requires some { 0 < entries_left entries.old.buf.now.frames }
    requires legs { AtLegs layout.now entries.old.buf.now }
    ensures same_reference { entries.new.buf.ghost_name ≡ entries.old.buf.ghost_name }
    ensures same_layout { entries.new.layout ≡ entries.old.layout }
    ensures fits { OnOk result (LegFits layout.now quantity) }
    ensures bytes { OnOk result (followed_by entries.old.buf.now.bytes (leg_bytes layout.now quantity) ≡ Some entries.new.buf.now.bytes) }
    ensures next { OnOk result (entries.new.buf.now.frames ≡ Frame.Entries (level_of entries.old.buf.now.frames) (entries_left entries.old.buf.now.frames - 1) ∷ drop 1 entries.old.buf.now.frames) }
    ensures puts { OnOk result (LegHasRoom layout.now quantity entries.old.buf.now → PutsLeg layout.now quantity entries.old.buf.now entries.new.buf.now) }
    ensures refused { OnErr result (LegHasRoom layout.now quantity entries.old.buf.now → ⊥) }
{
    match entries.buf.entry(layout) {
        Ok(mut fields) => {
            match fields.set(0, &Value::Num(quantity)) {
                Ok(()) => {}
                Err(e) => return Err(OrderErr::Field(e)),
            }
            match fields.buf.done(layout) {
                Ok(tail) => {
                    tail.close();
                    Ok(())
                }
                Err(unset) => Err(OrderErr::Unset(unset)),
            }
        }
        Err(full) => Err(OrderErr::Full(full)),
    }
}
