// The block of a level before any of its fields is set.
ghost use Rattle.std.specs.Prelude.{◌≡◌, ◌≤◌, ◌+◌, ◌-◌, ◌*◌, length, Some, true};
ghost use Rattle.sbe_types.specs.Numbers.{bytes_of, prim_width};
ghost use Rattle.sbe_types.specs.Places.{width, end_past, fields_end};
ghost use Rattle.sbe_types.specs.Wire.{elements_bytes};
ghost use Rattle.sbe_types.specs.declared.message.Elem.TheVariants.{Null};
ghost use Rattle.schema_rules.specs.Ranges.{is_number_of};
ghost use Rattle.schema_facts.specs.InOrder.{IsKindInOrder};
ghost use Rattle.kind_bytes.specs.Members.{followed_by};
ghost use Rattle.typed_writer.specs.Empty.{empty_block, empty_bytes, empty_field, empty_fields, has_null_elements};
ghost use Rattle.typed_writer.specs.Ready.{CanStand, FieldsStand};
ghost use Rattle.std.specs.Prelude.{replicate};

use crate::room::Room;
use flat_rows::{begin_of, end_after, width_of};
use sbe_types::{Field, Kind, Leaf, LeafShape, Order, Presence};

impl Room {
    /// Appends an empty block, for which there is room.
    pub(crate) fn block(&mut self, order: Order, block_length: u32, fields: &[Field])
        requires stand { FieldsStand 0 fields.now }
        requires within { fields_end 0 fields.now ≤ block_length }
        requires room { length self.old.bytes + block_length ≤ self.old.limit }
        ensures bytes { followed_by self.old.bytes (empty_block order block_length fields.now) ≡ Some self.new.bytes }
        ensures len { length self.new.bytes ≡ length self.old.bytes + block_length }
        ensures limit { self.new.limit ≡ self.old.limit }
    {
        let begin = self.len();
        self.fields(order, fields);
        let rest = block_length as usize - (self.len() - begin);
        self.zeros(rest);
    }

    /// Appends empty fields, for which there is room.
    fn fields(&mut self, order: Order, fields: &[Field])
        requires stand { FieldsStand 0 fields.now }
        requires room { length self.old.bytes + fields_end 0 fields.now ≤ self.old.limit }
        ensures bytes { followed_by self.old.bytes (empty_fields order 0 fields.now) ≡ Some self.new.bytes }
        ensures len { length self.new.bytes ≡ length self.old.bytes + fields_end 0 fields.now }
        ensures limit { self.new.limit ≡ self.old.limit }
    {
        let mut end = 0u32;
        for field in fields {
            self.field(order, end, field);
            end = end_after(end, field.offset, &field.kind);
        }
    }

    /// Appends an empty field after fields that end at `end`.
    fn field(&mut self, order: Order, end: u32, field: &Field)
        requires stands { CanStand end field.now }
        requires room { length self.old.bytes + (end_past end field.now.offset field.now.kind - end) ≤ self.old.limit }
        ensures bytes { followed_by self.old.bytes (empty_field order end field.now) ≡ Some self.new.bytes }
        ensures len { length self.new.bytes + end ≡ length self.old.bytes + end_past end field.now.offset field.now.kind }
        ensures limit { self.new.limit ≡ self.old.limit }
    {
        match &field.kind {
            Kind::Const(_) => {}
            Kind::Leaf(_) | Kind::Enum(_, _) | Kind::Set(_, _) | Kind::Comp(_) => {
                self.zeros((begin_of(end, field.offset) - end) as usize);
                self.value(order, &field.kind);
            }
        }
    }

    /// Appends the bytes of a field that isn't set.
    fn value(&mut self, order: Order, kind: &Kind)
        requires order { IsKindInOrder kind.now }
        requires room { length self.old.bytes + width kind.now ≤ self.old.limit }
        ensures bytes { followed_by self.old.bytes (empty_bytes order kind.now) ≡ Some self.new.bytes }
        ensures len { length self.new.bytes ≡ length self.old.bytes + width kind.now }
        ensures limit { self.new.limit ≡ self.old.limit }
    {
        match kind {
            Kind::Leaf(leaf)
                if leaf.presence == Presence::Optional && has_null_elements(leaf.shape) => {
                self.nulls(order, *leaf)
            }
            Kind::Enum(leaf, _) if leaf.presence == Presence::Optional => self.null(order, *leaf),
            Kind::Leaf(_) | Kind::Enum(_, _) | Kind::Set(_, _) | Kind::Const(_) | Kind::Comp(_) =>
                self.zeros(width_of(kind) as usize),
        }
    }

    /// Appends as many nulls as a leaf is long.
    fn nulls(&mut self, order: Order, leaf: Leaf)
        requires null { is_number_of leaf.prim leaf.null ≡ true }
        requires room { length self.old.bytes + prim_width leaf.prim * leaf.length ≤ self.old.limit }
        ensures bytes { followed_by self.old.bytes (elements_bytes order leaf (replicate leaf.length Null)) ≡ Some self.new.bytes }
        ensures len { length self.new.bytes ≡ length self.old.bytes + prim_width leaf.prim * leaf.length }
        ensures limit { self.new.limit ≡ self.old.limit }
    {
        for _ in 0..leaf.length {
            self.null(order, leaf);
        }
    }

    /// Appends the null of a leaf.
    fn null(&mut self, order: Order, leaf: Leaf)
        requires null { is_number_of leaf.prim leaf.null ≡ true }
        requires room { length self.old.bytes + prim_width leaf.prim ≤ self.old.limit }
        ensures bytes { followed_by self.old.bytes (bytes_of order leaf.prim leaf.null) ≡ Some self.new.bytes }
        ensures len { length self.new.bytes ≡ length self.old.bytes + prim_width leaf.prim }
        ensures limit { self.new.limit ≡ self.old.limit }
    {
        self.number(order, leaf.prim, leaf.null);
    }
}

/// Whether a leaf of this shape is a number or an array of numbers, and not a text or octets.
fn has_null_elements(shape: LeafShape) -> bool
    ensures { result ≡ has_null_elements shape }
{
    match shape {
        LeafShape::Number | LeafShape::Numbers => true,
        LeafShape::RangedText | LeafShape::EncodedText | LeafShape::Octets => false,
    }
}
