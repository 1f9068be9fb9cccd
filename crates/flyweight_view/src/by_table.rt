// Blocks of a level, read by the table of the level's fields.
ghost use Rattle.std.specs.Prelude.{◌≤◌, ◌+◌, length, IfSome};
ghost use Rattle.flyweight_view.specs.ByTable.{AreWithin, IsTableBlock, ShowsField};
ghost use Rattle.flyweight_view.specs.TypedBlocks.{TypedBlock};
ghost use Rattle.flyweight_view.specs.inner.Blocks.{IsRowBlock};
ghost use Rattle.flyweight_view.specs.inner.Planned.{typed_at, IsPlannedBlock};

use crate::plan::{Plan, Span};
use flat_rows::FlatRows;
use layout_tables::{FieldRow, LevelRow};
use sbe_types::Order;

/// The bytes of a block, the table of its values, and the rows of its fields. Its numbers are little-endian.
#[derive(Clone, Copy)]
pub struct TableBlock<'a> {
    pub table: &'a FlatRows,
    pub fields: &'a [FieldRow],
    pub bytes: &'a [u8],
}

impl<'a> TableBlock<'a> {
    /// The bytes of field `i`. `None` if it is a constant, or there is no such field.
    #[inline(always)]
    pub fn field(&self, i: usize) -> Option<&'a [u8]>
        requires { AreWithin self.now }
        ensures { IfSome result (λ bytes. (s : TypedBlock) → IsTableBlock self.now s → ShowsField s i bytes.now) }
    {
        let row = self.fields.get(i)?;
        if row.is_constant {
            return None;
        }
        let bytes = &self.bytes[row.place as usize..row.end as usize];
        Some(bytes)
    }
}

/// A block that lies in a body, with the table of its fields. `None` if it is a composite, lacks a field, or its
/// numbers are big-endian.
#[inline(always)]
pub(crate) fn table_block<'a>(span: &Span<'a>, plan: &Plan<'a>) -> Option<TableBlock<'a>>
    requires { IsPlannedBlock span.now plan.now }
    ensures { IfSome result (λ b. IsTableBlock b (typed_at span.now plan.now)) }
{
    match *plan {
        Plan::Level(layout, number, _) => row_block(span, layout.row(number)),
        Plan::Members(_) => None,
    }
}

/// A block with the table of its level's row.
#[inline(always)]
fn row_block<'a>(span: &Span<'a>, row: &'a LevelRow) -> Option<TableBlock<'a>>
    requires { span.now.at + span.now.size ≤ length span.now.body.now }
    ensures { IfSome result (λ b. IsRowBlock span.now row.now b) }
{
    if span.mode.version < row.newest {
        return None;
    }
    match span.mode.order {
        Order::Little => Some(TableBlock {
            table: &row.flat,
            fields: row.fields.as_slice(),
            bytes: &span.body[span.at..span.at + span.size],
        }),
        Order::Big => None,
    }
}
