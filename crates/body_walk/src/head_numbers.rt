// The four numbers of a header.
ghost use Rattle.std.specs.Prelude.{◌≡◌, ◌≤◌, length};
ghost use Rattle.layout_tables.specs.Heads.{header_width};
ghost use Rattle.body_walk.specs.inner.HeadNumbers.{AreNumbersIn, AreTwoBytes};

use layout_tables::{Layout, number_at, small_number};
use sbe_types::{Order, Prim};

/// The four numbers of a header.
#[derive(Clone, Copy)]
pub(crate) struct HeadNumbers {
    pub(crate) block: u32,
    pub(crate) template: u32,
    pub(crate) schema: u32,
    pub(crate) version: u32,
}

/// The numbers in a header's bytes (SBE 1.0, "Message structure").
#[inline(always)]
pub(crate) fn numbers_in(layout: &Layout, head: &[u8]) -> HeadNumbers
    requires { length head.now ≡ header_width layout.now }
    ensures { AreNumbersIn layout.now head.now result }
{
    let row = layout.header_row();
    if !row.is_usual {
        return any_numbers(layout, head);
    }
    match layout.order() {
        Order::Little => usual_numbers(Order::Little, head),
        Order::Big => usual_numbers(Order::Big, head),
    }
}

/// The numbers of a header that follow one another in two bytes each.
#[inline(always)]
fn usual_numbers(order: Order, head: &[u8]) -> HeadNumbers
    requires { 8 ≤ length head.now }
    ensures { AreTwoBytes order head.now result }
{
    let block = small_number(order, Prim::U16, &head[0..2]);
    let template = small_number(order, Prim::U16, &head[2..4]);
    let schema = small_number(order, Prim::U16, &head[4..6]);
    let version = small_number(order, Prim::U16, &head[6..8]);
    HeadNumbers {
        block,
        template,
        schema,
        version,
    }
}

/// The numbers of a header, at any offsets.
#[inline(never)]
fn any_numbers(layout: &Layout, head: &[u8]) -> HeadNumbers
    requires { length head.now ≡ header_width layout.now }
    ensures { AreNumbersIn layout.now head.now result }
{
    let row = layout.header_row();
    let order = layout.order();
    let block = number_at(order, &row.block, head);
    let template = number_at(order, &row.template, head);
    let schema = number_at(order, &row.schema, head);
    let version = number_at(order, &row.version, head);
    HeadNumbers {
        block,
        template,
        schema,
        version,
    }
}
