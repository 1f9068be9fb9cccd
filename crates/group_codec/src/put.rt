ghost use Rattle.std.specs.Prelude.{◌≡◌, ◌≤◌, ◌+◌, List, Some, length, pos, true};
ghost use Rattle.sbe_types.specs.declared.kind.Member.{Member};
ghost use Rattle.sbe_types.specs.declared.kind.Primitive.TheVariants.{U16, U32, U8};
ghost use Rattle.sbe_types.specs.Numbers.{bytes_of, prim_width};
ghost use Rattle.sbe_wire.specs.Canonical.{dimension_numbers, named_bytes};
ghost use Rattle.schema_rules.specs.Ranges.{is_number_of};
ghost use Rattle.schema_facts.specs.IsChecked.{IsChecked};
ghost use Rattle.layout_tables.specs.Parts.{dim_at};
ghost use Rattle.layout_tables.specs.Rowed.{DimIs};
ghost use Rattle.field_bytes.specs.Laid.{IsPut};
ghost use Rattle.group_codec.specs.Dims.{IsDimRow};
ghost use Rattle.group_codec.specs.Puts.{CanSay, IsWholeDim};

use field_bytes::put_num_at;
use layout_tables::{DimRow, Layout, SpotRow};
use sbe_types::Order;

/// Writes the dimension of a group (SBE 1.0, "Repeating group encoding"), with zeros between its two numbers. The group
/// is identified by the number of its entries' level. Requires as many bytes as the dimension takes, a block length
/// that fits its type, and a count within its range.
pub fn put_dim(layout: &Layout, group: usize, block: u32, count: u32, out: &mut [u8])
    requires checked { IsChecked layout.now }
    requires group { (dim : List Member) × (dim_at layout.now group ≡ Some dim) × CanSay dim block count (length out.old) }
    ensures { (dim : List Member) → dim_at layout.now group ≡ Some dim
        → named_bytes layout.now.order (dimension_numbers block count) 0 dim ≡ Some out.new }
{
    match &layout.row(group).dim {
        Some(row) => put_dim_row(layout.order(), row, block, count, out),
        None => unreachable!(),
    }
}

/// The same, given the dimension's row.
#[tactic(auto, using(crate::proofs::DimPuts::dim_put))]
pub fn put_dim_row(order: Order, row: &DimRow, block: u32, count: u32, out: &mut [u8])
    requires row { IsDimRow row.now }
    requires wide { length out.old ≡ row.now.width }
    requires block { is_number_of row.now.block.leaf.prim (pos block) ≡ true }
    requires count { is_number_of row.now.count.leaf.prim (pos count) ≡ true }
    ensures { (dim : List Member) → DimIs row.now dim → IsWholeDim dim
        → named_bytes order (dimension_numbers block count) 0 dim ≡ Some out.new }
{
    out.fill(0);
    put_spot(order, &row.block, block, out);
    put_spot(order, &row.count, count, out);
}

/// Writes a number of a dimension at its offset.
fn put_spot(order: Order, spot: &SpotRow, n: u32, out: &mut [u8])
    requires inside { spot.now.place + prim_width spot.now.leaf.prim ≤ length out.old }
    requires number { is_number_of spot.now.leaf.prim (pos n) ≡ true }
    ensures put { IsPut (bytes_of order spot.now.leaf.prim (pos n)) spot.now.place out.old out.new }
    ensures as_many { length out.new ≡ length out.old }
{
    put_num_at(order, spot.leaf.prim, n as i128, out, spot.place as usize);
}
