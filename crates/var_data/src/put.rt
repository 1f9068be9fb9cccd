ghost use Rattle.std.specs.Prelude.{◌≡◌, ◌≤◌, ◌<◌, ◌+◌, OnErr, OnOk, Some, length, pos, slice_get, true};
ghost use Rattle.std.specs.Option.{option_map};
ghost use Rattle.sbe_types.specs.declared.message.DataVal.TheVariants.{Bytes};
ghost use Rattle.sbe_types.specs.declared.schema.DataField.{DataField};
ghost use Rattle.sbe_types.specs.Numbers.{prim_width};
ghost use Rattle.sbe_wire.specs.Canonical.{part_bytes};
ghost use Rattle.schema_rules.specs.Ranges.{is_number_of};
ghost use Rattle.schema_facts.specs.InOrder.{IsLeafInOrder};
ghost use Rattle.schema_facts.specs.IsChecked.{IsChecked};
ghost use Rattle.layout_tables.specs.Parts.{all_parts};
ghost use Rattle.field_bytes.specs.Laid.{IsPut};
ghost use Rattle.var_data.specs.Laid.{counted_bytes, data_end};

use field_bytes::put_num;
use layout_tables::Layout;
use sbe_types::{Leaf, Order, Prim};
use thiserror::Error;

/// Why a data part wasn't written.
#[derive(Clone, Copy, Debug, PartialEq, Eq, Drop, Error)]
pub enum PutDataErr {
    /// This length is out of range.
    #[error("the length is not admitted")]
    Length,
    /// The length number, or the data after it, extends past the end of the bytes.
    #[error("there is no room for the data")]
    Full,
}

/// Writes a data part of the schema at an offset of `out` (SBE 1.0, "Variable-length data"): its length number, and
/// then its bytes. All other bytes of `out` are unchanged. Returns the offset after it.
///
/// # Errors
///
/// `Length` exactly if the length is out of the range of its type; otherwise `Full` exactly if `out` is too short.
/// `out` is then unchanged.
#[tactic(auto, using(crate::proofs::DataRows::part_within))]
pub fn put_data(
    layout: &Layout,
    part: usize,
    bytes: &[u8],
    out: &mut [u8],
    at: usize,
) -> Result<usize, PutDataErr>
    requires checked { IsChecked layout.now }
    requires part { part < length (all_parts layout.now) }
    requires at { at ≤ length out.old }
    ensures told { option_map (λ d. data_end d.length (length bytes.now) (length out.old) at) (slice_get (all_parts layout.now) part) ≡ Some result }
    ensures put { OnOk result ((d : DataField) → slice_get (all_parts layout.now) part ≡ Some d → IsPut (part_bytes layout.now.order d (Bytes bytes.now)) at out.old out.new) }
    ensures kept { OnErr result (out.new ≡ out.old) }
{
    let place = layout.part_place(part);
    let row = layout.row(place.level as usize);
    put_data_of(
        layout.order(),
        &row.parts[place.part as usize].length,
        bytes,
        out,
        at,
    )
}

/// The same, given the type of the length number.
pub fn put_data_of(
    order: Order,
    leaf: &Leaf,
    bytes: &[u8],
    out: &mut [u8],
    at: usize,
) -> Result<usize, PutDataErr>
    requires ready { IsLeafInOrder leaf.now }
    requires at { at ≤ length out.old }
    ensures told { result ≡ data_end leaf.now (length bytes.now) (length out.old) at }
    ensures put { OnOk result (IsPut (counted_bytes order leaf.now.prim bytes.now) at out.old out.new) }
    ensures kept { OnErr result (out.new ≡ out.old) }
{
    if !leaf.admits(bytes.len() as i128) {
        return Err(PutDataErr::Length);
    }
    let room = out.len() - at;
    let wide = leaf.prim.width();
    if room < wide || room - wide < bytes.len() {
        return Err(PutDataErr::Full);
    }
    put_counted(order, leaf.prim, bytes, out, at);
    Ok(at + wide + bytes.len())
}

/// Writes a length number and the bytes after it, if there is room for both.
fn put_counted(order: Order, prim: Prim, bytes: &[u8], out: &mut [u8], at: usize)
    requires number { is_number_of prim (pos (length bytes.now)) ≡ true }
    requires room { at + prim_width prim + length bytes.now ≤ length out.old }
    ensures { IsPut (counted_bytes order prim bytes.now) at out.old out.new }
{
    let start = at + prim.width();
    put_num(order, prim, bytes.len() as i128, &mut out[at..start]);
    let end = start + bytes.len();
    out[start..end].copy_from_slice(bytes);
}
