ghost use Rattle.std.specs.Prelude.{◌≡◌, ◌≤◌, ◌<◌, Some, Ok, IsOk, length, slice_get};
ghost use Rattle.std.specs.Option.{option_map};
ghost use Rattle.sbe_types.specs.declared.kind.Primitive.TheVariants.{U16};
ghost use Rattle.schema_facts.specs.IsChecked.{IsChecked};
ghost use Rattle.schema_facts.specs.Measured.{IsSmall};
ghost use Rattle.layout_tables.specs.Parts.{all_parts};
ghost use Rattle.var_data.specs.Ranges.{data_range, range_behind};

use layout_tables::{Layout, small_number};
use sbe_types::{Leaf, Order};
use thiserror::Error;

/// Why bytes aren't a data part.
#[derive(Clone, Copy, Debug, PartialEq, Eq, Drop, Error)]
pub enum DataErr {
    /// The length number, or the data after it, extends past the end of the bytes.
    #[error("{needed} bytes are needed")]
    Truncated {
        /// The size in bytes of the length number, or of the length number and the data.
        needed: u64,
    },
    /// This length is out of range.
    #[error("a length of {0} bytes is not admitted")]
    Length(u32),
}

/// Reads a data part of the schema that begins at an offset of the bytes (SBE 1.0, "Variable-length data"), and returns
/// where its bytes begin and end.
///
/// # Errors
///
/// `Truncated` exactly if the length number extends past the end of the bytes; otherwise `Length` exactly if it is out
/// of the range of its type; otherwise `Truncated` exactly if the data extend past the end.
#[tactic(auto, using(crate::proofs::DataRows::part_within, crate::proofs::DataRows::part_small, crate::proofs::DataRows::part_told))]
pub fn read_data(
    layout: &Layout,
    part: usize,
    bytes: &[u8],
    at: usize,
) -> Result<(usize, usize), DataErr>
    requires checked { IsChecked layout.now }
    requires part { part < length (all_parts layout.now) }
    requires at { at ≤ length bytes.now }
    ensures { option_map (λ d. data_range layout.now.order d.length bytes.now at) (slice_get (all_parts layout.now) part) ≡ Some result }
{
    let place = layout.part_place(part);
    let row = layout.row(place.level as usize);
    read_data_of(
        layout.order(),
        &row.parts[place.part as usize].length,
        bytes,
        at,
    )
}

/// The same, given the type of the length number.
#[inline(always)]
pub fn read_data_of(
    order: Order,
    leaf: &Leaf,
    bytes: &[u8],
    at: usize,
) -> Result<(usize, usize), DataErr>
    requires small { IsSmall leaf.now.prim }
    requires at { at ≤ length bytes.now }
    ensures { result ≡ data_range order leaf.now bytes.now at }
{
    let wide = leaf.prim.width();
    if bytes.len() - at < wide {
        return Err(DataErr::Truncated {
            needed: wide as u64,
        });
    }
    let start = at + wide;
    let size = small_number(order, leaf.prim, &bytes[at..start]);
    range_behind(leaf, size, bytes, start)
}

/// The same for a data part that is known to be valid, because it was read before. Nothing is checked again.
#[inline(always)]
pub fn standing_data(order: Order, leaf: &Leaf, bytes: &[u8], at: usize) -> (usize, usize)
    requires small { IsSmall leaf.now.prim }
    requires at { at ≤ length bytes.now }
    requires stands { IsOk (data_range order leaf.now bytes.now at) }
    ensures { Ok result ≡ data_range order leaf.now bytes.now at }
{
    let wide = leaf.prim.width();
    let start = at + wide;
    let size = small_number(order, leaf.prim, &bytes[at..start]);
    (start, start + size as usize)
}

/// The range of a data part of `size` bytes that begin at an offset.
#[inline(always)]
fn range_behind(
    leaf: &Leaf,
    size: u32,
    bytes: &[u8],
    start: usize,
) -> Result<(usize, usize), DataErr>
    requires { start ≤ length bytes.now }
    ensures { result ≡ range_behind leaf.now size bytes.now start }
{
    if !leaf.admits(size as i128) {
        return Err(DataErr::Length(size));
    }
    if bytes.len() - start < size as usize {
        return Err(DataErr::Truncated {
            needed: leaf.prim.width() as u64 + size as u64,
        });
    }
    Ok((start, start + size as usize))
}
