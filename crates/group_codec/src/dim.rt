ghost use Rattle.std.specs.Prelude.{◌≡◌, ◌≤◌, ◌+◌, List, Some, IfOk, length};
ghost use Rattle.std.specs.Option.{option_map, IsSome};
ghost use Rattle.sbe_types.specs.declared.kind.Member.{Member};
ghost use Rattle.layout_tables.specs.Parts.{dim_at};
ghost use Rattle.layout_tables.specs.Rowed.{DimIs};
ghost use Rattle.group_codec.specs.Dims.{dim_read, IsDimRow};

use layout_tables::{DimRow, Layout, number_at};
use sbe_types::Order;
use thiserror::Error;

/// The contents of a group's dimension, and where it ends.
#[derive(Clone, Copy, Debug, PartialEq, Eq)]
pub struct Dim {
    /// The size of each entry's block in bytes.
    pub block: u32,
    /// The number of entries.
    pub count: u32,
    /// The offset of the first byte after the dimension.
    pub after: usize,
}

/// Why bytes aren't a dimension.
#[derive(Clone, Copy, Debug, PartialEq, Eq, Drop, Error)]
pub enum DimErr {
    /// The dimension extends past the end of the bytes.
    #[error("the dimension passes the end of the bytes")]
    Truncated,
    /// This count is out of range.
    #[error("{0} entries are not admitted")]
    Count(u32),
}

/// Reads the dimension of a group that begins at an offset of the bytes (SBE 1.0, "Repeating group encoding"). The
/// group is identified by the number of its entries' level. The block length isn't checked.
///
/// # Errors
///
/// `Truncated` exactly if the dimension extends past the end of the bytes; otherwise `Count` exactly if the count is
/// out of the range of its type.
#[tactic(auto, using(layout_tables::proofs::GroupWalk::dim_within, crate::proofs::DimRows::row_there, crate::proofs::DimRows::level_told, crate::proofs::DimRows::never_none))]
pub fn read_dim(layout: &Layout, group: usize, bytes: &[u8], at: usize) -> Result<Dim, DimErr>
    requires group { IsSome (dim_at layout.now group) }
    requires at { at ≤ length bytes.now }
    ensures { option_map (λ dim. dim_read layout.now.order dim bytes.now at) (dim_at layout.now group) ≡ Some result }
{
    match &layout.row(group).dim {
        Some(row) => read_dim_row(layout.order(), row, bytes, at),
        None => unreachable!(),
    }
}

/// The same, given the dimension's row.
#[inline(always)]
pub fn read_dim_row(order: Order, row: &DimRow, bytes: &[u8], at: usize) -> Result<Dim, DimErr>
    requires row { IsDimRow row.now }
    requires at { at ≤ length bytes.now }
    ensures told { (dim : List Member) → DimIs row.now dim → result ≡ dim_read order dim bytes.now at }
    ensures after { IfOk result (λ d. d.after ≡ at + row.now.width) }
    ensures within { IfOk result (λ d. d.after ≤ length bytes.now) }
{
    let wide = row.width as usize;
    if bytes.len() - at < wide {
        return Err(DimErr::Truncated);
    }
    let after = at + wide;
    let head = &bytes[at..after];
    let block = number_at(order, &row.block, head);
    let count = number_at(order, &row.count, head);
    if !row.count.leaf.admits(count as i128) {
        return Err(DimErr::Count(count));
    }
    Ok(Dim {
        block,
        count,
        after,
    })
}
