// Blocks that are clean, checked by the values of their table in wire order.
ghost use Rattle.std.specs.Prelude.{◌≡◌, ◌≤◌, true, length, IfSome};
ghost use Rattle.flat_rows.specs.Tables.{stands_for, IsRow, IsTable};
ghost use Rattle.clean_bodies.specs.Clean.{IsCleanKind, IsCleanLeaf};
ghost use Rattle.clean_walk.specs.inner.Values.{AreCleanValues, IsCleanRow};

use crate::zeros::{is_clean_text, is_zero};
use flat_rows::{FlatRow, FlatRows};
use sbe_types::{Kind, LeafShape};

/// Whether a block has zeros between its values, after the last one, and after the first 00 of each text.
pub(crate) fn is_clean_block(table: &FlatRows, block: &[u8]) -> bool
    requires { IsTable table.now }
    ensures { result ≡ true → AreCleanValues 0 (stands_for table.now) block.now }
{
    let mut end = 0usize;
    for row in table.rows.as_slice() {
        match past_value(row, end, block) {
            Some(next) => end = next,
            None => return false,
        }
    }
    is_zero(&block[end..])
}

/// The end of a row's value, if the value is within the block, there are zeros between `end` and the value, and its
/// bytes are clean.
#[inline(always)]
fn past_value(row: &FlatRow, end: usize, block: &[u8]) -> Option<usize>
    requires row { IsRow row.now }
    requires near { end ≤ length block.now }
    ensures clean { IfSome result (λ next. IsCleanRow end row.now block.now) }
    ensures end { IfSome result (λ next. next ≡ row.now.end) }
    ensures within { IfSome result (λ next. next ≤ length block.now) }
{
    let begin = row.place as usize;
    let next = row.end as usize;
    if begin < end || next > block.len() || !is_zero(&block[end..begin]) {
        return None;
    }
    if !is_clean_kind(&row.kind, &block[begin..next]) {
        return None;
    }
    Some(next)
}

/// Whether the bytes of a value have zeros after the first 00 of a text. A table has no composites.
#[inline(always)]
fn is_clean_kind(kind: &Kind, bytes: &[u8]) -> bool
    ensures { result ≡ true → IsCleanKind kind.now bytes.now }
{
    match kind {
        Kind::Leaf(leaf) => is_clean_leaf(leaf.shape, bytes),
        Kind::Enum(_, _) | Kind::Set(_, _) | Kind::Const(_) => true,
        Kind::Comp(_) => false,
    }
}

/// The same for a single number, a text or an array.
#[inline(always)]
fn is_clean_leaf(shape: LeafShape, bytes: &[u8]) -> bool
    ensures { result ≡ true → IsCleanLeaf shape bytes.now }
{
    match shape {
        LeafShape::RangedText | LeafShape::EncodedText => is_clean_text(bytes),
        LeafShape::Number | LeafShape::Octets | LeafShape::Numbers => true,
    }
}
