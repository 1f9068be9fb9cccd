// Blocks of a level, checked by the table of the level's fields.
ghost use Rattle.std.specs.Prelude.{◌≡◌, ◌≤◌, ◌<◌, ◌+◌, ◌-◌, ◌^◌, true, false, length, take, drop, IfSome, IfNone};
ghost use Rattle.sbe_types.specs.declared.schema.Level.{out-Level};
ghost use Rattle.flat_rows.specs.Tables.{IsTable, RowsFit};
ghost use Rattle.body_walk.specs.inner.Blocks.{IsBlockAt, IsBlockRow, ShowsEach};
ghost use Rattle.body_walk.specs.inner.Cursor.{block_end};
ghost use Rattle.body_walk.specs.inner.Fields.{fields_check};
ghost use Rattle.body_walk.specs.inner.Outcomes.{fault_unless, piece, place_or_fault};

use crate::fields::judge_fields;
use crate::found::Found;
use flat_rows::shows_all;
use layout_tables::LevelRow;
use sbe_types::{Level, Order};
use sbe_wire::{FCode, Mode};

/// The block of `block` bytes at an offset of the body, or `None` if the body ends before it does.
#[inline(always)]
fn block_at(body: &[u8], at: usize, block: u32) -> Option<&[u8]>
    requires { at ≤ length body.now }
    ensures lies { IfSome result (λ b. IsBlockAt body.now at block b.now) }
    ensures short { IfNone result (length body.now - at < block) }
{
    let size = block as usize;
    if body.len() - at < size {
        return None;
    }
    Some(&body[at..at + size])
}

/// Walks a block of `block` bytes at an offset of the body, by the row of its level. Returns the offset after it. If it
/// returns `None`, `out` receives the first fault.
#[inline(always)]
pub(crate) fn walk_block(
    mode: Mode,
    row: &LevelRow,
    level: &Level,
    block: u32,
    body: &[u8],
    at: usize,
    out: &mut Found,
) -> Option<usize>
    requires row { IsBlockRow mode.version block level.now row.now }
    requires at { at ≤ length body.now }
    ensures told { place_or_fault result out.new ≡ block_end mode level.now block body.now at }
    ensures within { IfSome result (λ next. next ≤ length body.now) }
    ensures low { IfNone result (length out.new.path ≤ 6) }
{
    match block_at(body, at, block) {
        Some(bytes) => {
            if !judge_block(mode, row, level, at, bytes, out) {
                return None;
            }
            Some(at + block as usize)
        }
        None => {
            out.tell(FCode::Truncated, at, block as i128);
            None
        }
    }
}

/// Whether there is a block of `block` bytes at an offset of the body, and the fast check accepts each of its values.
#[inline(always)]
pub(crate) fn shows_block(mode: Mode, row: &LevelRow, body: &[u8], at: usize, block: u32) -> bool
    requires table { IsTable row.now.flat }
    requires fits { row.now.newest ≤ mode.version → RowsFit block row.now.flat.rows.items }
    requires at { at ≤ length body.now }
    ensures room { result ≡ true → at + block ≤ length body.now }
    ensures shows { result ≡ true → ShowsEach mode row.now (take block (drop at body.now)) }
{
    match block_at(body, at, block) {
        Some(bytes) => shows_each(mode, row, bytes),
        None => false,
    }
}

/// Checks the fields of a level's block that begins at an offset of the body: by a fast check of each value of the
/// table, and otherwise field by field. If one has no valid value, `out` receives the first fault.
#[inline(always)]
fn judge_block(
    mode: Mode,
    row: &LevelRow,
    level: &Level,
    at: usize,
    block: &[u8],
    out: &mut Found,
) -> bool
    requires row { IsBlockRow mode.version (length block.now) level.now row.now }
    requires near { at + length block.now < 2 ^ 64 }
    ensures told { fault_unless result out.new ≡ fields_check mode (piece at block.now) 0 (out-Level level.now).fields row.now.fields.items }
    ensures low { result ≡ false → length out.new.path ≤ 6 }
{
    if shows_each(mode, row, block) {
        return true;
    }
    let rows = row.fields.as_slice();
    judge_fields(mode, rows, level.fields.as_slice(), at, block, out)
}

/// Whether the fast check accepts each value of a block, by the table of its level's row. Big-endian numbers aren't
/// checked, nor are blocks of versions that lack a field; the answer is then false.
#[inline(always)]
fn shows_each(mode: Mode, row: &LevelRow, block: &[u8]) -> bool
    requires table { IsTable row.now.flat }
    requires fits { row.now.newest ≤ mode.version → RowsFit (length block.now) row.now.flat.rows.items }
    ensures { result ≡ true → ShowsEach mode row.now block.now }
{
    if mode.version < row.newest {
        return false;
    }
    match mode.order {
        Order::Little => shows_all(&row.flat, mode.known, block),
        Order::Big => false,
    }
}
