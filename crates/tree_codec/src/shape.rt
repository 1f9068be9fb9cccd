// Whether a message has as many values as the schema has parts, and no group or data part that is absent.
ghost use Rattle.std.specs.Prelude.{◌≡◌, ◌==◌, ◌&&◌, ◌≤◌, ◌+◌, ◌*◌, false, length, Some};
ghost use Rattle.sbe_types.specs.declared.message.Block.{out-Block};
ghost use Rattle.sbe_types.specs.declared.schema.Level.{out-Level};
ghost use Rattle.sbe_wire.specs.Canonical.{entries_in};
ghost use Rattle.sbe_wire.specs.Misfit.{bad_shape, block_shape, entries_shape, parts_shape};
ghost use Rattle.schema_rules.specs.PartRules.{most_groups};
ghost use Rattle.schema_facts.specs.CheckedLevels.{groups_deep, HasFewParts};
ghost use Rattle.tree_codec.specs.Shapes.{groups_unfit, is_gone, misfit_unless, Throughout};

use crate::first_misfit::FirstMisfit;
use sbe_types::{Block, DataVal, GroupVal, Level, List, Step};
use sbe_wire::NCode;

/// Whether a block has the shape of its level, in wire order. If not, `out` receives the first part that hasn't.
#[cycle(shape)]
#[tactic(auto, using(crate::proofs::LevelShapes::shape_none, crate::proofs::LevelShapes::shape_all, crate::proofs::LevelShapes::here))]
pub(crate) fn shape_block(level: &Level, block: &Block, out: &mut FirstMisfit) -> bool
    requires few { Throughout HasFewParts level.now }
    requires shallow { groups_deep level.now ≤ most_groups }
    ensures told { misfit_unless result out.new ≡ block_shape level.now block.now }
    ensures low { result ≡ false → length out.new.path ≤ 2 * groups_deep level.now + 1 }
{
    if !same_counts(level, block) {
        out.tell(NCode::Shape, 0);
        return false;
    }
    if !shape_groups(level, block, out) {
        return false;
    }
    shape_parts(level, block, out)
}

/// Whether a block has as many fields, groups and data as its level.
fn same_counts(level: &Level, block: &Block) -> bool
    ensures { result ≡ ((length (out-Level level.now).fields == length (out-Block block.now).fields)
        && (length (out-Level level.now).groups == length (out-Block block.now).groups)
        && (length (out-Level level.now).parts == length (out-Block block.now).parts)) }
{
    level.fields.len() == block.fields.len()
        && level.groups.len() == block.groups.len()
        && level.parts.len() == block.parts.len()
}

/// The same for the groups of a block.
#[cycle(shape)]
fn shape_groups(level: &Level, block: &Block, out: &mut FirstMisfit) -> bool
    requires few { Throughout HasFewParts level.now }
    requires shallow { groups_deep level.now ≤ most_groups }
    requires same { length (out-Level level.now).groups ≡ length (out-Block block.now).groups }
    ensures told { misfit_unless result out.new ≡ groups_unfit (length (out-Level level.now).fields) (out-Level level.now).groups (out-Block block.now).groups }
    ensures low { result ≡ false → length out.new.path ≤ 2 * groups_deep level.now + 1 }
{
    let first = level.fields.len();
    for i in 0..level.groups.len() {
        if !shape_group(&level.groups.at(i).level, block.groups.at(i), out) {
            out.under(Step::Part((first + i) as u32));
            return false;
        }
    }
    true
}

/// The same for a group, given the level of its entries.
#[cycle(shape)]
fn shape_group(level: &Level, group: &GroupVal, out: &mut FirstMisfit) -> bool
    requires few { Throughout HasFewParts level.now }
    requires shallow { groups_deep level.now ≤ most_groups }
    ensures told { misfit_unless result out.new ≡ entries_shape (λ entry. block_shape level.now entry) (entries_in group.now) }
    ensures low { result ≡ false → length out.new.path ≤ 2 * groups_deep level.now + 2 }
{
    match group {
        GroupVal::Absent => {
            out.tell(NCode::Shape, 0);
            false
        }
        GroupVal::Entries(entries) => shape_entries(level, entries, out),
    }
}

/// The same for entries. If there are more than any count can state, none is checked.
#[cycle(shape)]
fn shape_entries(level: &Level, entries: &List<Block>, out: &mut FirstMisfit) -> bool
    requires few { Throughout HasFewParts level.now }
    requires shallow { groups_deep level.now ≤ most_groups }
    ensures told { misfit_unless result out.new ≡ entries_shape (λ entry. block_shape level.now entry) (Some entries.now) }
    ensures low { result ≡ false → length out.new.path ≤ 2 * groups_deep level.now + 2 }
{
    if entries.len() > u32::MAX as usize {
        return true;
    }
    for i in 0..entries.len() {
        if !shape_block(level, entries.at(i), out) {
            out.under(Step::Entry(i as u32));
            return false;
        }
    }
    true
}

/// The same for the data parts of a block.
fn shape_parts(level: &Level, block: &Block, out: &mut FirstMisfit) -> bool
    requires few { HasFewParts level.now }
    requires groups { length (out-Level level.now).groups ≡ length (out-Block block.now).groups }
    requires parts { length (out-Level level.now).parts ≡ length (out-Block block.now).parts }
    ensures told { misfit_unless result out.new
        ≡ parts_shape (length (out-Level level.now).fields + length (out-Block block.now).groups) (out-Block block.now).parts }
    ensures low { result ≡ false → length out.new.path ≤ 1 }
{
    let first = level.fields.len() + level.groups.len();
    for i in 0..block.parts.len() {
        if is_absent(block.parts.at(i)) {
            out.tell(NCode::Shape, 0);
            out.under(Step::Part((first + i) as u32));
            return false;
        }
    }
    true
}

/// Whether a data part is absent.
fn is_absent(part: &DataVal) -> bool
    ensures { result ≡ is_gone part.now }
{
    match part {
        DataVal::Absent => true,
        DataVal::Bytes(_) => false,
    }
}
