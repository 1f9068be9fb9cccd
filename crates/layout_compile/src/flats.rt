// The table of the values of a level's block.
ghost use Rattle.std.specs.Prelude.{◌≡◌, IfOk};
ghost use Rattle.sbe_types.specs.declared.schema.Level.{out-Level};
ghost use Rattle.schema_facts.specs.Measured.{AreNarrowFields};
ghost use Rattle.layout_tables.specs.Flats.{IsFlat};
ghost use Rattle.layout_compile.specs.inner.Grown.{AreInOrder};

use flat_rows::{FlatRows, flat_rows_of};
use sbe_types::{Level, NoMem};
use std::alloc::Global;

/// The table of the values of a level's block.
pub(crate) fn level_flat(alloc: Global, level: &Level) -> Result<FlatRows, NoMem>
    requires order { AreInOrder (out-Level level.now).fields }
    requires narrow { AreNarrowFields 0 (out-Level level.now).fields }
    ensures { IfOk result (λ table. IsFlat level.now table) }
{
    let table = flat_rows_of(alloc, level.fields.as_slice())?;
    Ok(table)
}
