// Turns a schema file into a layout.
ghost use Rattle.std.specs.Prelude.{IfOk, IfErr};
ghost use Rattle.library_examples.specs.Schemas.{IsLoaded, IsNotLoaded};

use layout_compile::compile;
use layout_tables::Layout;
use lists::NoMem;
use sbe_schema::{SchemaErr, read_schema};
use schema_check::{CheckErr, check};
use std::alloc::Global;

/// Why there is no layout.
#[derive(Drop)]
pub enum LoadErr {
    /// The file doesn't hold the elements of a schema.
    File(SchemaErr),
    /// The schema breaks a rule.
    Rule(CheckErr),
    /// Out of memory.
    Memory,
}

/// The layout of a schema file: its elements are read, its rules are checked, and each part gets its offset. All memory
/// that a schema needs is allocated here.
///
/// # Errors
///
/// `File` and `Rule` carry the first fault, with its place.
pub fn load(alloc: Global, file: &[u8]) -> Result<Layout, LoadErr>
    ensures loaded { IfOk result (λ layout. IsLoaded file.now layout) }
    ensures refused { IfErr result (IsNotLoaded file.now) }
{
    let schema = match read_schema(alloc, file) {
        Ok(schema) => schema,
        Err(e) => return Err(LoadErr::File(e)),
    };
    let checked = match check(alloc, schema) {
        Ok(checked) => checked,
        Err(e) => return Err(LoadErr::Rule(e)),
    };
    match compile(alloc, &checked) {
        Ok(layout) => Ok(layout),
        Err(NoMem) => Err(LoadErr::Memory),
    }
}
