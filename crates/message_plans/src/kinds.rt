ghost use Rattle.std.specs.Prelude.{◌≡◌, map, IfOk};
ghost use Rattle.std.specs.List.{list_any};
ghost use Rattle.sbe_types.specs.declared.schema.Level.{out-Level};
ghost use Rattle.message_plans.specs.Plans.{has_kind};

use lists::{List, NoMem, Text};
use sbe_types::Level;
use std::alloc::Global;

/// The MsgTypes of templates.
pub(crate) fn kinds_of(alloc: Global, levels: &[Level]) -> Result<List<Text>, NoMem>
    ensures { IfOk result (λ kinds. kinds ≡ map (λ l. (out-Level l).semantic) levels.now) }
{
    let mut kinds = List::new(alloc);
    for level in levels {
        kinds.push(List::from_slice(alloc, level.semantic.as_slice())?)?;
    }
    Ok(kinds)
}

/// Whether a template has a MsgType.
pub(crate) fn is_among(kind: &[u8], levels: &[Level]) -> bool
    ensures { result ≡ list_any (has_kind kind.now) levels.now }
{
    levels.iter().any(|level| level.semantic.as_slice() == kind)
}
