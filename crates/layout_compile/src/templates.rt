// Messages by id.
ghost use Rattle.std.specs.Prelude.{◌≡◌, ℕ, ◌==◌, if◌then◌else◌, Some, None, IfOk, OnOk};
ghost use Rattle.std.specs.BTreeMap.{get};
ghost use Rattle.std.specs.Option.{option_or};
ghost use Rattle.std.specs.Ordering.{nat_cmp};
ghost use Rattle.layout_tables.specs.Tables.{AreIds};

use sbe_types::{Level, NoMem};
use std::alloc::Global;
use std::collections::BTreeMap;

/// The number of the first message with each id.
pub(crate) fn ids_of(alloc: Global, messages: &[Level]) -> Result<BTreeMap<u32, usize>, NoMem>
    ensures { IfOk result (λ ids. AreIds messages.now (get nat_cmp ids)) }
{
    let mut ids = BTreeMap::new(alloc);
    for (i, level) in messages.iter().enumerate() {
        add_id(&mut ids, level.id, i)?;
    }
    Ok(ids)
}

/// Adds the number of a message, unless an earlier one has its id.
fn add_id(ids: &mut BTreeMap<u32, usize>, id: u32, i: usize) -> Result<(), NoMem>
    ensures { OnOk result ((q : ℕ) → get nat_cmp ids.new q ≡ option_or (get nat_cmp ids.old q) (if id == q then Some i else None)) }
{
    if !ids.contains_key(&id) {
        ids.insert(id, i)?;
    }
    Ok(())
}
