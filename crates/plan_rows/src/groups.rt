// What the rows of a group need.
ghost use Rattle.std.specs.Prelude.{◌≡◌, ◌∷◌, ℕ, is_some, codes, IfOk, IfSome};
ghost use Rattle.sbe_wire.specs.Named.{spot_named};
ghost use Rattle.reference_graph.specs.Expansion.{Structure};
ghost use Rattle.structure_rows.specs.Rows.{rows_of};
ghost use Rattle.bridge_terms.specs.Parts.{TagLists};
ghost use Rattle.bridge_plan.specs.Mappings.{delimiter_of};
ghost use Rattle.bridge_mapping.specs.Tables.{HaveSameTags};
ghost use Rattle.plan_rows.specs.Found.{is_leaf, AreGroupRows};

use crate::row::RuleRow;
use bridge_mapping::TagTable;
use lists::NoMem;
use message_walk::{Lead, Part, PlanRow};
use sbe_types::{Kind, Member};
use std::alloc::Global;
use structure_rows::PlaceRow;

/// Whether the first place is that of a field.
pub(crate) fn begins_with_field(places: &[PlaceRow]) -> bool
    ensures { (s : Structure) → places.now ≡ rows_of s → result ≡ is_some (delimiter_of s) }
{
    match places {
        [first, ..] => first.entries.is_none(),
        [] => false,
    }
}

/// Whether a dimension has a number of entries.
pub(crate) fn has_count(dim: &[Member]) -> bool
    ensures { (e : ℕ) → result ≡ is_some (spot_named e (codes "numInGroup") dim.now) }
{
    for member in dim {
        if member.name.as_slice() == "numInGroup".as_bytes() {
            return is_leaf(&member.kind);
        }
    }
    false
}

fn is_leaf(kind: &Kind) -> bool
    ensures { result ≡ is_leaf kind.now }
{
    match kind {
        Kind::Leaf(_) => true,
        Kind::Enum(_, _) | Kind::Set(_, _) | Kind::Const(_) | Kind::Comp(_) => false,
    }
}

/// The row of group `number`, followed by those of its entries. The tag of its count isn't that of data with a length
/// field.
pub(crate) fn with_group<R: RuleRow>(
    alloc: Global,
    tags: &TagTable,
    tag: u32,
    number: usize,
    entries: Vec<PlanRow<R>>,
) -> Result<Option<Vec<PlanRow<R>>>, NoMem>
    ensures { IfOk result (λ made. IfSome made (λ rows. (lists : TagLists) → HaveSameTags tags.now lists
        → AreGroupRows lists tag number entries.items rows.items)) }
{
    if tags.length_of(tag).is_some() {
        return Ok(None);
    }
    let Some(lead) = Lead::new(tag) else {
        return Ok(None);
    };
    let row = PlanRow {
        lead,
        number,
        part: Part::Group(entries.len()),
    };
    Ok(Some(in_front(alloc, row, entries)?))
}

/// A row, followed by others.
fn in_front<R: RuleRow>(
    alloc: Global,
    row: PlanRow<R>,
    entries: Vec<PlanRow<R>>,
) -> Result<Vec<PlanRow<R>>, NoMem>
    ensures { IfOk result (λ rows. rows.items ≡ row ∷ entries.items) }
{
    let mut others = entries;
    let mut rows = Vec::new(alloc);
    rows.push(row)?;
    rows.append(&mut others)?;
    Ok(rows)
}
