// What a group's row needs.
ghost use Rattle.std.specs.Prelude.{◌≡◌, ℕ, map, codes, IfOk};
ghost use Rattle.std.specs.Option.{option_map};
ghost use Rattle.sbe_wire.specs.Named.{spot_named};
ghost use Rattle.reference_graph.specs.Expansion.{Structure};
ghost use Rattle.structure_rows.specs.Rows.{rows_of};
ghost use Rattle.bridge_plan.specs.Mappings.{delimiter_of};
ghost use Rattle.back_levels.specs.Found.{leaf_in, plain_tag};

use id_tables::IdTable;
use lists::{List, NoMem};
use sbe_types::{Kind, Leaf, Member};
use std::alloc::Global;
use structure_rows::PlaceRow;

/// The tag of the first place, if that is a field's.
pub(crate) fn delimiter_of(places: &[PlaceRow]) -> Option<u32>
    ensures { (s : Structure) → places.now ≡ rows_of s → result ≡ delimiter_of s }
{
    match places {
        [first, ..] => plain_tag(*first),
        [] => None,
    }
}

/// The tag of a field's place.
fn plain_tag(place: PlaceRow) -> Option<u32>
    ensures { result ≡ plain_tag place }
{
    match place.entries {
        None => Some(place.tag),
        Some(_) => None,
    }
}

/// The type of a dimension's number of entries.
pub(crate) fn count_of(dim: &[Member]) -> Option<Leaf>
    ensures { (e : ℕ) → result ≡ option_map (λ spot. spot.leaf) (spot_named e (codes "numInGroup") dim.now) }
{
    for member in dim {
        if member.name.as_slice() == "numInGroup".as_bytes() {
            return leaf_of(&member.kind);
        }
    }
    None
}

fn leaf_of(kind: &Kind) -> Option<Leaf>
    ensures { result ≡ leaf_in kind.now }
{
    match kind {
        Kind::Leaf(leaf) => Some(*leaf),
        Kind::Enum(_, _) | Kind::Set(_, _) | Kind::Const(_) | Kind::Comp(_) => None,
    }
}

/// The tags of places.
pub(crate) fn tags_of(alloc: Global, places: &[PlaceRow]) -> Result<IdTable, NoMem>
    ensures { IfOk result (λ tags. tags ≡ map (λ place. place.tag) places.now) }
{
    let mut tags = List::new(alloc);
    for place in places {
        tags.push(place.tag)?;
    }
    IdTable::new(alloc, tags)
}
