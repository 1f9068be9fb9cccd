ghost use Rattle.std.specs.Prelude.{◌≡◌, List, flat_map, IfOk};
ghost use Rattle.map_types.specs.declared.tree.RepositoryItem.{RepositoryItem};
ghost use Rattle.map_types.specs.Trees.{datatypes_of, code_sets_of, fields_of, components_of, groups_of, messages_of};
ghost use Rattle.map_members.specs.Lent.{lent_members};

use lists::NoMem;
use map_types::{CodeSetEl, ComponentEl, DatatypeEl, FieldEl, GroupEl, MessageEl, RepositoryItem};
use std::alloc::Global;

/// A member of one of the lists of a repository.
pub trait Member {
    /// The members of this kind that a child of a repository has.
    ghost listed: { RepositoryItem → List Self };

    /// The members of this kind that a child of a repository has.
    fn list_of(item: &RepositoryItem) -> &[Self]
        ensures { result.now ≡ listed item.now };
}

/// All members of one kind, in their order.
pub fn members_in<M: Member>(alloc: Global, items: &[RepositoryItem]) -> Result<Vec<&M>, NoMem>
    ensures { IfOk result (λ all. lent_members all.items ≡ flat_map M.listed items.now) }
{
    let mut all = Vec::new(alloc);
    for item in items {
        for member in M::list_of(item) {
            all.push(member)?;
        }
    }
    Ok(all)
}

impl Member for DatatypeEl {
    ghost listed = { datatypes_of };

    fn list_of(item: &RepositoryItem) -> &[DatatypeEl] {
        match item {
            RepositoryItem::Datatypes(list) => list.children.as_slice(),
            _ => &[],
        }
    }
}

impl Member for CodeSetEl {
    ghost listed = { code_sets_of };

    fn list_of(item: &RepositoryItem) -> &[CodeSetEl] {
        match item {
            RepositoryItem::CodeSets(list) => list.children.as_slice(),
            _ => &[],
        }
    }
}

impl Member for FieldEl {
    ghost listed = { fields_of };

    fn list_of(item: &RepositoryItem) -> &[FieldEl] {
        match item {
            RepositoryItem::Fields(list) => list.children.as_slice(),
            _ => &[],
        }
    }
}

impl Member for ComponentEl {
    ghost listed = { components_of };

    fn list_of(item: &RepositoryItem) -> &[ComponentEl] {
        match item {
            RepositoryItem::Components(list) => list.children.as_slice(),
            _ => &[],
        }
    }
}

impl Member for GroupEl {
    ghost listed = { groups_of };

    fn list_of(item: &RepositoryItem) -> &[GroupEl] {
        match item {
            RepositoryItem::Groups(list) => list.children.as_slice(),
            _ => &[],
        }
    }
}

impl Member for MessageEl {
    ghost listed = { messages_of };

    fn list_of(item: &RepositoryItem) -> &[MessageEl] {
        match item {
            RepositoryItem::Messages(list) => list.children.as_slice(),
            _ => &[],
        }
    }
}
