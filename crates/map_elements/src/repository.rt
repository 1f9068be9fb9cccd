ghost use Rattle.json_data.specs.Trees.{data_of};
ghost use Rattle.json_elements.specs.Reading.{Gives};
ghost use Rattle.json_elements.specs.Elements.{named};
ghost use Rattle.map_elements.specs.Names.{element_of};
ghost use Rattle.map_elements.specs.Repositories.{repository_item, repository_child, repository_from, root, repository_of};

use crate::element_name::ElementName;
use crate::fields::{CodeSetChild, DatatypeChild, FieldChild};
use crate::groups::{ComponentChild, GroupListChild};
use crate::members::read_members;
use crate::messages::MessageChild;
use json_data::{Json, JsonSpace};
use json_elements::{Cause, Child, ElementErr, inside, lone_of, read_value, refuse};
use map_types::{
    CodeSetsEl, ComponentsEl, DatatypesEl, FieldsEl, GroupsEl, MessagesEl, Repository,
    RepositoryItem,
};
use std::alloc::Global;

/// The repository of a file, or the first element or attribute that doesn't have its form.
pub fn read_repository(alloc: Global, bytes: &[u8]) -> Result<Repository, ElementErr>
    ensures { Gives result (repository_of bytes.now) }
{
    let mut space = JsonSpace::new(alloc);
    let value = read_value(alloc, &mut space, bytes)?;
    read_root(alloc, &value)
}

fn read_root(alloc: Global, value: &Json<'_>) -> Result<Repository, ElementErr>
    ensures { Gives result (named (λ name. root (element_of name)) (data_of value.now)) }
{
    match lone_of(value) {
        None => refuse(alloc, Cause::Shape),
        Some((name, element)) => match ElementName::of(name) {
            ElementName::Repository => inside("repository", read_lists(alloc, element)),
            _ => refuse(alloc, Cause::Shape),
        },
    }
}

fn read_lists(alloc: Global, element: &Json<'_>) -> Result<Repository, ElementErr>
    ensures { Gives result (repository_from (data_of element.now)) }
{
    let children = read_members::<RepositoryChild>(alloc, element)?;
    Ok(Repository { children })
}

/// The lists of a repository.
enum RepositoryChild {}

impl Child for RepositoryChild {
    type Out = RepositoryItem;

    ghost child = { repository_child };

    fn read(
        alloc: Global,
        before: &[RepositoryItem],
        name: &str,
        element: &Json<'_>,
    ) -> Result<Option<RepositoryItem>, ElementErr> {
        read_list(alloc, ElementName::of(name), element)
    }
}

fn read_list(
    alloc: Global,
    name: ElementName,
    element: &Json<'_>,
) -> Result<Option<RepositoryItem>, ElementErr>
    ensures { Gives result (repository_item name (data_of element.now)) }
{
    match name {
        ElementName::Datatypes => {
            let children = inside("datatypes", read_members::<DatatypeChild>(alloc, element))?;
            Ok(Some(RepositoryItem::Datatypes(DatatypesEl { children })))
        }
        ElementName::CodeSets => {
            let children = inside("codeSets", read_members::<CodeSetChild>(alloc, element))?;
            Ok(Some(RepositoryItem::CodeSets(CodeSetsEl { children })))
        }
        ElementName::Fields => {
            let children = inside("fields", read_members::<FieldChild>(alloc, element))?;
            Ok(Some(RepositoryItem::Fields(FieldsEl { children })))
        }
        ElementName::Components => {
            let children = inside("components", read_members::<ComponentChild>(alloc, element))?;
            Ok(Some(RepositoryItem::Components(ComponentsEl { children })))
        }
        ElementName::Groups => {
            let children = inside("groups", read_members::<GroupListChild>(alloc, element))?;
            Ok(Some(RepositoryItem::Groups(GroupsEl { children })))
        }
        ElementName::Messages => {
            let children = inside("messages", read_members::<MessageChild>(alloc, element))?;
            Ok(Some(RepositoryItem::Messages(MessagesEl { children })))
        }
        _ => Ok(None),
    }
}
