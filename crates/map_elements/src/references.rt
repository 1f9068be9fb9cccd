ghost use Rattle.json_data.specs.Trees.{data_of};
ghost use Rattle.json_elements.specs.Reading.{Gives};
ghost use Rattle.map_elements.specs.References.{id_from, reference, ref_child};

use crate::element_name::ElementName;
use crate::form::MapId;
use json_data::Json;
use json_elements::{Child, ElementErr, NoChild, content_of, inside, needed, read_children};
use map_types::{ComponentRefEl, FieldRefEl, GroupRefEl, RefItem};
use std::alloc::Global;

/// The id of a reference or of a count.
pub fn read_id(alloc: Global, element: &Json<'_>) -> Result<u32, ElementErr>
    ensures { Gives result (id_from (data_of element.now)) }
{
    let children = content_of(alloc, element)?;
    let id = needed::<MapId>(alloc, element, "id")?;
    read_children::<NoChild>(alloc, children)?;
    Ok(id)
}

/// References to fields, groups and components.
pub enum RefChild {}

impl Child for RefChild {
    type Out = RefItem;

    ghost child = { ref_child };

    fn read(
        alloc: Global,
        before: &[RefItem],
        name: &str,
        element: &Json<'_>,
    ) -> Result<Option<RefItem>, ElementErr> {
        read_reference(alloc, ElementName::of(name), element)
    }
}

fn read_reference(
    alloc: Global,
    name: ElementName,
    element: &Json<'_>,
) -> Result<Option<RefItem>, ElementErr>
    ensures { Gives result (reference name (data_of element.now)) }
{
    match name {
        ElementName::FieldRef => {
            let id = inside("fieldRef", read_id(alloc, element))?;
            Ok(Some(RefItem::FieldRef(FieldRefEl { id })))
        }
        ElementName::GroupRef => {
            let id = inside("groupRef", read_id(alloc, element))?;
            Ok(Some(RefItem::GroupRef(GroupRefEl { id })))
        }
        ElementName::ComponentRef => {
            let id = inside("componentRef", read_id(alloc, element))?;
            Ok(Some(RefItem::ComponentRef(ComponentRefEl { id })))
        }
        _ => Ok(None),
    }
}
