ghost use Rattle.json_data.specs.Trees.{data_of};
ghost use Rattle.json_elements.specs.Reading.{Gives};
ghost use Rattle.map_elements.specs.Messages.{structure_child, message_from, message_child};

use crate::element_name::ElementName;
use crate::form::MsgType;
use crate::members::read_members;
use crate::references::RefChild;
use json_data::Json;
use json_elements::{
    Cause, Child, ElementErr, JsonText, content_of, inside, needed, read_children, refuse,
};
use map_types::{MessageEl, StructureEl};
use std::alloc::Global;

/// Messages.
pub enum MessageChild {}

impl Child for MessageChild {
    type Out = MessageEl;

    ghost child = { message_child };

    fn read(
        alloc: Global,
        before: &[MessageEl],
        name: &str,
        element: &Json<'_>,
    ) -> Result<Option<MessageEl>, ElementErr> {
        match ElementName::of(name) {
            ElementName::Message => Ok(Some(inside("message", read_message(alloc, element))?)),
            _ => Ok(None),
        }
    }
}

fn read_message(alloc: Global, element: &Json<'_>) -> Result<MessageEl, ElementErr>
    ensures { Gives result (message_from (data_of element.now)) }
{
    let children = content_of(alloc, element)?;
    let name = needed::<JsonText>(alloc, element, "name")?;
    let msg_type = needed::<MsgType>(alloc, element, "msgType")?;
    let children = read_children::<StructureChild>(alloc, children)?;
    Ok(MessageEl {
        name,
        msg_type,
        children,
    })
}

/// One structure, or none.
enum StructureChild {}

impl Child for StructureChild {
    type Out = StructureEl;

    ghost child = { structure_child };

    fn read(
        alloc: Global,
        before: &[StructureEl],
        name: &str,
        element: &Json<'_>,
    ) -> Result<Option<StructureEl>, ElementErr> {
        match ElementName::of(name) {
            ElementName::Structure => {
                if !before.is_empty() {
                    return refuse(alloc, Cause::Shape);
                }
                let children = inside("structure", read_members::<RefChild>(alloc, element))?;
                Ok(Some(StructureEl { children }))
            }
            _ => Ok(None),
        }
    }
}
