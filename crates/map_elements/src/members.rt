ghost use Rattle.json_data.specs.Trees.{data_of};
ghost use Rattle.json_elements.specs.Reading.{Gives};
ghost use Rattle.map_elements.specs.References.{members};

use json_data::Json;
use json_elements::{Child, ElementErr, content_of, read_children};
use lists::List;
use std::alloc::Global;

/// The known children of an element without attributes.
pub fn read_members<C: Child>(alloc: Global, element: &Json<'_>) -> Result<List<C::Out>, ElementErr>
    ensures { Gives result (members C.child (data_of element.now)) }
{
    let children = content_of(alloc, element)?;
    read_children::<C>(alloc, children)
}
