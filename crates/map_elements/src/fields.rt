ghost use Rattle.json_data.specs.Trees.{data_of};
ghost use Rattle.json_elements.specs.Reading.{Gives};
ghost use Rattle.map_elements.specs.Fields.{datatype_from, datatype_child, code_from, code_child, code_set_from, code_set_child, field_from, field_child};

use crate::element_name::ElementName;
use crate::form::{CodeValue, MapId};
use json_data::Json;
use json_elements::{
    Child, ElementErr, JsonText, NoChild, content_of, inside, needed, optional, read_children,
};
use map_types::{CodeEl, CodeSetEl, DatatypeEl, FieldEl};
use std::alloc::Global;

/// Datatypes.
pub enum DatatypeChild {}

impl Child for DatatypeChild {
    type Out = DatatypeEl;

    ghost child = { datatype_child };

    fn read(
        alloc: Global,
        before: &[DatatypeEl],
        name: &str,
        element: &Json<'_>,
    ) -> Result<Option<DatatypeEl>, ElementErr> {
        match ElementName::of(name) {
            ElementName::Datatype => Ok(Some(inside("datatype", read_datatype(alloc, element))?)),
            _ => Ok(None),
        }
    }
}

fn read_datatype(alloc: Global, element: &Json<'_>) -> Result<DatatypeEl, ElementErr>
    ensures { Gives result (datatype_from (data_of element.now)) }
{
    let children = content_of(alloc, element)?;
    let name = needed::<JsonText>(alloc, element, "name")?;
    read_children::<NoChild>(alloc, children)?;
    Ok(DatatypeEl { name })
}

/// Code sets.
pub enum CodeSetChild {}

impl Child for CodeSetChild {
    type Out = CodeSetEl;

    ghost child = { code_set_child };

    fn read(
        alloc: Global,
        before: &[CodeSetEl],
        name: &str,
        element: &Json<'_>,
    ) -> Result<Option<CodeSetEl>, ElementErr> {
        match ElementName::of(name) {
            ElementName::CodeSet => Ok(Some(inside("codeSet", read_code_set(alloc, element))?)),
            _ => Ok(None),
        }
    }
}

fn read_code_set(alloc: Global, element: &Json<'_>) -> Result<CodeSetEl, ElementErr>
    ensures { Gives result (code_set_from (data_of element.now)) }
{
    let children = content_of(alloc, element)?;
    let name = needed::<JsonText>(alloc, element, "name")?;
    let type_name = needed::<JsonText>(alloc, element, "type")?;
    let children = read_children::<CodeChild>(alloc, children)?;
    Ok(CodeSetEl {
        name,
        type_name,
        children,
    })
}

/// The codes of a code set.
enum CodeChild {}

impl Child for CodeChild {
    type Out = CodeEl;

    ghost child = { code_child };

    fn read(
        alloc: Global,
        before: &[CodeEl],
        name: &str,
        element: &Json<'_>,
    ) -> Result<Option<CodeEl>, ElementErr> {
        match ElementName::of(name) {
            ElementName::Code => Ok(Some(inside("code", read_code(alloc, element))?)),
            _ => Ok(None),
        }
    }
}

fn read_code(alloc: Global, element: &Json<'_>) -> Result<CodeEl, ElementErr>
    ensures { Gives result (code_from (data_of element.now)) }
{
    let children = content_of(alloc, element)?;
    let name = needed::<JsonText>(alloc, element, "name")?;
    let value = needed::<CodeValue>(alloc, element, "value")?;
    read_children::<NoChild>(alloc, children)?;
    Ok(CodeEl { name, value })
}

/// Fields.
pub enum FieldChild {}

impl Child for FieldChild {
    type Out = FieldEl;

    ghost child = { field_child };

    fn read(
        alloc: Global,
        before: &[FieldEl],
        name: &str,
        element: &Json<'_>,
    ) -> Result<Option<FieldEl>, ElementErr> {
        match ElementName::of(name) {
            ElementName::Field => Ok(Some(inside("field", read_field(alloc, element))?)),
            _ => Ok(None),
        }
    }
}

fn read_field(alloc: Global, element: &Json<'_>) -> Result<FieldEl, ElementErr>
    ensures { Gives result (field_from (data_of element.now)) }
{
    let children = content_of(alloc, element)?;
    let id = needed::<MapId>(alloc, element, "id")?;
    let name = needed::<JsonText>(alloc, element, "name")?;
    let type_name = needed::<JsonText>(alloc, element, "type")?;
    let length_id = optional::<MapId>(alloc, element, "lengthId")?;
    read_children::<NoChild>(alloc, children)?;
    Ok(FieldEl {
        id,
        name,
        type_name,
        length_id,
    })
}
