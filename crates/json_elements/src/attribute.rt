ghost use Rattle.std.specs.Prelude.{◌≡◌};
ghost use Rattle.json_data.specs.Trees.{data_of};
ghost use Rattle.json_elements.specs.Reading.{Gives};
ghost use Rattle.json_elements.specs.Attributes.{needed, with_default, optional};

use crate::element::member_of;
use crate::form::Form;
use crate::refusal::{Cause, ElementErr, inside, refuse};
use json_data::Json;
use std::alloc::Global;

/// Reads an attribute that is required.
pub fn needed<F: Form>(
    alloc: Global,
    element: &Json<'_>,
    key: &'static str,
) -> Result<F::Out, ElementErr>
    ensures { Gives result (needed F.form key.now (data_of element.now)) }
{
    match member_of(element, key) {
        None => inside(key, refuse(alloc, Cause::Missing)),
        Some(found) => inside(key, F::read(alloc, found)),
    }
}

/// Reads an attribute that may be missing.
pub fn optional<F: Form>(
    alloc: Global,
    element: &Json<'_>,
    key: &'static str,
) -> Result<Option<F::Out>, ElementErr>
    ensures { Gives result (optional F.form key.now (data_of element.now)) }
{
    match member_of(element, key) {
        None => Ok(None),
        Some(found) => match inside(key, F::read(alloc, found)) {
            Ok(x) => Ok(Some(x)),
            Err(e) => Err(e),
        },
    }
}

/// Reads an attribute that defaults to `otherwise` if it is missing.
pub fn with_default<F: Form>(
    alloc: Global,
    element: &Json<'_>,
    key: &'static str,
    otherwise: F::Out,
) -> Result<F::Out, ElementErr>
    ensures { Gives result (with_default otherwise F.form key.now (data_of element.now)) }
{
    match member_of(element, key) {
        None => Ok(otherwise),
        Some(found) => inside(key, F::read(alloc, found)),
    }
}
