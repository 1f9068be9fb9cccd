ghost use Rattle.std.specs.Prelude.{◌≡◌, ℕ, List, [], Option};
ghost use Rattle.serde_json.specs.Data.{Data};
ghost use Rattle.json_data.specs.Trees.{data_of, items_of};
ghost use Rattle.json_elements.specs.Reading.{Reading, Gives, at_child};
ghost use Rattle.json_elements.specs.Elements.{named};
ghost use Rattle.json_elements.specs.KnownChildren.{known_children, no_child};

use crate::element::lone_of;
use crate::refusal::{Cause, ElementErr, at_child, refuse};
use json_data::Json;
use lists::List;
use std::alloc::Global;

/// The children that an element may have.
pub trait Child {
    type Out: Drop;

    /// The result of reading a child, given the children before it, its name and its value; nothing if the name is
    /// unknown.
    ghost child: { List Self.Out → List ℕ → Data → Reading (Option Self.Out) };

    /// Reads a child, if its name is known.
    fn read(
        alloc: Global,
        before: &[Self::Out],
        name: &str,
        element: &Json<'_>,
    ) -> Result<Option<Self::Out>, ElementErr>
        ensures { Gives result (child before.now name.now (data_of element.now)) };
}

/// No children: every name is skipped.
pub enum NoChild {}

impl Child for NoChild {
    type Out = ();

    ghost child = { no_child };

    fn read(
        alloc: Global,
        before: &[()],
        name: &str,
        element: &Json<'_>,
    ) -> Result<Option<()>, ElementErr> {
        Ok(None)
    }
}

/// Reads the children with known names, in their order.
pub fn read_children<C: Child>(
    alloc: Global,
    items: &[Json<'_>],
) -> Result<List<C::Out>, ElementErr>
    ensures { Gives result (known_children C.child [] 0 (items_of items.now)) }
{
    let mut children: List<C::Out> = List::new(alloc);
    for (i, item) in items.iter().enumerate() {
        if let Some(child) = child_at::<C>(alloc, children.as_slice(), i, item)? {
            children.push(child)?;
        }
    }
    Ok(children)
}

/// Reads the child at a position, if its name is known.
fn child_at<C: Child>(
    alloc: Global,
    before: &[C::Out],
    i: usize,
    item: &Json<'_>,
) -> Result<Option<C::Out>, ElementErr>
    ensures { Gives result (at_child i (named (C.child before.now) (data_of item.now))) }
{
    at_child(i, child_of::<C>(alloc, before, item))
}

fn child_of<C: Child>(
    alloc: Global,
    before: &[C::Out],
    item: &Json<'_>,
) -> Result<Option<C::Out>, ElementErr>
    ensures { Gives result (named (C.child before.now) (data_of item.now)) }
{
    match lone_of(item) {
        None => refuse(alloc, Cause::Shape),
        Some((name, element)) => C::read(alloc, before, name, element),
    }
}
