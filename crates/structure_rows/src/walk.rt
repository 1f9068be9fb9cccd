ghost use Rattle.std.specs.Prelude.{◌≡◌, ◌<◌, ◌≤◌, ◌++◌, [], false, length, slice_get, Some, option_map, ◌-◌, IfOk, OnOk};
ghost use Rattle.reference_graph.specs.declared.extent.TheConstants.{PLACE_LIMIT};
ghost use Rattle.reference_graph.specs.declared.graph.Link.TheVariants.{To};
ghost use Rattle.reference_graph.specs.declared.graph.Node.{Node};
ghost use Rattle.reference_graph.specs.Graphs.{links_at, Ends, LinkEnds};
ghost use Rattle.reference_graph.specs.Structures.{is_over_limit};
ghost use Rattle.reference_graph.specs.Expansion.{structure_of};
ghost use Rattle.structure_rows.specs.Rows.{group_row, rows_of};
ghost use Rattle.structure_rows.specs.Walking.{link_rows, with_row, OpensRow};

use crate::row::PlaceRow;
use lists::{List, NoMem};
use reference_graph::{Link, Node, Structures};
use std::alloc::Global;

/// The rows of the structure of a message, whose references end and which is within the limits. Nodes without places
/// are skipped, so each of the others is entered as often as its tags are found.
///
/// # Errors
///
/// If memory runs out.
pub fn structure_rows(
    alloc: Global,
    structures: &Structures,
    i: usize,
) -> Result<List<PlaceRow>, NoMem>
    requires within { i < length structures.now }
    requires ends { Ends structures.now (links_at structures.now i) }
    requires short { (node : Node) → slice_get structures.now i ≡ Some node → is_over_limit structures.now node ≡ false }
    ensures { IfOk result (λ rows. rows ≡ rows_of (structure_of structures.now (links_at structures.now i))) }
{
    let node = &structures.nodes()[i];
    let mut rows = List::new(alloc);
    let mut left: Vec<&[Link]> = Vec::new(alloc);
    left.push(node.links.as_slice())?;
    'places: while let Some(links) = left.pop() {
        if let [link, rest @ ..] = links {
            let (row, inner) = opened(structures, *link);
            push_row(&mut rows, row)?;
            left.push(rest)?;
            left.push(inner)?;
        }
    }
    Ok(rows)
}

fn push_row(rows: &mut List<PlaceRow>, row: Option<PlaceRow>) -> Result<(), NoMem>
    ensures { OnOk result (rows.new ≡ rows.old ++ with_row row []) }
{
    match row {
        None => Ok(()),
        Some(row) => rows.push(row),
    }
}

/// What a link leads to: the row of its place, if it has one, and the links after it.
fn opened(structures: &Structures, link: Link) -> (Option<PlaceRow>, &[Link])
    requires ends { LinkEnds structures.now link }
    requires short { length (link_rows structures.now link) ≤ PLACE_LIMIT }
    ensures { OpensRow structures.now link result.0 result.1.now }
{
    match link {
        Link::Field(tag) => (Some(PlaceRow { tag, entries: None }), &[]),
        Link::To(i) => match structures.nodes().get(i) {
            None => (None, &[]),
            Some(node) => entered(structures, i, node),
        },
    }
}

/// The same for a node.
fn entered<'a>(structures: &Structures, i: usize, node: &'a Node) -> (Option<PlaceRow>, &'a [Link])
    requires here { slice_get structures.now i ≡ Some node.now }
    requires ends { LinkEnds structures.now (To i) }
    requires short { length (link_rows structures.now (To i)) ≤ PLACE_LIMIT }
    ensures { OpensRow structures.now (To i) result.0 result.1.now }
{
    let places = structures.places(i);
    if places == 0 {
        return (None, &[]);
    }
    (group_row(node.count, places), node.links.as_slice())
}

/// The row of a node, if it is a group and has this number of places.
fn group_row(count: Option<u32>, places: u32) -> Option<PlaceRow>
    requires some { 0 < places }
    ensures { result ≡ option_map (λ tag. group_row tag (places - 1)) count }
{
    match count {
        None => None,
        Some(tag) => Some(PlaceRow {
            tag,
            entries: Some(places - 1),
        }),
    }
}
