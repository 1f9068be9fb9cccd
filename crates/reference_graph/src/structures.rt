ghost use Rattle.std.specs.Prelude.{◌≡◌, ◌+◌, ◌<◌, length, min, slice_get, Some, IfOk};
ghost use Rattle.reference_graph.specs.Graphs.{links_at, is_endless, Ends};
ghost use Rattle.reference_graph.specs.declared.graph.Node.{Node};
ghost use Rattle.reference_graph.specs.declared.extent.TheConstants.{PLACE_LIMIT};
ghost use Rattle.reference_graph.specs.Structures.{is_ambiguous, is_over_limit, node_tags};

use crate::distinct::{Words, find_distinct};
use crate::extent::Extent;
use crate::graph::Node;
use crate::learning::{Extents, find_extents};
use crate::order::references_first;
use crate::walk::has_tag_twice;
use lists::{List, NoMem};
use std::alloc::Global;
use std::marker::Model;

/// Components, groups and messages, with what is known of the structure of each.
#[derive(Drop)]
pub struct Structures {
    nodes: List<Node>,
    extents: Extents,
    /// Which nodes are known to have no tag twice.
    distinct: Words,
}

impl Model for Structures {
    ghost use Rattle.std.specs.Prelude.{List};
    ghost use Rattle.std.specs.Coded.{codes};
    ghost use Rattle.reference_graph.specs.declared.graph.Node.{Node};
    ghost use Rattle.reference_graph.specs.contracts.graph.Node as node;
    ghost use Rattle.reference_graph.specs.Learning.{HasExtents};
    ghost use Rattle.reference_graph.specs.Marking.{AreDistinct};

    ghost Value = { List Node };

    ghost coded = { Prim.hlevel (codes, node.the_row.coded) };

    ghost view = { λ structures. structures.nodes };

    ghost invariant = { λ structures. HasExtents structures.nodes structures.extents.items × AreDistinct structures.nodes structures.distinct.items };
}

impl Structures {
    /// Builds the structures of these nodes.
    pub fn new(alloc: Global, nodes: List<Node>) -> Result<Structures, NoMem>
        ensures { IfOk result (λ structures. structures ≡ nodes) }
    {
        let order = references_first(alloc, nodes.as_slice())?;
        let extents = find_extents(alloc, nodes.as_slice(), order.as_slice())?;
        let distinct = find_distinct(alloc, nodes.as_slice(), order.as_slice())?;
        Ok(Structures {
            nodes,
            extents,
            distinct,
        })
    }

    /// How many nodes there are.
    pub fn len(&self) -> usize
        ensures { result ≡ length self.now }
    {
        self.nodes.len()
    }

    /// The nodes in their order.
    pub fn nodes(&self) -> &[Node]
        ensures { result.now ≡ self.now }
    {
        self.nodes.as_slice()
    }

    /// How many places the structure of a node has, including a group's count; one more than the limit if there are
    /// more.
    pub fn places(&self, i: usize) -> u32
        requires { i < length self.now }
        ensures { (node : Node) → slice_get self.now i ≡ Some node → Ends self.now node.links
            → result ≡ min (length (node_tags self.now node)) (PLACE_LIMIT + 1) }
    {
        match self.extents[i] {
            None => 0,
            Some(extent) => extent.places,
        }
    }

    /// Whether some chain of references from the node at an index reaches a node twice.
    pub fn is_endless(&self, i: usize) -> bool
        requires { i < length self.now }
        ensures { (node : Node) → slice_get self.now i ≡ Some node → result ≡ is_endless self.now node.links }
    {
        self.extents[i].is_none()
    }

    /// Whether its structure exceeds a limit.
    pub fn is_over_limit(&self, i: usize) -> bool
        requires { i < length self.now }
        ensures { (node : Node) → slice_get self.now i ≡ Some node → Ends self.now node.links → result ≡ is_over_limit self.now node }
    {
        match self.extents[i] {
            None => false,
            Some(extent) => extent.is_over(),
        }
    }

    /// Whether a tag occurs twice in its structure, including counts.
    pub fn is_ambiguous(&self, alloc: Global, i: usize) -> Result<bool, NoMem>
        requires within { i < length self.now }
        requires ends { Ends self.now (links_at self.now i) }
        ensures { IfOk result (λ twice. (node : Node) → slice_get self.now i ≡ Some node → twice ≡ is_ambiguous self.now node.links) }
    {
        if self.distinct[i].is_some() {
            return Ok(false);
        }
        let node = self.nodes.at(i);
        has_tag_twice(
            alloc,
            self.nodes.as_slice(),
            self.extents.as_slice(),
            node.links.as_slice(),
        )
    }
}
