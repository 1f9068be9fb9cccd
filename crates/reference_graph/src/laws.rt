ghost use Rattle.std.specs.Prelude.{◌≡◌, ◌≤◌, ℕ, suc, List, Some, length, slice_get};
ghost use Rattle.reference_graph.specs.declared.graph.Link.{Link};
ghost use Rattle.reference_graph.specs.declared.graph.Link.TheVariants.{To};
ghost use Rattle.reference_graph.specs.declared.graph.Node.{Node};
ghost use Rattle.reference_graph.specs.Graphs.{folded, Ends, LinkEnds};
ghost use Rattle.reference_graph.specs.Structures.{tags_of, depth_of};
ghost use Rattle.reference_graph.specs.Expansion.{places, structure_of, structure_tags, structure_depth};

/// If the chains from a node end, so do those that begin with a link to it: a chain of as many nodes as there are
/// doesn't need one more.
pub fn a_link_to_what_ends_ends()
    ensures { (graph : List Node) (i : ℕ) (node : Node) → slice_get graph i ≡ Some node → Ends graph node.links → LinkEnds graph (To i) }
{}

/// The tags of a structure are those of its places, in order.
pub fn tags_are_those_of_the_structure()
    ensures { (graph : List Node) (links : List Link) → structure_tags (structure_of graph links) ≡ tags_of graph links }
{}

/// The depth of a structure is that of its places.
pub fn depth_is_that_of_the_structure()
    ensures { (graph : List Node) (links : List Link) → structure_depth (structure_of graph links) ≡ depth_of graph links }
{}

/// If chains of references end, following more names changes nothing.
pub fn more_names_change_nothing()
    ensures { (graph : List Node) (links : List Link) (n : ℕ) → Ends graph links → length graph ≤ n → folded places (suc n) graph links ≡ structure_of graph links }
{}
