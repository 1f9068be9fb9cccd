use crate::graph::{Link, Node, count_links};
use lists::NoMem;
use std::alloc::Global;

/// A step of the walk over all nodes.
#[derive(Clone, Copy, Debug, PartialEq, Eq)]
enum Visit {
    /// A node is visited.
    Enter(usize),
    /// All nodes that it refers to were visited.
    Leave(usize),
}

/// The nodes in an order in which each comes after those that it refers to, if references end. In this order one round
/// of learning is enough. No contract covers the order: it affects the time, and not what is derived.
pub fn references_first(alloc: Global, nodes: &[Node]) -> Result<Vec<usize>, NoMem> {
    let mut order = Vec::new(alloc);
    let mut entered = vec![in alloc; false; nodes.len()]?;
    let mut left = first_visits(alloc, nodes)?;
    for _ in 0..most_visits(nodes) {
        match left.pop() {
            None => return Ok(order),
            Some(Visit::Leave(i)) => order.push(i)?,
            Some(Visit::Enter(i)) => enter(nodes, i, &mut entered, &mut left)?,
        }
    }
    Ok(order)
}

/// Every node still has to be visited.
fn first_visits(alloc: Global, nodes: &[Node]) -> Result<Vec<Visit>, NoMem> {
    let mut visits = Vec::new(alloc);
    for i in 0..nodes.len() {
        visits.push(Visit::Enter(i))?;
    }
    Ok(visits)
}

/// An upper bound of the visits: one for each node and one for each link to it, and one to leave each.
fn most_visits(nodes: &[Node]) -> usize {
    count_links(nodes).saturating_add(nodes.len().saturating_mul(2))
}

/// Visits a node, unless it was visited before: what it refers to comes next, and then it is left.
fn enter(
    nodes: &[Node],
    i: usize,
    entered: &mut Vec<bool>,
    left: &mut Vec<Visit>,
) -> Result<(), NoMem> {
    if i >= nodes.len() || i >= entered.len() || entered[i] {
        return Ok(());
    }
    entered[i] = true;
    left.push(Visit::Leave(i))?;
    for link in nodes[i].links.as_slice() {
        if let Link::To(j) = *link {
            left.push(Visit::Enter(j))?;
        }
    }
    Ok(())
}
