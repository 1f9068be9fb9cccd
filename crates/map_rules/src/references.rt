ghost use Rattle.std.specs.Prelude.{◌≡◌, map, ◌-◌, ◌≤◌, ◌+◌, ◌^◌, ◌<◌, codes, length, slice_get, Some, IfOk};
ghost use Rattle.std.specs.List.{list_any};
ghost use Rattle.reference_graph.specs.Graphs.{Ends};
ghost use Rattle.map_types.specs.declared.tree.MessageEl.{MessageEl};
ghost use Rattle.map_members.specs.Lent.{lent_members};
ghost use Rattle.map_links.specs.Links.{is_unknown, structure_of, component_node, group_node, message_node, nodes_of, linked};
ghost use Rattle.map_rules.specs.Verdicts.{first_broken, list_verdict, Answers};
ghost use Rattle.map_rules.specs.Standing.{StandAt};
ghost use Rattle.map_rules.specs.Rules.{is_unknown_child, linked_rules, component_rules, group_rules, message_rules, graph_verdict, linked_verdict};

use crate::rule::{Rule, first_broken, refuse_at};
use lists::NoMem;
use map_links::{Ids, nodes_of, structure_of};
use map_types::{ComponentEl, GroupEl, GroupItem, MCode, MapErr, MessageEl, RefItem};
use reference_graph::Structures;
use std::alloc::Global;

/// Checks components, groups and messages, in this order.
pub fn judge_linked(
    alloc: Global,
    ids: &Ids,
    components: &[&ComponentEl],
    groups: &[&GroupEl],
    messages: &[&MessageEl],
) -> Result<(), MapErr>
    requires fits { length components.now + length groups.now < 2 ^ 64 }
    requires components { ids.now.components ≡ map (λ c. c.now.id) components.now }
    requires groups { ids.now.groups ≡ map (λ g. g.now.id) groups.now }
    requires messages { ids.now.msg_types ≡ map (λ m. m.now.msg_type) messages.now }
    ensures { Answers result (linked_verdict ids.now (linked components.now groups.now messages.now)) }
{
    let nodes = nodes_of(alloc, ids, components, groups, messages)?;
    let structures = Structures::new(alloc, nodes)?;
    judge_by(alloc, ids, &structures, components, groups, messages)
}

/// The same, when the structures are known.
fn judge_by(
    alloc: Global,
    ids: &Ids,
    structures: &Structures,
    components: &[&ComponentEl],
    groups: &[&GroupEl],
    messages: &[&MessageEl],
) -> Result<(), MapErr>
    requires fits { length components.now + length groups.now < 2 ^ 64 }
    requires components { ids.now.components ≡ map (λ c. c.now.id) components.now }
    requires groups { ids.now.groups ≡ map (λ g. g.now.id) groups.now }
    requires messages { ids.now.msg_types ≡ map (λ m. m.now.msg_type) messages.now }
    requires nodes { structures.now ≡ nodes_of (length components.now) ids.now (linked components.now groups.now messages.now) }
    ensures { Answers result (graph_verdict (length components.now) ids.now structures.now (linked components.now groups.now messages.now)) }
{
    let count = components.len();
    judge_components(alloc, ids, structures, count, components)?;
    judge_groups(alloc, ids, structures, count, groups)?;
    judge_messages(alloc, ids, structures, count, messages)
}

/// Checks the components one after another. `count` is their number.
fn judge_components(
    alloc: Global,
    ids: &Ids,
    structures: &Structures,
    count: usize,
    components: &[&ComponentEl],
) -> Result<(), MapErr>
    requires ids { ids.now.components ≡ map (λ c. c.now.id) components.now }
    requires nodes { StandAt (λ i. i) structures.now (component_node count ids.now) components.now }
    ensures { Answers result (list_verdict (codes "components") (component_rules count ids.now structures.now) 0 (lent_members components.now)) }
{
    for (i, component) in components.iter().enumerate() {
        refuse_at(
            alloc,
            "components",
            i,
            component_broken(ids, structures, count, i, component),
        )?;
    }
    Ok(())
}

/// The first rule that the component at an index breaks.
fn component_broken(
    ids: &Ids,
    structures: &Structures,
    count: usize,
    i: usize,
    component: &ComponentEl,
) -> Option<MCode>
    requires id { slice_get ids.now.components i ≡ Some component.now.id }
    requires node { slice_get structures.now i ≡ Some (component_node count ids.now component.now) }
    ensures { result ≡ first_broken (component_rules count ids.now structures.now i component.now) }
{
    let again = ids.components.is_again(i);
    let unknown = is_any_unknown(ids, component.children.as_slice());
    let endless = structures.is_endless(i);
    first_linked(again, unknown, endless)
}

/// The first rule that a component or a group breaks.
fn first_linked(again: bool, unknown: bool, endless: bool) -> Option<MCode>
    ensures { result ≡ first_broken (linked_rules again unknown endless) }
{
    first_broken(&[
        Rule {
            code: MCode::Duplicate,
            broken: again,
        },
        Rule {
            code: MCode::UnknownReference,
            broken: unknown,
        },
        Rule {
            code: MCode::Cycle,
            broken: endless,
        },
    ])
}

/// Checks the groups one after another. `count` components precede them.
fn judge_groups(
    alloc: Global,
    ids: &Ids,
    structures: &Structures,
    count: usize,
    groups: &[&GroupEl],
) -> Result<(), MapErr>
    requires fits { count + length groups.now < 2 ^ 64 }
    requires ids { ids.now.groups ≡ map (λ g. g.now.id) groups.now }
    requires nodes { StandAt (λ i. count + i) structures.now (group_node count ids.now) groups.now }
    ensures { Answers result (list_verdict (codes "groups") (group_rules count ids.now structures.now) 0 (lent_members groups.now)) }
{
    for (i, group) in groups.iter().enumerate() {
        refuse_at(
            alloc,
            "groups",
            i,
            group_broken(ids, structures, count, i, group),
        )?;
    }
    Ok(())
}

/// The first rule that the group at an index breaks.
fn group_broken(
    ids: &Ids,
    structures: &Structures,
    count: usize,
    i: usize,
    group: &GroupEl,
) -> Option<MCode>
    requires fits { count + i < 2 ^ 64 }
    requires id { slice_get ids.now.groups i ≡ Some group.now.id }
    requires node { slice_get structures.now (count + i) ≡ Some (group_node count ids.now group.now) }
    ensures { result ≡ first_broken (group_rules count ids.now structures.now i group.now) }
{
    let again = ids.groups.is_again(i);
    let unknown = is_any_child_unknown(ids, group.children.as_slice());
    let endless = structures.is_endless(count + i);
    first_linked(again, unknown, endless)
}

/// Checks the messages one after another, when components and groups keep their rules. `count` components precede the
/// groups.
fn judge_messages(
    alloc: Global,
    ids: &Ids,
    structures: &Structures,
    count: usize,
    messages: &[&MessageEl],
) -> Result<(), MapErr>
    requires long { length messages.now ≤ length structures.now }
    requires ids { ids.now.msg_types ≡ map (λ m. m.now.msg_type) messages.now }
    requires nodes { StandAt (λ i. length structures.now - length messages.now + i) structures.now (message_node count ids.now) messages.now }
    requires ends { (m : MessageEl) → Ends structures.now (message_node count ids.now m).links }
    ensures { Answers result (list_verdict (codes "messages") (message_rules count ids.now structures.now) 0 (lent_members messages.now)) }
{
    let first = structures.len() - messages.len();
    for (i, message) in messages.iter().enumerate() {
        let broken = message_broken(alloc, ids, structures, count, i, first + i, message)?;
        refuse_at(alloc, "messages", i, broken)?;
    }
    Ok(())
}

/// The first rule that a message breaks, given its index among the messages and its index among the nodes.
fn message_broken(
    alloc: Global,
    ids: &Ids,
    structures: &Structures,
    count: usize,
    i: usize,
    at: usize,
    message: &MessageEl,
) -> Result<Option<MCode>, NoMem>
    requires id { slice_get ids.now.msg_types i ≡ Some message.now.msg_type }
    requires node { slice_get structures.now at ≡ Some (message_node count ids.now message.now) }
    requires ends { Ends structures.now (message_node count ids.now message.now).links }
    ensures { IfOk result (λ broken. broken ≡ first_broken (message_rules count ids.now structures.now i message.now)) }
{
    let again = ids.msg_types.is_again(i);
    let unknown = is_any_unknown(ids, structure_of(message));
    let ambiguous = structures.is_ambiguous(alloc, at)?;
    let over_limit = structures.is_over_limit(at);
    Ok(first_broken(&[
        Rule {
            code: MCode::Duplicate,
            broken: again,
        },
        Rule {
            code: MCode::UnknownReference,
            broken: unknown,
        },
        Rule {
            code: MCode::AmbiguousTag,
            broken: ambiguous,
        },
        Rule {
            code: MCode::Limit,
            broken: over_limit,
        },
    ]))
}

/// Whether a reference refers to nothing.
fn is_any_unknown(ids: &Ids, references: &[RefItem]) -> bool
    ensures { result ≡ list_any (is_unknown ids.now) references.now }
{
    for reference in references {
        if ids.is_unknown(*reference) {
            return true;
        }
    }
    false
}

/// Whether a child of a group refers to nothing.
fn is_any_child_unknown(ids: &Ids, children: &[GroupItem]) -> bool
    ensures { result ≡ list_any (is_unknown_child ids.now) children.now }
{
    for child in children {
        if is_child_unknown(ids, *child) {
            return true;
        }
    }
    false
}

fn is_child_unknown(ids: &Ids, child: GroupItem) -> bool
    ensures { result ≡ is_unknown_child ids.now child }
{
    match child {
        GroupItem::NumInGroup(n) => ids.fields.place(n.id).is_none(),
        GroupItem::FieldRef(r) => ids.is_unknown(RefItem::FieldRef(r)),
        GroupItem::GroupRef(r) => ids.is_unknown(RefItem::GroupRef(r)),
        GroupItem::ComponentRef(r) => ids.is_unknown(RefItem::ComponentRef(r)),
    }
}
