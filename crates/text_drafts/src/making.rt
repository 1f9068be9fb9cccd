// The levels of a template, made once. No contract covers the result.
use crate::empty::{copy_of, empty_block};
use crate::level::{BackLevels, DraftGroup, DraftLevel, DraftRow, DraftTree, NumberPlace};
use crate::rows::{NO_PART, make_rows};
use bridge_mapping::TagTable;
use field_judge::{BackLevel, BackPart, level_at, place_in};
use line_draft::{BodyDraft, begin_of, end_of, past, put_dim, put_header};
use lists::{List, NoMem};
use sbe_types::{Group, Kind, Level, Member, Order, Prim, WireSchema};
use std::alloc::Global;

/// What levels are made by: the byte order of the schema, the levels of the structure, and the tags of the mapping.
#[derive(Clone, Copy)]
struct Making<'a> {
    order: Order,
    back: BackLevels<'a>,
    tags: &'a TagTable,
}

/// The levels by which the bodies of a template are drafted. The draft's bytes are replaced, since each part is made in
/// it. Linear in the parts of the levels.
///
/// # Errors
///
/// If memory runs out.
pub fn make_draft_tree(
    alloc: Global,
    schema: &WireSchema,
    level: &Level,
    back: BackLevels<'_>,
    tags: &TagTable,
    draft: &mut BodyDraft,
) -> Result<DraftTree, NoMem> {
    let by = Making {
        order: schema.order,
        back,
        tags,
    };
    draft.clear();
    put_header(schema, level, draft);
    let header = copy_of(alloc, draft)?;
    let mut levels = List::new(alloc);
    let root = make_level(alloc, by, level, back.root, &mut levels, draft)?;
    Ok(DraftTree {
        header,
        root,
        levels,
    })
}

/// One level. The levels of its groups' entries are made before it.
#[cycle(making)]
fn make_level(
    alloc: Global,
    by: Making<'_>,
    level: &Level,
    own: &BackLevel,
    levels: &mut List<DraftLevel>,
    draft: &mut BodyDraft,
) -> Result<DraftLevel, NoMem> {
    let groups = make_groups(alloc, by, level.groups.as_slice(), own, levels, draft)?;
    let rows = make_rows(alloc, by.order, by.tags, level, own)?;
    let empty = empty_block(alloc, by.order, level, own, draft)?;
    let is_flat = level.groups.is_empty() && level.parts.is_empty() && are_plain(&rows);
    Ok(DraftLevel {
        empty,
        rows,
        groups,
        is_flat,
    })
}

/// Whether each place is that of a plain field.
fn are_plain(rows: &[DraftRow]) -> bool {
    rows.iter().all(|row| row.part.is_plain())
}

/// The groups of a level, and the levels of their entries. A group without a row gets the number of a level that isn't
/// there.
#[cycle(making)]
fn make_groups(
    alloc: Global,
    by: Making<'_>,
    groups: &[Group],
    own: &BackLevel,
    levels: &mut List<DraftLevel>,
    draft: &mut BodyDraft,
) -> Result<List<DraftGroup>, NoMem> {
    let mut made = List::new(alloc);
    for group in groups {
        let number = match entries_level(by, own, group.level.id) {
            None => NO_PART,
            Some(entries) => {
                let inner = make_level(alloc, by, &group.level, entries, levels, draft)?;
                levels.push(inner)?;
                levels.len().saturating_sub(1)
            }
        };
        made.push(make_group(alloc, by.order, group, number, draft)?)?;
    }
    Ok(made)
}

/// The level of the entries of the group with this tag.
fn entries_level<'a>(by: Making<'a>, own: &BackLevel, tag: u32) -> Option<&'a BackLevel> {
    let k = place_in(own, tag)?;
    match &own.rows.at(k).part {
        BackPart::Group(group) => level_at(by.back.levels, group.level),
        BackPart::Value(_) => None,
    }
}

/// A group whose entries have the level with this number.
fn make_group(
    alloc: Global,
    order: Order,
    group: &Group,
    level: usize,
    draft: &mut BodyDraft,
) -> Result<DraftGroup, NoMem> {
    let members = group.dim.as_slice();
    draft.clear();
    if let Some(at) = draft.zeros(end_of(members)) {
        put_dim(order, group, 0, draft, at);
    }
    let (count, at) = count_place(members);
    Ok(DraftGroup {
        dim: copy_of(alloc, draft)?,
        count: NumberPlace::new(order, count),
        at,
        level,
    })
}

/// The type and the place of the count in a dimension. Its two names have different lengths.
fn count_place(members: &[Member]) -> (Prim, usize) {
    let mut end = 0usize;
    for member in members {
        let begin = begin_of(end, member.offset);
        if let Kind::Leaf(leaf) = &member.kind
            && member.name.len() == b"numInGroup".len()
        {
            return (leaf.prim, begin);
        }
        end = past(end, begin, &member.kind);
    }
    (Prim::U8, NO_PART)
}
