ghost use Rattle.std.specs.Prelude.{◌≡◌, ◌+◌, IfSome, sum_by};
ghost use Rattle.schema_lines.specs.Counts.{groups_in, groups_with, parts_in, parts_with};

use sbe_types::{Group, Level};

/// The numbers of groups and of data parts, at all levels.
#[derive(Clone, Copy)]
pub(crate) struct Counts {
    pub groups: u64,
    pub parts: u64,
}

/// The counts of a level, or `None` if 64 bits can't hold them.
#[cycle(count)]
pub(crate) fn count_level(level: &Level) -> Option<Counts>
    ensures { IfSome result (λ counts. (counts.groups ≡ groups_in level.now) × (counts.parts ≡ parts_in level.now)) }
{
    let Some(below) = count_groups(level.groups.as_slice()) else {
        return None;
    };
    let Some(parts) = below.parts.checked_add(level.parts.len() as u64) else {
        return None;
    };
    Some(Counts {
        groups: below.groups,
        parts,
    })
}

#[cycle(count)]
fn count_groups(groups: &[Group]) -> Option<Counts>
    ensures { IfSome result (λ counts. (counts.groups ≡ sum_by groups_with groups.now) × (counts.parts ≡ sum_by parts_with groups.now)) }
{
    let mut counts = Counts {
        groups: 0,
        parts: 0,
    };
    for group in groups {
        let Some(inner) = count_level(&group.level) else {
            return None;
        };
        let Some(more) = one_more(counts, inner) else {
            return None;
        };
        counts = more;
    }
    Some(counts)
}

/// The counts with one more group, which adds those inside it.
fn one_more(counts: Counts, inner: Counts) -> Option<Counts>
    ensures { IfSome result (λ all. (all.groups ≡ counts.groups + (inner.groups + 1)) × (all.parts ≡ counts.parts + inner.parts)) }
{
    let groups = counts.groups.checked_add(inner.groups.checked_add(1)?)?;
    let parts = counts.parts.checked_add(inner.parts)?;
    Some(Counts { groups, parts })
}
