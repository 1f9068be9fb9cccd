// The groups and the data of a block, each located from the one before it.
ghost use Rattle.std.specs.Prelude.{◌≡◌, ◌<◌, ◌≤◌, drop, length, map, slice_get, None, Some};
ghost use Rattle.std.specs.Option.{option_map};
ghost use Rattle.sbe_types.specs.declared.message.Block.{out-Block};
ghost use Rattle.sbe_types.specs.declared.message.DataVal.TheVariants as dataval;
ghost use Rattle.sbe_types.specs.declared.message.GroupVal.TheVariants as groupval;
ghost use Rattle.sbe_types.specs.declared.schema.Group.{Group, out-Group};
ghost use Rattle.bridge_terms.specs.Blocks.{data_value, entries_of, nth_or};
ghost use Rattle.flyweight_view.specs.TypedBlocks.{typed_level};
ghost use Rattle.message_walk.specs.Reached.{AreGroupsFrom, ArePartsFrom, HaveGroups, HaveParts, IsReached};
ghost use Rattle.message_walk.specs.Rows.{entries_shown, value_of_bytes};

use flyweight_view::{BlockView, EntriesView, GroupsView, PartsView};

/// How far the groups and the data of a block were read. What comes next is located from there, and from the beginning
/// only if it was passed already. The first group and the first data are located by themselves.
#[derive(Drop)]
pub(crate) struct Reached<'a> {
    /// The groups from `next_group` on, or `None` before the first was read.
    groups: Option<GroupsView<'a>>,
    next_group: usize,
    /// The data from `next_part` on, or `None` before the first was read.
    parts: Option<PartsView<'a>>,
    next_part: usize,
}

impl<'a> Reached<'a> {
    /// Nothing was read.
    #[inline(always)]
    pub(crate) fn new() -> Reached<'a>
        ensures groups { result.groups ≡ None }
        ensures parts { result.parts ≡ None }
    {
        Reached {
            groups: None,
            next_group: 0,
            parts: None,
            next_part: 0,
        }
    }

    /// The entries of the block's group with this number, or `None` if it is absent.
    #[inline(always)]
    pub(crate) fn entries_at(
        &mut self,
        block: &BlockView<'a>,
        number: usize,
    ) -> Option<EntriesView<'a>>
        requires { IsReached block.now self.old }
        ensures reached { IsReached block.now self.new }
        ensures entries { (group : Group) → slice_get block.now.groups number ≡ Some group
            → entries_shown result ≡ map (typed_level (out-Group group).level) (entries_of (nth_or groupval.Absent number (out-Block block.now.block).groups)) }
    {
        if number == 0 {
            return first_entries(block);
        }
        self.later_entries(block, number)
    }

    /// The same for a group after the first.
    #[inline(never)]
    fn later_entries(&mut self, block: &BlockView<'a>, number: usize) -> Option<EntriesView<'a>>
        requires { IsReached block.now self.old }
        ensures reached { IsReached block.now self.new }
        ensures entries { (group : Group) → slice_get block.now.groups number ≡ Some group
            → entries_shown result ≡ map (typed_level (out-Group group).level) (entries_of (nth_or groupval.Absent number (out-Block block.now.block).groups)) }
    {
        let (_, count, _) = block.counts();
        if number >= count {
            return None;
        }
        let (mut left, next) = groups_before(block, self.groups.take(), self.next_group, number);
        step_groups(&mut left, number - next);
        let entries = left.next_group();
        self.groups = Some(left);
        self.next_group = number + 1;
        entries
    }

    /// The block's data with this number, or `None` if it is absent.
    #[inline(always)]
    pub(crate) fn data_at(&mut self, block: &BlockView<'a>, number: usize) -> Option<&'a [u8]>
        requires { IsReached block.now self.old }
        ensures reached { IsReached block.now self.new }
        ensures data { number < length block.now.parts
            → value_of_bytes (option_map (λ b. b.now) result) ≡ data_value (nth_or dataval.Absent number (out-Block block.now.block).parts) }
    {
        if number == 0 {
            return first_data(block);
        }
        self.later_data(block, number)
    }

    /// The same for data after the first.
    #[inline(never)]
    fn later_data(&mut self, block: &BlockView<'a>, number: usize) -> Option<&'a [u8]>
        requires { IsReached block.now self.old }
        ensures reached { IsReached block.now self.new }
        ensures data { number < length block.now.parts
            → value_of_bytes (option_map (λ b. b.now) result) ≡ data_value (nth_or dataval.Absent number (out-Block block.now.block).parts) }
    {
        let (_, _, count) = block.counts();
        if number >= count {
            return None;
        }
        let (mut left, next) = parts_before(block, self.parts.take(), self.next_part, number);
        step_parts(&mut left, number - next);
        let found = left.next_part();
        self.parts = Some(left);
        self.next_part = number + 1;
        found
    }
}

/// The entries of the first group of a block, or `None` if it is absent. It is located without anything kept.
#[tactic(auto, using(crate::proofs::Nth::group_seen_at))]
fn first_entries<'a>(block: &BlockView<'a>) -> Option<EntriesView<'a>>
    ensures { (group : Group) → slice_get block.now.groups 0 ≡ Some group
        → entries_shown result ≡ map (typed_level (out-Group group).level) (entries_of (nth_or groupval.Absent 0 (out-Block block.now.block).groups)) }
{
    let (_, count, _) = block.counts();
    if count == 0 {
        return None;
    }
    block.group(0)
}

/// The first data of a block, or `None` if it is absent.
#[tactic(auto, using(crate::proofs::Nth::data_seen))]
fn first_data<'a>(block: &BlockView<'a>) -> Option<&'a [u8]>
    ensures { 0 < length block.now.parts
        → value_of_bytes (option_map (λ b. b.now) result) ≡ data_value (nth_or dataval.Absent 0 (out-Block block.now.block).parts) }
{
    let (_, _, count) = block.counts();
    if count == 0 {
        return None;
    }
    block.data(0)
}

/// The groups of a block from one on that isn't after group `number`: those that are left, if they reach back that far.
fn groups_before<'a>(
    block: &BlockView<'a>,
    left: Option<GroupsView<'a>>,
    next: usize,
    number: usize,
) -> (GroupsView<'a>, usize)
    requires { HaveGroups block.now next left }
    ensures before { result.1 ≤ number }
    ensures left { AreGroupsFrom block.now result.1 result.0 }
{
    match left {
        Some(left) => {
            if next <= number {
                return (left, next);
            }
            (block.groups(), 0)
        }
        None => (block.groups(), 0),
    }
}

/// The same for data.
fn parts_before<'a>(
    block: &BlockView<'a>,
    left: Option<PartsView<'a>>,
    next: usize,
    number: usize,
) -> (PartsView<'a>, usize)
    requires { HaveParts block.now next left }
    ensures before { result.1 ≤ number }
    ensures left { ArePartsFrom block.now result.1 result.0 }
{
    match left {
        Some(left) => {
            if next <= number {
                return (left, next);
            }
            (block.parts(), 0)
        }
        None => (block.parts(), 0),
    }
}

/// Steps over some groups.
fn step_groups(groups: &mut GroupsView<'_>, count: usize)
    requires { count < length groups.old }
    ensures { groups.new ≡ drop count groups.old }
{
    for _ in 0..count {
        let _passed = groups.next_group();
    }
}

/// Steps over some data.
fn step_parts(parts: &mut PartsView<'_>, count: usize)
    requires { count < length parts.old }
    ensures { parts.new ≡ drop count parts.old }
{
    for _ in 0..count {
        let _passed = parts.next_part();
    }
}
