ghost use Rattle.std.specs.Prelude.{IsTrue};
ghost use Rattle.std.specs.List.{AllByRecursion};
ghost use Rattle.sbe_translation.specs.Numbered.{HasNoZero, HasNoZeros};

use back_levels::BackTree;
use field_judge::BackLevel;

/// Whether no part of a tree's levels has the tag 0, which no tag of a mapping file is.
pub(crate) fn has_no_zero(tree: &BackTree) -> bool
    ensures { IsTrue result → HasNoZeros tree.now }
{
    if !is_without_zero(&tree.root) {
        return false;
    }
    let levels = tree.levels.as_slice();
    are_without_zero(levels)
}

fn are_without_zero(levels: &[BackLevel]) -> bool
    ensures { IsTrue result → AllByRecursion HasNoZero levels.now }
{
    let mut left = levels;
    'levels: while let [level, rest @ ..] = left {
        if !is_without_zero(level) {
            return false;
        }
        left = rest;
    }
    true
}

fn is_without_zero(level: &BackLevel) -> bool
    ensures { IsTrue result → HasNoZero level.now }
{
    match level.tags.place(0) {
        None => true,
        Some(_) => false,
    }
}
