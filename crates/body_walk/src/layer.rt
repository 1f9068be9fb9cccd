// The levels whose blocks lie in a body.
ghost use Rattle.std.specs.Prelude.{◌≡◌, ◌<◌, ◌+◌, ◌&&◌, ◌==◌, length};
ghost use Rattle.sbe_types.specs.declared.schema.Level.{out-Level};
ghost use Rattle.schema_facts.specs.Levels.{all_nodes};

use layout_tables::Layout;
use sbe_types::Level;
use sbe_wire::Mode;

/// A level whose blocks lie in a body, with its number, and how the values are read.
#[derive(Clone, Copy)]
pub struct Layer<'a> {
    pub layout: &'a Layout,
    pub number: usize,
    pub level: &'a Level,
    pub mode: Mode,
    pub body: &'a [u8],
}

/// Whether a level has neither groups nor data.
#[inline(always)]
pub fn is_flat(level: &Level) -> bool
    ensures { result ≡ (length (out-Level level.now).groups == 0) && (length (out-Level level.now).parts == 0) }
{
    level.groups.is_empty() && level.parts.is_empty()
}

/// The number of the next level: that of the first group's entries, if the level has groups. Requires a level in range.
#[inline(always)]
pub fn first_child(layout: &Layout, n: usize) -> usize
    requires { n < length (all_nodes layout.now) }
    ensures { result ≡ n + 1 }
{
    let _levels = layout.levels();
    n + 1
}
