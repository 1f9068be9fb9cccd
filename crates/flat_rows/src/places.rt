// Widths and offsets of kinds.
ghost use Rattle.std.specs.Prelude.{◌≡◌};
ghost use Rattle.sbe_types.specs.declared.kind.Kind.{Comp};
ghost use Rattle.sbe_types.specs.Places.{width, begin_of as begins_at, end_past};
ghost use Rattle.schema_facts.specs.Measured.{IsNarrow, EndsWithin};

use sbe_types::{Kind, List, Member};

/// How many bytes a value of the kind takes; a constant takes none. Requires a kind whose parts end within 1,048,576
/// bytes.
#[cycle(width)]
#[inline(always)]
pub fn width_of(kind: &Kind) -> u32
    requires { IsNarrow kind.now }
    ensures { result ≡ width kind.now }
{
    match kind {
        Kind::Leaf(leaf) => leaf.prim.width() as u32 * leaf.length,
        Kind::Enum(leaf, _) => leaf.prim.width() as u32,
        Kind::Set(prim, _) => prim.width() as u32,
        Kind::Const(_) => 0,
        Kind::Comp(members) => end_of(members),
    }
}

/// The end of the members. Requires members that end within 1,048,576 bytes.
#[cycle(width)]
pub fn end_of(members: &List<Member>) -> u32
    requires { IsNarrow (Comp members.now) }
    ensures { result ≡ width (Comp members.now) }
{
    let mut end = 0;
    for member in members.as_slice() {
        end = end_after(end, member.offset, &member.kind);
    }
    end
}

/// The end of the parts when one more is added, which is within 1,048,576 bytes.
#[cycle(width)]
#[inline(always)]
pub fn end_after(end: u32, offset: Option<u32>, kind: &Kind) -> u32
    requires narrow { IsNarrow kind.now }
    requires within { EndsWithin end offset kind.now }
    ensures { result ≡ end_past end offset kind.now }
{
    match kind {
        Kind::Const(_) => end,
        Kind::Leaf(_) | Kind::Enum(_, _) | Kind::Set(_, _) | Kind::Comp(_) => {
            begin_of(end, offset) + width_of(kind)
        }
    }
}

/// The offset of a part after parts that end at `end`.
pub fn begin_of(end: u32, offset: Option<u32>) -> u32
    ensures { result ≡ begins_at end offset }
{
    match offset {
        Some(place) => place,
        None => end,
    }
}
