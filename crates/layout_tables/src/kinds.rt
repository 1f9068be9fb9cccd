ghost use Rattle.std.specs.Prelude.{◌≡◌, Some};
ghost use Rattle.std.specs.Option.{IsSome};
ghost use Rattle.sbe_types.specs.declared.kind.Kind.{Comp};
ghost use Rattle.sbe_types.specs.Places.{member_place as place_in};
ghost use Rattle.schema_facts.specs.Measured.{IsNarrow};

use flat_rows::{begin_of, end_after};
use sbe_types::MemberList;

/// The offset of a composite's member `i` from the composite's first byte (SBE 1.0, offset). Requires a member in range
/// that isn't a constant, and members that end within 1,048,576 bytes.
pub fn member_place(members: &MemberList, i: usize) -> u32
    requires narrow { IsNarrow (Comp members.now) }
    requires placed { IsSome (place_in 0 members.now i) }
    ensures { place_in 0 members.now i ≡ Some result }
{
    let mut end = 0;
    for member in &members.as_slice()[..i] {
        end = end_after(end, member.offset, &member.kind);
    }
    begin_of(end, members.at(i).offset)
}
