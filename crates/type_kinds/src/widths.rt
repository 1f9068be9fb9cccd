ghost use Rattle.std.specs.Prelude.{◌≡◌, false};
ghost use Rattle.sbe_types.specs.Places.{is_const, width, members_end};
ghost use Rattle.schema_rules.specs.Facts.{counted};

use sbe_types::{Kind, List, Member};
use schema_rules::Fact;
use type_facts::{UNKNOWN, past};

/// Whether a kind is constant, and how many bytes it takes.
#[cycle(widths)]
pub fn fact_of(kind: &Kind) -> Fact
    ensures fixed { result.is_fixed ≡ is_const kind.now }
    ensures wide { counted result.width ≡ counted (width kind.now) }
{
    match kind {
        Kind::Leaf(leaf) => of_width(leaf.prim.width() as u64 * leaf.length as u64),
        Kind::Enum(leaf, _) => of_width(leaf.prim.width() as u64),
        Kind::Set(prim, _) => of_width(prim.width() as u64),
        Kind::Comp(members) => of_width(end_of(members)),
        Kind::Const(_) => UNKNOWN,
    }
}

/// The end of the members.
#[cycle(widths)]
fn end_of(members: &List<Member>) -> u64
    ensures { counted result ≡ counted (members_end 0 members.now) }
{
    let mut end = 0;
    for member in members.as_slice() {
        end = past(end, member.offset, fact_of(&member.kind));
    }
    end
}

fn of_width(width: u64) -> Fact
    ensures { result ≡ record { is_fixed = false; width = width; leaves = 1; height = 0; holds_empty = false } }
{
    Fact {
        is_fixed: false,
        width,
        ..UNKNOWN
    }
}
