ghost use Rattle.std.specs.Prelude.{◌≡◌, ◌↔◌, ℕ, IsTrue};
ghost use Rattle.sbe_types.specs.Places.{begin_of};
ghost use Rattle.schema_rules.specs.Facts.{counted};
ghost use Rattle.schema_check.specs.Forms.{IsLike, SameMembers, SameForm};

use sbe_types::{Member, WireSchema};
use type_facts::past;
use type_kinds::{fact_of, is_same_kind};

/// Whether the messages of both begin alike: in the same byte order, with a header of the same form.
pub fn is_same_form(a: &WireSchema, b: &WireSchema) -> bool
    ensures { IsTrue result ↔ SameForm a.now b.now }
{
    a.order == b.order && are_same_members(a.header.members.as_slice(), b.header.members.as_slice())
}

fn are_same_members(a: &[Member], b: &[Member]) -> bool
    ensures { IsTrue result ↔ SameMembers a.now b.now }
{
    if a.len() != b.len() {
        return false;
    }
    let mut end = 0;
    for (i, member) in a.iter().enumerate() {
        if !is_like(end, member, &b[i]) {
            return false;
        }
        end = past(end, member.offset, fact_of(&member.kind));
    }
    true
}

/// Whether two members are the same, when the members before them end at `end`.
fn is_like(end: u64, a: &Member, b: &Member) -> bool
    ensures { (e : ℕ) → counted end ≡ counted e → (IsTrue result ↔ IsLike e a.now b.now) }
{
    a.name.as_slice() == b.name.as_slice()
        && is_same_kind(&a.kind, &b.kind)
        && (fact_of(&a.kind).is_fixed || is_same_place(end, a.offset, b.offset))
}

fn is_same_place(end: u64, a: Option<u32>, b: Option<u32>) -> bool
    ensures { (e : ℕ) → counted end ≡ counted e → (IsTrue result ↔ (begin_of e a ≡ begin_of e b)) }
{
    match a {
        Some(place) => match b {
            Some(other) => place == other,
            None => place as u64 == end,
        },
        None => match b {
            Some(other) => other as u64 == end,
            None => true,
        },
    }
}
