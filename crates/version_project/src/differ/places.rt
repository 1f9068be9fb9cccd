// Whether parts begin at the same offset.
ghost use Rattle.std.specs.Prelude.{◌≡◌, true};
ghost use Rattle.sbe_types.specs.declared.kind.Kind.{Comp};
ghost use Rattle.sbe_types.specs.Places.{is_const};
ghost use Rattle.schema_facts.specs.Measured.{IsNarrow};
ghost use Rattle.version_laws.specs.Same.{same_place, same_places, same_header};
ghost use Rattle.version_project.specs.Pairwise.{ends_at, all_stay, member_stays, is_header_member};

use crate::differ::kinds::is_same_kind;
use crate::differ::leaves::is_same_name;
use flat_rows::{begin_of, end_after};
use lists::List;
use sbe_types::{Kind, Member};

fn is_constant(kind: &Kind) -> bool
    ensures { result ≡ is_const kind.now }
{
    match kind {
        Kind::Const(_) => true,
        Kind::Leaf(_) | Kind::Enum(_, _) | Kind::Set(_, _) | Kind::Comp(_) => false,
    }
}

/// Whether two parts that begin at these offsets have the same one; a constant has none.
pub(crate) fn is_same_place(old: &Kind, place: u32, new: &Kind, other: u32) -> bool
    ensures { result ≡ same_place old.now place new.now other }
{
    is_constant(old) || is_constant(new) || place == other
}

/// Whether the members at the same position of two composites begin at the same offset.
#[cycle(places)]
pub(crate) fn are_same_places(old: &Kind, new: &Kind) -> bool
    requires old { IsNarrow old.now }
    requires new { IsNarrow new.now }
    ensures { result ≡ same_places old.now new.now }
{
    match old {
        Kind::Comp(members) => match new {
            Kind::Comp(others) => do_stay(members, others),
            Kind::Leaf(_) | Kind::Enum(_, _) | Kind::Set(_, _) | Kind::Const(_) => true,
        },
        Kind::Leaf(_) | Kind::Enum(_, _) | Kind::Set(_, _) | Kind::Const(_) => true,
    }
}

/// Whether members at the same position begin at the same offset.
#[cycle(places)]
fn do_stay(old: &List<Member>, new: &List<Member>) -> bool
    requires old { IsNarrow (Comp old.now) }
    requires new { IsNarrow (Comp new.now) }
    ensures { result ≡ all_stay true member_stays (ends_at 0 0) old.now new.now }
{
    let mut end = 0;
    let mut other_end = 0;
    for i in 0..old.len() {
        if i >= new.len() {
            return true;
        }
        let member = old.at(i);
        let other = new.at(i);
        if !does_stay(end, member, other_end, other) {
            return false;
        }
        end = end_after(end, member.offset, &member.kind);
        other_end = end_after(other_end, other.offset, &other.kind);
    }
    true
}

/// Whether two members, after members that end at these offsets, begin at the same offset, and so does all that is in
/// them.
#[cycle(places)]
fn does_stay(end: u32, old: &Member, other_end: u32, new: &Member) -> bool
    requires old { IsNarrow old.now.kind }
    requires new { IsNarrow new.now.kind }
    ensures { result ≡ member_stays (ends_at end other_end) old.now new.now }
{
    is_same_place(
        &old.kind,
        begin_of(end, old.offset),
        &new.kind,
        begin_of(other_end, new.offset),
    ) && (is_constant(&old.kind) || is_constant(&new.kind) || are_same_places(&old.kind, &new.kind))
}

/// Whether two headers have the same members, at the same offsets and of the same types.
pub(crate) fn is_same_header(old: &List<Member>, new: &List<Member>) -> bool
    requires old { IsNarrow (Comp old.now) }
    requires new { IsNarrow (Comp new.now) }
    ensures { result ≡ same_header 0 old.now 0 new.now }
{
    if old.len() != new.len() {
        return false;
    }
    let mut end = 0;
    let mut other_end = 0;
    for i in 0..old.len() {
        let member = old.at(i);
        let other = new.at(i);
        if !is_same_member(end, member, other_end, other) {
            return false;
        }
        end = end_after(end, member.offset, &member.kind);
        other_end = end_after(other_end, other.offset, &other.kind);
    }
    true
}

fn is_same_member(end: u32, old: &Member, other_end: u32, new: &Member) -> bool
    ensures { result ≡ is_header_member (ends_at end other_end) old.now new.now }
{
    is_same_name(old.name.as_slice(), new.name.as_slice())
        && is_same_place(
            &old.kind,
            begin_of(end, old.offset),
            &new.kind,
            begin_of(other_end, new.offset),
        )
        && is_same_kind(false, &old.kind, &new.kind)
}
