// Values checked by their bytes, kind by kind.
ghost use Rattle.std.specs.Prelude.{◌≡◌, ◌≤◌, ◌<◌, ◌+◌, ◌*◌, ◌^◌, ◌||◌, false, true, not, suc, length, Some, Err};
ghost use Rattle.sbe_types.specs.declared.kind.Kind.{Comp, Leaf as LeafKind};
ghost use Rattle.sbe_types.specs.Numbers.{number_of, natural, prim_width};
ghost use Rattle.sbe_types.specs.Places.{width, is_const, begin_of, end_past};
ghost use Rattle.sbe_types.specs.Shown.{is_null, is_listed, has_listed_bits};
ghost use Rattle.sbe_wire.specs.declared.codes.FCode.TheVariants.{EnumUnknown, SetUnknown};
ghost use Rattle.schema_rules.specs.TypeRules.{is_set_primitive};
ghost use Rattle.schema_facts.specs.InOrder.{height, IsLeafInOrder};
ghost use Rattle.body_walk.specs.inner.Outcomes.{fault_of, fault_unless, piece};
ghost use Rattle.body_walk.specs.inner.Kinds.{answered, kind_check, leaf_answer, leaf_check, member_check, members_check, part_check, IsReady, IsLeafFault};

use crate::found::Found;
use crate::looks::{shows_at_once, shows_leaf};
use crate::numbers::{set_number, shows_enum, shows_set};
use flat_rows::{begin_of, end_after};
use sbe_types::{
    Kind, Leaf, LeafCause, LeafFault, LeafShape, List, Member, NamedList, Order, Prim, Step,
    get_num, leaf_judge,
};
use sbe_wire::{FCode, Mode};

/// Checks the bytes of part `i` of a block or composite, which begin at an offset of the body.
#[cycle(kind)]
pub(crate) fn judge_part(
    mode: Mode,
    kind: &Kind,
    i: u32,
    at: usize,
    bytes: &[u8],
    out: &mut Found,
) -> bool
    requires ready { IsReady kind.now }
    requires wide { length bytes.now ≡ width kind.now }
    requires near { at + length bytes.now < 2 ^ 64 }
    ensures told { fault_unless result out.new ≡ part_check mode kind.now i (piece at bytes.now) }
    ensures low { result ≡ false → length out.new.path ≤ 2 + height kind.now }
{
    if judge_kind(mode, kind, at, bytes, out) {
        return true;
    }
    out.under(Step::Part(i));
    false
}

/// Checks the bytes of a kind, which begin at an offset of the body. If they aren't a value, `out` receives the first
/// fault.
#[cycle(kind)]
fn judge_kind(mode: Mode, kind: &Kind, at: usize, bytes: &[u8], out: &mut Found) -> bool
    requires ready { IsReady kind.now }
    requires wide { length bytes.now ≡ width kind.now }
    requires near { at + length bytes.now < 2 ^ 64 }
    ensures told { fault_unless result out.new ≡ kind_check mode kind.now (piece at bytes.now) }
    ensures low { result ≡ false → length out.new.path ≤ suc (height kind.now) }
{
    match kind {
        Kind::Leaf(leaf) => judge_leaf(mode.order, leaf, at, bytes, out),
        Kind::Enum(leaf, values) => judge_enum(mode, leaf, values, at, bytes, out),
        Kind::Set(prim, choices) => judge_set(mode, *prim, choices, at, bytes, out),
        Kind::Comp(members) => judge_members(mode, members, at, bytes, out),
        Kind::Const(_) => true,
    }
}

/// Checks the members of a composite.
#[cycle(kind)]
fn judge_members(
    mode: Mode,
    members: &List<Member>,
    at: usize,
    bytes: &[u8],
    out: &mut Found,
) -> bool
    requires ready { IsReady (Comp members.now) }
    requires wide { length bytes.now ≡ width (Comp members.now) }
    requires near { at + length bytes.now < 2 ^ 64 }
    ensures told { fault_unless result out.new ≡ members_check mode (piece at bytes.now) 0 0 members.now }
    ensures low { result ≡ false → length out.new.path ≤ suc (height (Comp members.now)) }
{
    let mut end = 0;
    let mut i = 0u32;
    for member in members.as_slice() {
        let after = end_after(end, member.offset, &member.kind);
        if !judge_member(mode, member, i, end, after, at, bytes, out) {
            return false;
        }
        end = after;
        i += 1;
    }
    true
}

/// Checks member `i` of a composite, which follows members that end at `end` and itself ends at `after`.
#[cycle(kind)]
#[tactic(auto, using(crate::proofs::AtOnce::part_looks))]
fn judge_member(
    mode: Mode,
    member: &Member,
    i: u32,
    end: u32,
    after: u32,
    at: usize,
    bytes: &[u8],
    out: &mut Found,
) -> bool
    requires ready { IsReady member.now.kind }
    requires after { after ≡ end_past end member.now.offset member.now.kind }
    requires within { is_const member.now.kind ≡ false → begin_of end member.now.offset + width member.now.kind ≤ length bytes.now }
    requires near { at + length bytes.now < 2 ^ 64 }
    ensures told { fault_unless result out.new ≡ member_check mode (piece at bytes.now) end i member.now }
    ensures low { result ≡ false → length out.new.path ≤ 2 + height member.now.kind }
{
    match &member.kind {
        Kind::Const(_) => true,
        Kind::Leaf(_) | Kind::Enum(_, _) | Kind::Set(_, _) | Kind::Comp(_) => {
            let begin = begin_of(end, member.offset) as usize;
            let part = &bytes[begin..after as usize];
            if shows_at_once(mode, &member.kind, part) {
                return true;
            }
            judge_part(mode, &member.kind, i, at + begin, part, out)
        }
    }
}

/// Checks a number, a text or an array.
#[inline(always)]
#[tactic(auto, using(crate::proofs::AtOnce::leaf_good))]
fn judge_leaf(order: Order, leaf: &Leaf, at: usize, bytes: &[u8], out: &mut Found) -> bool
    requires order { IsLeafInOrder leaf.now }
    requires wide { length bytes.now ≡ width (LeafKind leaf.now) }
    requires near { at + length bytes.now < 2 ^ 64 }
    ensures told { fault_unless result out.new ≡ leaf_check order leaf.now (piece at bytes.now) }
    ensures low { result ≡ false → length out.new.path ≤ 1 }
{
    if shows_leaf(order, leaf, bytes) {
        return true;
    }
    judge_each(order, leaf, at, bytes, out)
}

/// Checks a number, a text or an array, one element or byte at a time.
#[tactic(auto, using(crate::proofs::LeafTold::leaf_shown))]
fn judge_each(order: Order, leaf: &Leaf, at: usize, bytes: &[u8], out: &mut Found) -> bool
    requires order { IsLeafInOrder leaf.now }
    requires wide { length bytes.now ≡ width (LeafKind leaf.now) }
    requires near { at + length bytes.now < 2 ^ 64 }
    ensures told { fault_unless result out.new ≡ leaf_check order leaf.now (piece at bytes.now) }
    ensures low { result ≡ false → length out.new.path ≤ 1 }
{
    let mut fault = LeafFault {
        cause: LeafCause::Range,
        at: 0,
        number: 0,
    };
    if leaf_judge(order, leaf, bytes, &mut fault) {
        return true;
    }
    tell_leaf(leaf, at, &fault, out);
    false
}

/// Records the fault of a leaf whose bytes begin at an offset.
#[cold]
fn tell_leaf(leaf: &Leaf, at: usize, fault: &LeafFault, out: &mut Found)
    requires { IsLeafFault leaf.now at fault.now }
    ensures told { Err (fault_of out.new) ≡ leaf_answer leaf.now at (Some fault.now) }
    ensures low { length out.new.path ≤ 1 }
{
    match leaf.shape {
        LeafShape::Number => out.tell(FCode::Range, at, fault.number),
        LeafShape::RangedText | LeafShape::EncodedText => {
            out.tell(FCode::TextByte, at + fault.at, fault.number)
        }
        LeafShape::Octets | LeafShape::Numbers => {
            out.tell(
                FCode::Range,
                at + leaf.prim.width() * fault.at,
                fault.number,
            );
            out.under(Step::Elem(fault.at as u32));
        }
    }
}

/// Checks an enum.
fn judge_enum(
    mode: Mode,
    leaf: &Leaf,
    values: &NamedList,
    at: usize,
    bytes: &[u8],
    out: &mut Found,
) -> bool
    requires { length bytes.now ≡ prim_width leaf.now.prim }
    ensures told { let n = number_of mode.order leaf.now.prim bytes.now in
        fault_unless result out.new ≡ answered EnumUnknown at n (is_null leaf.now n || (is_listed values.now n || not mode.known)) }
    ensures low { result ≡ false → length out.new.path ≡ 0 }
{
    let number = get_num(mode.order, leaf.prim, bytes);
    if shows_enum(leaf, values, mode.known, number) {
        return true;
    }
    out.tell(FCode::EnumUnknown, at, number);
    false
}

/// Checks a set.
fn judge_set(
    mode: Mode,
    prim: Prim,
    choices: &NamedList,
    at: usize,
    bytes: &[u8],
    out: &mut Found,
) -> bool
    requires encoding { is_set_primitive prim ≡ true }
    requires wide { length bytes.now ≡ prim_width prim }
    ensures told { let n = number_of mode.order prim bytes.now in
        fault_unless result out.new ≡ answered SetUnknown at n (has_listed_bits choices.now 64 (natural n) || not mode.known) }
    ensures low { result ≡ false → length out.new.path ≡ 0 }
{
    let number = set_number(mode.order, prim, bytes);
    if shows_set(choices, mode.known, number) {
        return true;
    }
    out.tell(FCode::SetUnknown, at, number as i128);
    false
}
