// Headers and dimensions.
ghost use Rattle.std.specs.Prelude.{◌≡◌, ◌≤◌, length, IfSome};
ghost use Rattle.sbe_types.specs.Places.{end_past, members_end};
ghost use Rattle.clean_bodies.specs.Says.{SaysNumber, SayNumbers};
ghost use Rattle.sbe_wire.specs.HeadNumbers.{number_of_name};

use crate::names::is_same;
use crate::places::{begin_of, natural_at};
use crate::zeros::is_zero;
use sbe_types::{Kind, Member, Order};
use sbe_wire::Counters;

/// The number with this name.
fn number_named(numbers: Counters, name: &[u8]) -> u32
    ensures { result ≡ number_of_name numbers name.now }
{
    match numbers {
        Counters::Header {
            block,
            template,
            schema,
            version,
        } => {
            if is_same(name, b"blockLength") {
                block
            } else if is_same(name, b"templateId") {
                template
            } else if is_same(name, b"schemaId") {
                schema
            } else {
                version
            }
        }
        Counters::Dimension { block, count } => {
            if is_same(name, b"blockLength") {
                block
            } else {
                count
            }
        }
    }
}

/// The end of the members, if each has the number of its name, and there are zeros between them.
pub(crate) fn end_said(
    order: Order,
    members: &[Member],
    numbers: Counters,
    bytes: &[u8],
) -> Option<usize>
    ensures says { IfSome result (λ end. SayNumbers order (number_of_name numbers) 0 members.now bytes.now) }
    ensures end { IfSome result (λ end. end ≡ members_end 0 members.now) }
    ensures within { IfSome result (λ end. end ≤ length bytes.now) }
{
    let mut end = 0usize;
    for member in members {
        let number = number_named(numbers, member.name.as_slice());
        match past_number(order, end, member, number, bytes) {
            Some(next) => end = next,
            None => return None,
        }
    }
    Some(end)
}

/// The end of a member after members that end at `end`, if it has this number and is preceded by zeros.
#[tactic(auto, using(crate::proofs::Saying::past_leaf))]
fn past_number(
    order: Order,
    end: usize,
    member: &Member,
    number: u32,
    bytes: &[u8],
) -> Option<usize>
    requires { end ≤ length bytes.now }
    ensures says { IfSome result (λ next. SaysNumber order number end member.now bytes.now) }
    ensures end { IfSome result (λ next. next ≡ end_past end member.now.offset member.now.kind) }
    ensures within { IfSome result (λ next. next ≤ length bytes.now) }
{
    let Kind::Leaf(leaf) = &member.kind else {
        return None;
    };
    let begin = begin_of(end, member.offset);
    let next = begin.checked_add(leaf.prim.width())?;
    if leaf.length != 1 || begin < end || next > bytes.len() || !is_zero(&bytes[end..begin]) {
        return None;
    }
    let read = natural_at(order, leaf.prim, &bytes[begin..next])?;
    if read != number {
        return None;
    }
    Some(next)
}

/// The number of a member that begins after `end`, and where it ends, or `None` if it isn't a number of 32 bits.
fn number_in(order: Order, end: usize, member: &Member, bytes: &[u8]) -> Option<(u32, usize)> {
    let Kind::Leaf(leaf) = &member.kind else {
        return None;
    };
    let begin = begin_of(end, member.offset);
    let next = begin.checked_add(leaf.prim.width())?;
    if next > bytes.len() {
        return None;
    }
    let number = natural_at(order, leaf.prim, &bytes[begin..next])?;
    Some((number, next))
}

/// The number of the first member that isn't the block length. Nothing is promised of it: a caller has to check that
/// the members state it.
pub(crate) fn count_in(order: Order, members: &[Member], bytes: &[u8]) -> Option<u32> {
    let mut end = 0usize;
    for member in members {
        let (number, next) = number_in(order, end, member, bytes)?;
        if !is_same(member.name.as_slice(), b"blockLength") {
            return Some(number);
        }
        end = next;
    }
    None
}
