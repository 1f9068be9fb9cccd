ghost use Rattle.std.specs.Prelude.{◌≡◌, ◌≤◌, ◌<◌, ◌+◌, ◌-◌, [], ◌∷◌, length, drop, Some};
ghost use Rattle.sbe_types.specs.Places.{members_end, end_past};
ghost use Rattle.sbe_types.specs.declared.kind.Kind.{Comp};
ghost use Rattle.sbe_types.specs.declared.limits.TheConstants.{PLACE_LIMIT};
ghost use Rattle.sbe_wire.specs.Canonical.{named_bytes, number_bytes_in};
ghost use Rattle.sbe_wire.specs.HeadNumbers.{number_of_name};
ghost use Rattle.typed_writer.specs.Counted.{HasRoomFor, HaveRoomFor};
ghost use Rattle.kind_bytes.specs.Members.{followed_by};
ghost use Rattle.typed_writer.specs.Ready.{MembersStand, member_bytes};

use crate::room::Room;
use flat_rows::begin_of;
use sbe_types::{Kind, Member, MemberList, Order};
use sbe_wire::Counters;

/// The number with this name.
fn number_named(numbers: Counters, name: &[u8]) -> u32
    ensures { result ≡ number_of_name numbers name.now }
{
    match numbers {
        Counters::Header {
            block,
            template,
            schema,
            version,
        } => {
            if name == b"blockLength".as_slice() {
                block
            } else if name == b"templateId".as_slice() {
                template
            } else if name == b"schemaId".as_slice() {
                schema
            } else {
                version
            }
        }
        Counters::Dimension { block, count } => {
            if name == b"blockLength".as_slice() {
                block
            } else {
                count
            }
        }
    }
}

impl Room {
    /// Appends the members of a header or a dimension, for which there is room.
    pub(crate) fn members(&mut self, order: Order, members: &MemberList, numbers: Counters)
        requires room { length self.old.bytes + members_end 0 members.now ≤ self.old.limit }
        requires stand { MembersStand 0 members.now }
        requires hold { HaveRoomFor (number_of_name numbers) members.now }
        ensures bytes { followed_by self.old.bytes (named_bytes order (number_of_name numbers) 0 members.now) ≡ Some self.new.bytes }
        ensures len { length self.new.bytes ≡ length self.old.bytes + members_end 0 members.now }
        ensures limit { self.new.limit ≡ self.old.limit }
    {
        let mut end = 0u32;
        for member in members.as_slice() {
            end = self.member(order, end, member, numbers);
        }
    }

    /// Appends one member after members that end at `end`, and returns where it ends.
    fn member(&mut self, order: Order, end: u32, member: &Member, numbers: Counters) -> u32
        requires room { length self.old.bytes + (end_past end member.now.offset member.now.kind - end) ≤ self.old.limit }
        requires stands { MembersStand end (member.now ∷ []) }
        requires holds { HasRoomFor (number_of_name numbers) member.now }
        ensures bytes { followed_by self.old.bytes (member_bytes order (number_of_name numbers) end member.now) ≡ Some self.new.bytes }
        ensures len { length self.new.bytes + end ≡ length self.old.bytes + result }
        ensures end { result ≡ end_past end member.now.offset member.now.kind }
        ensures limit { self.new.limit ≡ self.old.limit }
    {
        match &member.kind {
            Kind::Leaf(leaf) => {
                let begin = begin_of(end, member.offset);
                let n = number_named(numbers, member.name.as_slice());
                self.zeros((begin - end) as usize);
                self.number(order, leaf.prim, n as i128);
                begin + leaf.prim.width() as u32
            }
            Kind::Enum(_, _) => unreachable!(),
            Kind::Set(_, _) => unreachable!(),
            Kind::Const(_) => unreachable!(),
            Kind::Comp(_) => unreachable!(),
        }
    }
}
