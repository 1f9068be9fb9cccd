ghost use Rattle.std.specs.Prelude.{◌≡◌};
ghost use Rattle.schema_rules.specs.Kinds.{member_name};
ghost use Rattle.schema_rules.specs.CompositeRules.{member_since};

use sbe_types::MemberItem;

/// The name of a member.
pub fn member_name(member: &MemberItem) -> &[u8]
    ensures { result.now ≡ member_name member.now }
{
    match member {
        MemberItem::Type(t) => t.name.as_slice(),
        MemberItem::Enum(e) => e.name.as_slice(),
        MemberItem::Set(s) => s.name.as_slice(),
        MemberItem::Ref(r) => r.name.as_slice(),
        MemberItem::Composite(c) => c.name.as_slice(),
    }
}

/// The sinceVersion of a member.
pub fn member_since(member: &MemberItem) -> u32
    ensures { result ≡ member_since member.now }
{
    match member {
        MemberItem::Type(t) => t.since_version,
        MemberItem::Enum(e) => e.since_version,
        MemberItem::Set(s) => s.since_version,
        MemberItem::Ref(r) => r.since_version,
        MemberItem::Composite(c) => c.since_version,
    }
}
