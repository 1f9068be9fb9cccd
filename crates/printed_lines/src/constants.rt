// The constants of a schema consist of bytes. A contract knows this only of constants that code reads.

ghost use Rattle.std.specs.List.{All};
ghost use Rattle.byte_digits.specs.Digits.{IsBytes};
ghost use Rattle.line_laws.specs.ValuesBack.{ConstantHasBytes};
ghost use Rattle.printed_lines.specs.ByteConstants.{HasByteConstants, IsByteField, IsByteGroup, IsByteLevel, IsByteMember};

use sbe_types::{ConstValue, Field, Group, Kind, Level, Member};

/// The items of a byte slice are bytes.
pub(crate) fn are_bytes(bytes: &[u8])
    ensures { IsBytes bytes.now }
{}

/// The text of a constant consists of bytes.
fn constant_has_bytes(constant: &ConstValue)
    ensures { ConstantHasBytes constant.now }
{
    match constant {
        ConstValue::Text(text) => are_bytes(text.as_slice()),
        ConstValue::Num(_) | ConstValue::Code(_, _) => {}
    }
}

/// The constants of a kind consist of bytes.
#[cycle(kind)]
#[tactic(auto, using(crate::proofs::ByteRows::comp_has))]
fn kind_has_bytes(kind: &Kind)
    ensures { HasByteConstants kind.now }
{
    match kind {
        Kind::Const(constant) => constant_has_bytes(constant),
        Kind::Comp(members) => members_have_bytes(members.as_slice()),
        Kind::Leaf(_) | Kind::Enum(_, _) | Kind::Set(_, _) => {}
    }
}

/// The constants of a composite's members.
#[cycle(kind)]
fn members_have_bytes(members: &[Member])
    ensures { All IsByteMember members.now }
{
    for member in members {
        kind_has_bytes(&member.kind);
    }
}

/// The constants of fields.
fn fields_have_bytes(fields: &[Field])
    ensures { All IsByteField fields.now }
{
    for field in fields {
        kind_has_bytes(&field.kind);
    }
}

/// The constants of a level, at all depths.
#[cycle(level)]
#[tactic(auto, using(crate::proofs::ByteRows::level_has))]
fn level_has_bytes(level: &Level)
    ensures { IsByteLevel level.now }
{
    fields_have_bytes(level.fields.as_slice());
    groups_have_bytes(level.groups.as_slice());
}

/// The constants of groups.
#[cycle(level)]
fn groups_have_bytes(groups: &[Group])
    ensures { All IsByteGroup groups.now }
{
    for group in groups {
        level_has_bytes(&group.level);
    }
}

/// The constants of messages.
pub(crate) fn levels_have_bytes(levels: &[Level])
    ensures { All IsByteLevel levels.now }
{
    for level in levels {
        level_has_bytes(level);
    }
}
