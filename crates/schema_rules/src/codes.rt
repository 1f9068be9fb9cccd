ghost use Rattle.std.specs.Prelude.{◌≡◌};

use lists::{NoMem, Text};

/// Why a schema is refused, as `C01` to `C19`.
#[derive(Clone, Copy, Debug, PartialEq, Eq)]
pub enum CCode {
    /// `C01`: an earlier declared type has the same name.
    DuplicateType,
    /// `C02`: the name of a type, or a valueRef, refers to nothing.
    UnknownType,
    /// `C03`: the type is float or double.
    Float,
    /// `C04`: composites contain one another without end.
    Cycle,
    /// `C05`: a type that an enum or a set can't be based on, an enum without values, or a length of 0.
    BadEncoding,
    /// `C06`: a number or text isn't a value of its type.
    BadNumber,
    /// `C07`: a name or number occurs twice in a list of values.
    DuplicateValue,
    /// `C08`: a part begins before the end of the part before it.
    Offset,
    /// `C09`: the stated block length is less than the end of the fields.
    BlockShort,
    /// `C10`: the header type isn't a header.
    BadHeader,
    /// `C11`: the dimension type isn't a dimension.
    BadDimension,
    /// `C12`: the type of a data element isn't a type of data, or that of a field is one.
    BadData,
    /// `C13`: an earlier message, part or member has the same name or id.
    DuplicateName,
    /// `C14`: fields, groups and data aren't in this order.
    Order,
    /// `C15`: the part can't begin at this version.
    Since,
    /// `C16`: entries that may be zero bytes long.
    EmptyGroup,
    /// `C17`: groups or composites are nested too deeply.
    Depth,
    /// `C18`: too many bytes or leaves, or a number that its member can't hold.
    Width,
    /// `C19`: a constant without a value or with two, or a value on something that isn't a constant.
    Presence,
}

/// Why a schema isn't accepted: a rule that it breaks, with the path of the element, or out of memory.
#[derive(Debug, Drop)]
pub enum CheckErr {
    Refused(CCode, Text),
    Memory,
}

impl From<NoMem> for CheckErr {
    ghost use Rattle.schema_rules.specs.declared.codes.CheckErr.TheVariants.{Memory};

    ghost from_gives = { λ _ e. e ≡ Memory };

    fn from(_: NoMem) -> CheckErr {
        CheckErr::Memory
    }
}

/// The classes of a level's parts, in their required order.
#[derive(Clone, Copy, Debug, PartialEq, Eq)]
pub enum PartClass {
    Field,
    Group,
    Data,
}
