ghost use Rattle.std.specs.Prelude.{◌≡◌};
ghost use Rattle.sbe_schema.specs.Forms.{element_of};

/// The name of an element.
#[derive(Clone, Copy, Debug, PartialEq, Eq)]
pub enum ElementName {
    MessageSchema,
    Types,
    Type,
    Composite,
    Enum,
    ValidValue,
    Set,
    Choice,
    Ref,
    Message,
    Field,
    Group,
    Data,
    /// Not an element of a schema.
    Other,
}

impl ElementName {
    /// The element with this name, which has no prefix.
    pub fn of(name: &str) -> ElementName
        ensures { result ≡ element_of name.now }
    {
        match name {
            "messageSchema" => ElementName::MessageSchema,
            "types" => ElementName::Types,
            "type" => ElementName::Type,
            "composite" => ElementName::Composite,
            "enum" => ElementName::Enum,
            "validValue" => ElementName::ValidValue,
            "set" => ElementName::Set,
            "choice" => ElementName::Choice,
            "ref" => ElementName::Ref,
            "message" => ElementName::Message,
            "field" => ElementName::Field,
            "group" => ElementName::Group,
            "data" => ElementName::Data,
            _ => ElementName::Other,
        }
    }
}
