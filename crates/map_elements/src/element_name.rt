ghost use Rattle.std.specs.Prelude.{◌≡◌};
ghost use Rattle.map_elements.specs.Names.{element_of};

/// The name of an element of a mapping.
#[derive(Clone, Copy, Debug, PartialEq, Eq)]
pub enum ElementName {
    Repository,
    Datatypes,
    Datatype,
    CodeSets,
    CodeSet,
    Code,
    Fields,
    Field,
    Components,
    Component,
    Groups,
    Group,
    Messages,
    Message,
    Structure,
    NumInGroup,
    FieldRef,
    GroupRef,
    ComponentRef,
    /// None of these elements.
    Other,
}

impl ElementName {
    /// The element with this name, which has no prefix.
    pub fn of(name: &str) -> ElementName
        ensures { result ≡ element_of name.now }
    {
        match name {
            "repository" => ElementName::Repository,
            "datatypes" => ElementName::Datatypes,
            "datatype" => ElementName::Datatype,
            "codeSets" => ElementName::CodeSets,
            "codeSet" => ElementName::CodeSet,
            "code" => ElementName::Code,
            "fields" => ElementName::Fields,
            "field" => ElementName::Field,
            "components" => ElementName::Components,
            "component" => ElementName::Component,
            "groups" => ElementName::Groups,
            "group" => ElementName::Group,
            "messages" => ElementName::Messages,
            "message" => ElementName::Message,
            "structure" => ElementName::Structure,
            "numInGroup" => ElementName::NumInGroup,
            "fieldRef" => ElementName::FieldRef,
            "groupRef" => ElementName::GroupRef,
            "componentRef" => ElementName::ComponentRef,
            _ => ElementName::Other,
        }
    }
}
