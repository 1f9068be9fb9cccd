use crate::Lead;

/// What is at a place of a level.
#[derive(Drop)]
pub enum Part<R> {
    /// A field, and how its values are written.
    Field(R),
    /// Data: raw if it has a length field, otherwise as a text.
    Data(Option<Lead>),
    /// A group, and how many of the rows after this one belong to its entries.
    Group(usize),
}

/// A place of a level: its tag, its number among the level's fields, data or groups, and what is there.
#[derive(Drop)]
pub struct PlanRow<R> {
    pub lead: Lead,
    pub number: usize,
    pub part: Part<R>,
}
