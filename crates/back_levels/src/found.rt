use field_judge::BackRow;

/// What a level has for a tag.
#[derive(Drop)]
pub(crate) enum Found {
    /// No such part.
    Nothing,
    Row(BackRow),
    /// A part whose row can't be made, since its codes aren't those of a valid mapping.
    Unmade,
}
