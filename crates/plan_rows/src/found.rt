use message_walk::PlanRow;

/// What a level has for a tag.
#[derive(Drop)]
pub(crate) enum Found<R> {
    /// There is no such field or data.
    Nothing,
    Row(PlanRow<R>),
    /// There is one, but its row can't be made: its tag can't be that of an application's field, or its rule
    /// contradicts the length fields of the mapping.
    Unmade,
}
