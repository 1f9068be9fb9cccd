//! The plans of a schema's templates by a mapping: for each template the rows of its plan, or the first of its parts that
//! the mapping doesn't cover.
#![tactic(auto)]

mod kinds;
mod making;
mod plan;

pub use making::make_plan;
pub use plan::{Cover, Plan, Template};
