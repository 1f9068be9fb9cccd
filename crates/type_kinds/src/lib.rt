//! The kinds that the types of a schema stand for: of fields and composites, resolved, and of the counters in headers,
//! dimensions and data; which kinds are equal, and how wide each one is.
#![tactic(auto)]

mod counters;
mod kinds;
mod resolver;
mod same_kinds;
mod widths;

pub use counters::{holds, is_data, is_dimension, is_header, leaf_of_member, members_named};
pub use resolver::Resolver;
pub use same_kinds::is_same_kind;
pub use widths::fact_of;
