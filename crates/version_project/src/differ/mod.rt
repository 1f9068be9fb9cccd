//! The first difference between two schemas.

mod data;
mod fields;
mod found;
mod kinds;
mod leaves;
mod levels;
mod messages;
mod places;

pub(crate) use messages::{message_of, schemas_differ};
