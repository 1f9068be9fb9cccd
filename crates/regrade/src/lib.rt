//! Messages of one version of a schema, rewritten in another version: with the parts that the other version has, the
//! missing ones filled with empty values, and both counted.
#![tactic(auto)]

mod dropping;
mod filler;
mod filling;
mod fills;
mod lifting;
mod regrading;
mod templates;
mod values;
mod ways;

pub use regrade_laws::Way;
pub use regrading::{RegradeErr, Regraded, regrade};
pub use ways::{WayErr, way_of};
