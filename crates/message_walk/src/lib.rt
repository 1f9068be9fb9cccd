//! Writes the fields of a message, by a walk over the rows of a plan and over the view of the message.
//!
//! A row is a place of a level: its tag, and what is there. Rows are in the order of the mapped structure, and those of
//! a group's entries follow the group's own. The rows determine how a value becomes a text (`PutValue`).
#![tactic(auto)]

mod data;
mod halt;
mod lead;
mod message;
mod places;
mod plan;
mod put;
mod reached;
mod trail;
mod walk;

pub use data::put_judged;
pub use halt::{Cause, Halt};
pub use lead::Lead;
pub use message::put_message;
pub use plan::{Part, PlanRow};
pub use put::{Put, PutValue, put_front, put_text};
pub use trail::{Trail, WayStep};
pub use walk::put_rows;
