//! Small uses of the library, for those who embed it: a schema file is loaded; a field is summed over the entries of a
//! group, from the bytes; the last price of a feed's message is found by names; an order is written part by part; the
//! template of a line of JSON is found.
#![tactic(auto)]

mod bodies;
mod lines;
mod orders;
mod prices;
mod schemas;
mod sums;

pub use bodies::{BodyErr, body_of_line};
pub use lines::template_of;
pub use orders::{Order, OrderErr, write_order};
pub use prices::last_price;
pub use schemas::{LoadErr, load};
pub use sums::{SumErr, sum_entries};
