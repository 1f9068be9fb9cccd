//! Layouts: the offsets, widths and floors of a schema in flat tables.
#![tactic(auto)]

mod below;
mod entries;
mod heads;
mod kinds;
pub mod laws;
mod layout;
mod parts;
mod rows;
pub mod worked;

pub use heads::{number_at, small_number};
pub use kinds::member_place;
pub use layout::{Layout, of_tables};
pub use rows::{
    DimRow, FieldRow, HeaderRow, LevelRow, PartPlace, PartRow, SpotRow, Tables, floor_of,
};
