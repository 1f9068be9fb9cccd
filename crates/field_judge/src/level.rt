// The levels of a structure.
ghost use Rattle.std.specs.Prelude.{◌≡◌, ◌<◌, length, IfSome};
ghost use Rattle.id_tables.specs.Places.{place_of};

use id_tables::IdTable;
use lists::List;
use sbe_types::Leaf;
use text_values::TextValue;

/// A group of the template.
#[derive(Drop)]
pub struct BackGroup {
    /// The tag that begins each entry.
    pub delimiter: u32,
    /// The type of its count.
    pub count: Leaf,
    /// All tags that belong to it, including those of nested groups.
    pub owned: IdTable,
    /// The number of the level of its entries.
    pub level: usize,
}

/// What is at a place of a level.
#[derive(Drop)]
pub enum BackPart {
    /// A field or data, and how its texts are read.
    Value(TextValue),
    /// A group.
    Group(BackGroup),
}

/// A place of a level, in the order of the structure.
#[derive(Drop)]
pub struct BackRow {
    pub tag: u32,
    pub part: BackPart,
}

/// A level: the tags of its parts, and its rows in the same order.
#[derive(Drop)]
pub struct BackLevel {
    pub tags: IdTable,
    pub rows: List<BackRow>,
}

/// The index of a tag among the rows of a level.
pub fn place_in(level: &BackLevel, tag: u32) -> Option<usize>
    ensures within { IfSome result (λ k. k < length level.now.rows) }
    ensures place { length level.now.tags ≡ length level.now.rows → result ≡ place_of tag level.now.tags }
{
    match level.tags.place(tag) {
        None => None,
        Some(place) => {
            if place >= level.rows.len() {
                return None;
            }
            Some(place)
        }
    }
}
