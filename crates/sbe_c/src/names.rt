//! Parts of a schema by their names.
ghost use Rattle.std.specs.Prelude.{◌≡◌, Some};
ghost use Rattle.sbe_c.specs.Naming.{sort_numbered, AnswersPart};

use crate::answers::Answer;
use crate::opened::Opened;
use field_lookup::{Part, Sort, find_part};
use layout_names::LayoutNames;
use std::alloc::Global;

/// The numbers of the sorts of parts.
const MESSAGE: u32 = 0;

const FIELD: u32 = 1;

const GROUP: u32 = 2;

const DATA: u32 = 3;

/// Finds a message, or a part of a level, by its name.
pub fn part_in(
    alloc: Global,
    opened: &Opened,
    sort: u32,
    level: usize,
    name: &[u8],
    part: &mut Part,
) -> Answer
    ensures { AnswersPart result (Some opened.now) (record { sort = sort; level = level; name = name.now }) part.new }
{
    let Some(sort) = sort_numbered(sort) else {
        return Answer::Absent;
    };
    let layout = opened.layout();
    let Ok(names) = LayoutNames::new(alloc, layout) else {
        return Answer::Memory;
    };
    match find_part(layout, &names, sort, level, name) {
        Some(found) => {
            *part = found;
            Answer::Done
        }
        None => Answer::Absent,
    }
}

/// The sort of this number.
fn sort_numbered(number: u32) -> Option<Sort>
    ensures { result ≡ sort_numbered number }
{
    if number == MESSAGE {
        return Some(Sort::Message);
    }
    if number == FIELD {
        return Some(Sort::Field);
    }
    if number == GROUP {
        return Some(Sort::Group);
    }
    if number == DATA {
        return Some(Sort::Data);
    }
    None
}
