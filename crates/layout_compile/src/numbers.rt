// Data parts by number.
ghost use Rattle.std.specs.Prelude.{◌≡◌, ◌≤◌, ◌^◌, ◌++◌, length, map, IfSome, IfNone, IfOk, OnOk};
ghost use Rattle.layout_tables.specs.Parts.{firsts_from, places_from, places_in};

use layout_tables::{LevelRow, PartPlace};
use sbe_types::NoMem;
use std::alloc::Global;

/// The number of each level's first data part.
pub(crate) fn firsts_of(alloc: Global, levels: &[LevelRow]) -> Result<Vec<usize>, NoMem>
    ensures { IfOk result (λ firsts. firsts.items ≡ firsts_from 0 (map (λ row. length row.parts.items) levels.now)) }
{
    let mut firsts = Vec::new(alloc);
    let mut before = 0usize;
    for row in levels {
        firsts.push(before)?;
        let Some(next) = before.checked_add(row.parts.len()) else {
            return Err(NoMem);
        };
        before = next;
    }
    Ok(firsts)
}

/// The location of each data part.
pub(crate) fn places_of(alloc: Global, levels: &[LevelRow]) -> Result<Vec<PartPlace>, NoMem>
    ensures { IfOk result (λ places. places.items ≡ places_from 0 (map (λ row. length row.parts.items) levels.now)) }
{
    let mut places = Vec::new(alloc);
    for (level, row) in levels.iter().enumerate() {
        let Some(number) = narrowed(level) else {
            return Err(NoMem);
        };
        let Some(many) = narrowed(row.parts.len()) else {
            return Err(NoMem);
        };
        push_places(&mut places, number, many)?;
    }
    Ok(places)
}

/// Adds the locations of a level's data parts.
fn push_places(places: &mut Vec<PartPlace>, level: u32, many: u32) -> Result<(), NoMem>
    ensures { OnOk result (places.new.items ≡ places.old.items ++ places_in level 0 many) }
{
    for part in 0..many {
        places.push(PartPlace { level, part })?;
    }
    Ok(())
}

/// The number in 32 bits, or `None` if it doesn't fit.
pub(crate) fn narrowed(n: usize) -> Option<u32>
    ensures same { IfSome result (λ m. m ≡ n) }
    ensures none { IfNone result (2 ^ 32 ≤ n) }
{
    if n > u32::MAX as usize {
        return None;
    }
    Some(n as u32)
}
