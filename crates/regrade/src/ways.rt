ghost use Rattle.regrade.specs.Ways.{GivesUnless, GivesWay};
ghost use Rattle.regrade_laws.specs.Regraded.{way_of};

use lists::{NoMem, Text};
use regrade_laws::Way;
use schema_check::Checked;
use std::alloc::Global;
use version_project::{Compat, extends};

/// Why messages can't be rewritten from one schema to another.
#[derive(Drop)]
pub enum WayErr {
    /// The later schema doesn't extend the earlier one: the path of the first difference.
    NotAnExtension(Text),
    /// Out of memory.
    Memory,
}

/// Which of two schemas is the later one, if it extends the earlier one.
///
/// # Errors
///
/// `NotAnExtension` exactly if it doesn't, and `Memory` if memory runs out.
pub fn way_of(alloc: Global, from: &Checked, to: &Checked) -> Result<Way, WayErr>
    ensures { GivesWay result (way_of from.now to.now) }
{
    if from.version() <= to.version() {
        way_by(Way::Up, extends(alloc, from, to))
    } else {
        way_by(Way::Down, extends(alloc, to, from))
    }
}

/// The direction, unless the later schema differs.
fn way_by(way: Way, answer: Result<Compat, NoMem>) -> Result<Way, WayErr>
    ensures { GivesUnless result way answer }
{
    match answer {
        Ok(Compat::TwoWay) | Ok(Compat::OneWay(_)) => Ok(way),
        Ok(Compat::No(path, _)) => Err(WayErr::NotAnExtension(path)),
        Err(_) => Err(WayErr::Memory),
    }
}
