//! Laws of the definitions, stated as functions without a body.

ghost use Rattle.misfit_laws.specs.Misfits.{MisfitsHaveWays, WantIsNear, WantIsOfAll, WantIsSmall};

/// If a checked schema has a message's template, the path of the message's misfit leads from the root of that template
/// to one of its parts.
pub fn misfits_have_ways()
    ensures { MisfitsHaveWays }
{}

/// A body that is too long (N08) is reported for the whole body, without a path. The reported number of bytes exceeds
/// the limit, by less than one part may have.
pub fn lack_of_room_is_near()
    ensures all { WantIsOfAll }
    ensures near { WantIsNear }
    ensures small { WantIsSmall }
{}
