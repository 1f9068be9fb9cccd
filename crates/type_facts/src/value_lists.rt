ghost use Rattle.std.specs.Prelude.{◌≡◌, map, IfOk};
ghost use Rattle.schema_rules.specs.Kinds.{valid_value, choice};

use crate::numbers::{bit_number, value_number};
use lists::{List, NoMem};
use sbe_types::{ChoiceEl, Named, NamedList, Prim, ValidValueEl};
use std::alloc::Global;

/// The valid values of an enum with this primitive, with their numbers.
pub fn valid_values(alloc: Global, prim: Prim, values: &[ValidValueEl]) -> Result<NamedList, NoMem>
    ensures { IfOk result (λ named. named ≡ map (valid_value prim) values.now) }
{
    let mut named = List::new(alloc);
    for value in values {
        named.push(valid_value(alloc, prim, value)?)?;
    }
    Ok(named)
}

/// A valid value of an enum with this primitive, with its number.
pub fn valid_value(alloc: Global, prim: Prim, value: &ValidValueEl) -> Result<Named, NoMem>
    ensures { IfOk result (λ named. named ≡ valid_value prim value.now) }
{
    Ok(Named {
        name: List::from_slice(alloc, value.name.as_slice())?,
        number: value_number(prim, value.text.as_slice()).unwrap_or(0),
    })
}

/// The choices of a set with this primitive, with their bits.
pub fn choices(alloc: Global, prim: Prim, choices: &[ChoiceEl]) -> Result<NamedList, NoMem>
    ensures { IfOk result (λ named. named ≡ map (choice prim) choices.now) }
{
    let mut named = List::new(alloc);
    for item in choices {
        named.push(choice(alloc, prim, item)?)?;
    }
    Ok(named)
}

fn choice(alloc: Global, prim: Prim, chosen: &ChoiceEl) -> Result<Named, NoMem>
    ensures { IfOk result (λ named. named ≡ choice prim chosen.now) }
{
    Ok(Named {
        name: List::from_slice(alloc, chosen.name.as_slice())?,
        number: bit_number(prim, chosen.text.as_slice()).unwrap_or(0),
    })
}
