ghost use Rattle.std.specs.Prelude.{◌≡◌, ◌++◌, Err, IfOk};
ghost use Rattle.schema_rules.specs.Judging.{CheckResult, Gives, refuse, at_element};

use lists::{List, NoMem, Text};
use schema_rules::{CCode, CheckErr};
use std::alloc::Global;

/// A refusal with this code, at the current element.
pub fn refuse<T>(alloc: Global, code: CCode) -> Result<T, CheckErr>
    ensures { Gives result (refuse code) }
{
    Err(CheckErr::Refused(code, List::new(alloc)))
}

/// The refusal of the element with this name, with `front` and the name put before its path.
pub fn at_element(alloc: Global, front: &str, name: &[u8], err: CheckErr) -> CheckErr
    ensures { (told : CheckResult (Unit {0})) → Gives {X = Unit {0}} (Err err) told → Gives {X = Unit {0}} (Err result) (at_element front.now name.now told) }
{
    match err {
        CheckErr::Memory => CheckErr::Memory,
        CheckErr::Refused(code, path) => match path_of(alloc, front, name, path.as_slice()) {
            Ok(path) => CheckErr::Refused(code, path),
            Err(_) => CheckErr::Memory,
        },
    }
}

fn path_of(alloc: Global, front: &str, name: &[u8], path: &[u8]) -> Result<Text, NoMem>
    ensures { IfOk result (λ text. text ≡ front.now ++ name.now ++ path.now) }
{
    let mut text = List::from_slice(alloc, front.as_bytes())?;
    text.extend(name)?;
    text.extend(path)?;
    Ok(text)
}
