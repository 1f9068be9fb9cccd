ghost use Rattle.std.specs.Prelude.{◌≡◌, ◌++◌, codes, decimal, IfOk};
ghost use Rattle.map_rules.specs.Verdicts.{first_broken, path_of, member_verdict, Answers};

use itoa::Buffer;
use lists::{List, NoMem, Text};
use map_types::{MCode, MapErr};
use std::alloc::Global;

/// A rule, and whether it is broken.
#[derive(Clone, Copy, Debug, PartialEq, Eq)]
pub struct Rule {
    /// The code with which it is refused.
    pub code: MCode,
    pub broken: bool,
}

/// The code of the first rule that is broken.
pub fn first_broken(rules: &[Rule]) -> Option<MCode>
    ensures { result ≡ first_broken rules.now }
{
    for rule in rules {
        if rule.broken {
            return Some(rule.code);
        }
    }
    None
}

/// Refuses the member at an index of a list, if it breaks a rule.
pub fn refuse_at(alloc: Global, list: &str, i: usize, broken: Option<MCode>) -> Result<(), MapErr>
    ensures { Answers result (member_verdict list.now i broken) }
{
    match broken {
        None => Ok(()),
        Some(code) => Err(MapErr::Refused(code, path_of(alloc, list, i)?)),
    }
}

/// The list and the position.
fn path_of(alloc: Global, list: &str, i: usize) -> Result<Text, NoMem>
    ensures { IfOk result (λ text. text ≡ path_of list.now i) }
{
    let mut text = List::from_slice(alloc, list.as_bytes())?;
    text.push(b'/')?;
    text.extend(Buffer::new().format(i as u64).as_bytes())?;
    Ok(text)
}
