// How a number is read.
ghost use Rattle.std.specs.Prelude.{◌≡◌, ◌<◌, ◌^◌, false, true, IfSome, is_some};
ghost use Rattle.sbe_types.specs.Numbers.{natural};
ghost use Rattle.fix_values.specs.declared.rule.NumRule.TheVariants as rules;
ghost use Rattle.bridge_rules.specs.Values.{value_from};
ghost use Rattle.sbe_types.specs.declared.message.Value as values;
ghost use Rattle.text_values.specs.Rows.{any_leaf, given};
ghost use Rattle.text_values.specs.Sets.{is_set};
ghost use Rattle.fix_values.specs.Values.{can_read, value_of};

use crate::making::every_number;
use fix_values::{CodeList, NumRule, V, read_num};
use sbe_types::{Leaf, Prim};
use std::marker::Model;

/// A rule by which numbers can be read.
#[derive(Drop)]
pub struct Reading {
    rule: NumRule,
}

impl Model for Reading {
    ghost use Rattle.std.specs.Prelude.{◌≡◌, true};
    ghost use Rattle.fix_values.specs.declared.rule.NumRule.{NumRule as AnyRule};
    ghost use Rattle.fix_values.specs.Values.{can_read};

    ghost Value = { AnyRule };

    ghost view = { λ reading. reading.rule };

    ghost invariant = { λ reading. can_read reading.rule ≡ true };
}

impl Reading {
    /// Wraps a rule. `None` if numbers can't be read by it.
    pub fn new(rule: NumRule) -> Option<Reading>
        ensures same { IfSome result (λ reading. reading ≡ rule) }
        ensures some { is_some result ≡ can_read rule }
    {
        if rule.can_read() {
            return Some(Reading { rule });
        }
        None
    }

    /// Reads a number, as one of the leaf's.
    pub(crate) fn number(&self, leaf: &Leaf, text: &[u8]) -> Result<i128, V>
        ensures { result ≡ value_of self.now leaf.now text.now }
    {
        read_num(&self.rule, leaf, text)
    }
}

/// The rule of a set by which its choices can be read.
#[derive(Drop)]
pub struct ChoiceReading {
    rule: NumRule,
}

impl Model for ChoiceReading {
    ghost use Rattle.std.specs.Prelude.{◌≡◌, true};
    ghost use Rattle.fix_values.specs.declared.rule.NumRule.{NumRule as AnyRule};
    ghost use Rattle.fix_values.specs.Values.{can_read};
    ghost use Rattle.text_values.specs.Sets.{is_set};

    ghost Value = { AnyRule };

    ghost view = { λ reading. reading.rule };

    ghost invariant = { λ reading. (can_read reading.rule ≡ true) × (is_set reading.rule ≡ true) };
}

impl ChoiceReading {
    /// Creates the rule from the codes of a set. `None` if choices can't be read by them.
    pub fn new(codes: CodeList) -> Option<ChoiceReading>
        ensures same { IfSome result (λ reading. reading ≡ rules.Codes codes) }
        ensures some { is_some result ≡ can_read (rules.Codes codes) }
    {
        let rule = NumRule::Codes(codes);
        if rule.can_read() {
            return Some(ChoiceReading { rule });
        }
        None
    }

    /// Reads the bits of the choices.
    pub(crate) fn bits(&self, text: &[u8]) -> Result<u64, V>
        requires { given false text.now ≡ true }
        ensures { value_from values.Set result ≡ value_from (λ n. values.Set (natural n)) (value_of self.now any_leaf text.now) }
    {
        match read_num(&self.rule, &every_number(Prim::I64), text) {
            Ok(n) => Ok(bits_of(n)),
            Err(why) => Err(why),
        }
    }
}

/// A number of 64 bits.
fn bits_of(n: i128) -> u64
    requires small { natural n < 2 ^ 64 }
    ensures { result ≡ natural n }
{
    if n < 0 {
        return 0;
    }
    n as u64
}
