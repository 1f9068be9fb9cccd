// The values that are read from texts.
ghost use Rattle.std.specs.Prelude.{◌≡◌, ◌∷◌, [], IfOk};
ghost use Rattle.bridge_rules.specs.Members.{decimal_value, number_or_null, two_members};
ghost use Rattle.sbe_types.specs.declared.message.Value.{Comp};
ghost use Rattle.text_values.specs.Read.{value_of_read};

use fix_values::V;
use lists::{List, NoMem};
use sbe_types::Value;
use std::alloc::Global;
use thiserror::Error;

/// The value that was read from a text, or the value of a part without a field.
#[derive(Clone, Copy)]
pub enum ReadValue<'a> {
    /// A number, or null.
    Number(Option<i128>),
    /// A valid value of an enum.
    Listed(i128),
    /// The bits of a set.
    Choices(u64),
    /// A text.
    Text(&'a [u8]),
    /// A composite of a number, or null, and a constant.
    Scaled(Option<i128>),
    /// A composite of two numbers, each of which may be null.
    Pair(Option<i128>, Option<i128>),
    /// A composite of a year, a month, a day and a week, each of which may be null.
    Month(Option<i128>, Option<i128>, Option<i128>, Option<i128>),
    /// The value that is fixed by the schema.
    Constant,
}

/// Why a text isn't the value of its part.
#[derive(Clone, Copy, Debug, PartialEq, Eq, Drop, Error)]
pub enum Misread {
    /// It can't be read.
    #[error("{0}")]
    NotRead(V),
    /// It is read as another value than that of the constant.
    #[error("not the constant")]
    NotTheConstant,
}

impl ReadValue<'_> {
    /// The value as a tree.
    ///
    /// # Errors
    ///
    /// If memory runs out.
    pub fn value(&self, alloc: Global) -> Result<Value, NoMem>
        ensures { IfOk result (λ v. v ≡ value_of_read self.now) }
    {
        match self {
            ReadValue::Number(n) => Ok(number_value(*n)),
            ReadValue::Listed(n) => Ok(Value::Enum(*n)),
            ReadValue::Choices(bits) => Ok(Value::Set(*bits)),
            ReadValue::Text(text) => Ok(Value::Text(List::from_slice(alloc, text)?)),
            ReadValue::Scaled(n) => pair_value(alloc, number_value(*n), Value::Const),
            ReadValue::Pair(n, m) => pair_value(alloc, number_value(*n), number_value(*m)),
            ReadValue::Month(year, month, day, week) => {
                month_value(alloc, *year, *month, *day, *week)
            }
            ReadValue::Constant => Ok(Value::Const),
        }
    }
}

/// A number, or null.
fn number_value(n: Option<i128>) -> Value
    ensures { result ≡ number_or_null n }
{
    match n {
        None => Value::Null,
        Some(n) => Value::Num(n),
    }
}

/// A composite of two values.
fn pair_value(alloc: Global, first: Value, second: Value) -> Result<Value, NoMem>
    ensures { IfOk result (λ v. v ≡ two_members first second) }
{
    let mut members = List::new(alloc);
    members.push(first)?;
    members.push(second)?;
    Ok(Value::Comp(members))
}

/// A composite of a year, a month, a day and a week.
fn month_value(
    alloc: Global,
    year: Option<i128>,
    month: Option<i128>,
    day: Option<i128>,
    week: Option<i128>,
) -> Result<Value, NoMem>
    ensures { IfOk result (λ v. v ≡ Comp (number_or_null year ∷ number_or_null month ∷ number_or_null day ∷ number_or_null week ∷ [])) }
{
    let mut members = List::new(alloc);
    members.push(number_value(year))?;
    members.push(number_value(month))?;
    members.push(number_value(day))?;
    members.push(number_value(week))?;
    Ok(Value::Comp(members))
}
