// The values of constants.
ghost use Rattle.std.specs.Prelude.{◌≡◌, Ok, Err, if◌then◌else◌};
ghost use Rattle.sbe_types.specs.declared.message.Value as values;
ghost use Rattle.bridge_rules.specs.Values.{if_constant, not_the_constant, value_from};
ghost use Rattle.text_values.specs.Read.{answer_of_read};
ghost use Rattle.text_values.specs.Rows.{const_value};

use crate::given::not_read;
use crate::making::every_number;
use crate::moments::judged_day;
use crate::reading::Reading;
use crate::row::ConstValue;
use crate::value::{Misread, ReadValue};
use fix_values::V;
use sbe_types::{Leaf, Prim};

/// The value of a constant, if the text is read as that constant.
pub(crate) fn constant_in<'a>(own: &ConstValue, text: &'a [u8]) -> Result<ReadValue<'a>, Misread>
    ensures { answer_of_read result ≡ const_value own.now text.now }
{
    match own {
        ConstValue::Text(own) => constant_if(own.as_slice() == text),
        ConstValue::Number(rule, leaf, own) => same_number(*own, rule.number(leaf, text)),
        ConstValue::Day(own) => same_number(*own, judged_day(&every_number(Prim::I64), text)),
        ConstValue::Listed(rule, leaf, own) => same_listed(*own, rule.number(leaf, text)),
    }
}

/// The constant, or that the text is read as another value.
fn constant_if<'a>(same: bool) -> Result<ReadValue<'a>, Misread>
    ensures { answer_of_read result ≡ (if same then Ok values.Const else Err not_the_constant) }
{
    if same {
        return Ok(ReadValue::Constant);
    }
    Err(Misread::NotTheConstant)
}

fn same_number<'a>(own: i128, read: Result<i128, V>) -> Result<ReadValue<'a>, Misread>
    ensures { answer_of_read result ≡ if_constant (values.Num own) (value_from values.Num read) }
{
    match read {
        Ok(n) => constant_if(own == n),
        Err(why) => not_read(why),
    }
}

fn same_listed<'a>(own: i128, read: Result<i128, V>) -> Result<ReadValue<'a>, Misread>
    ensures { answer_of_read result ≡ if_constant (values.Enum own) (value_from values.Enum read) }
{
    match read {
        Ok(n) => constant_if(own == n),
        Err(why) => not_read(why),
    }
}
