ghost use Rattle.std.specs.Prelude.{◌≡◌};
ghost use Rattle.map_rules.specs.Datatypes.{is_one_of, is_standard, is_int_type, is_decimal_type, is_text_type, is_time_type, is_other_type};

/// Whether a name is that of a datatype of FIX that a mapping need not declare.
pub fn is_standard(name: &[u8]) -> bool
    ensures { result ≡ is_standard name.now }
{
    is_int_type(name)
        || (is_decimal_type(name)
            || (is_text_type(name) || (is_time_type(name) || is_other_type(name))))
}

fn is_int_type(name: &[u8]) -> bool
    ensures { result ≡ is_int_type name.now }
{
    name == "int".as_bytes()
        || name == "Length".as_bytes()
        || name == "NumInGroup".as_bytes()
        || name == "SeqNum".as_bytes()
}

fn is_decimal_type(name: &[u8]) -> bool
    ensures { result ≡ is_decimal_type name.now }
{
    name == "Price".as_bytes()
        || name == "Qty".as_bytes()
        || name == "Amt".as_bytes()
        || name == "PriceOffset".as_bytes()
        || name == "Percentage".as_bytes()
        || name == "float".as_bytes()
}

fn is_text_type(name: &[u8]) -> bool
    ensures { result ≡ is_text_type name.now }
{
    name == "char".as_bytes()
        || name == "Boolean".as_bytes()
        || name == "String".as_bytes()
        || name == "Currency".as_bytes()
        || name == "Country".as_bytes()
        || name == "Exchange".as_bytes()
        || name == "MultipleCharValue".as_bytes()
        || name == "data".as_bytes()
}

fn is_time_type(name: &[u8]) -> bool
    ensures { result ≡ is_time_type name.now }
{
    name == "UTCTimestamp".as_bytes()
        || name == "UTCTimeOnly".as_bytes()
        || name == "UTCDateOnly".as_bytes()
        || name == "LocalMktDate".as_bytes()
        || name == "MonthYear".as_bytes()
        || name == "DayOfMonth".as_bytes()
        || name == "TZTimeOnly".as_bytes()
        || name == "TZTimestamp".as_bytes()
}

fn is_other_type(name: &[u8]) -> bool
    ensures { result ≡ is_other_type name.now }
{
    name == "Language".as_bytes()
        || name == "XMLData".as_bytes()
        || name == "MultipleStringValue".as_bytes()
}
