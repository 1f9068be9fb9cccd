//! The table and the rules, computed on worked rows: for each row of the table a pair that is covered and one that
//! isn't, texts in both directions, and what is refused.

ghost use Rattle.std.specs.Prelude.{◌≡◌, ◌∷◌, [], true, false, pos, negsuc, codes, None, Some, Ok, Err};
ghost use Rattle.fix_values.specs.declared.rule.V.TheVariants.{Spelling, Range, Inexact, Soh, Empty, UnknownCode};
ghost use Rattle.fix_values.specs.Decimals.{dec};
ghost use Rattle.sbe_types.specs.declared.kind.Primitive.TheVariants.{Char, U8};
ghost use Rattle.sbe_types.specs.declared.kind.Presence.TheVariants.{Required, Optional};
ghost use Rattle.sbe_types.specs.declared.kind.Kind.{Leaf};
ghost use Rattle.sbe_types.specs.declared.message.Value as value;
ghost use Rattle.sbe_types.specs.declared.schema.DataField.{DataField};
ghost use Rattle.bridge_rules.specs.Members.{decimal_value, two_members};
ghost use Rattle.bridge_rules.specs.Values.{not_read, not_the_constant};
ghost use Rattle.bridge_rules.specs.Items.{number, instant};
ghost use Rattle.bridge_rules.specs.Datatypes.{whole_number, decimal_number, character, text, boolean, timestamp};
ghost use Rattle.bridge_rules.specs.Datatypes.{time_of_day, calendar_day, month_of_year, raw, code_set};
ghost use Rattle.bridge_rules.specs.Datatypes.{character_set, unbridged};
ghost use Rattle.bridge_rules.specs.Rows.{is_covered, shows, reads, lacks, item_of_text, int32, int8, uint8, uint16};
ghost use Rattle.bridge_rules.specs.Rows.{uint64, one_char, text4, decimal, time, longer, month, constant_number};
ghost use Rattle.bridge_rules.specs.Rows.{constant_text, constant_code, code, side, lettered, counted, twice_true};
ghost use Rattle.bridge_rules.specs.Rows.{truth, flags, pair, four};

/// An integer.
pub fn integer_rows()
    ensures covered { is_covered (Leaf (int32 Required)) whole_number ≡ true }
    ensures uncovered { is_covered (Leaf (int32 Required)) boolean ≡ false }
    ensures text { shows (Leaf (int32 Required)) whole_number (value.Num (negsuc 4)) ≡ Some (Ok (Some (codes "-5"))) }
    ensures null { shows (Leaf (int32 Optional)) whole_number value.Null ≡ Some (Ok None) }
    ensures read { reads (Leaf (int32 Required)) whole_number (codes "007") ≡ Some (Ok (value.Num (pos 7))) }
    ensures signed { reads (Leaf (int32 Required)) whole_number (codes "+1") ≡ Some (Err (not_read Spelling)) }
    ensures large { reads (Leaf (int32 Required)) whole_number (codes "2147483648") ≡ Some (Err (not_read Range)) }
    ensures missing { lacks (Leaf (int32 Optional)) whole_number ≡ Some (Some value.Null) }
    ensures required { lacks (Leaf (int32 Required)) whole_number ≡ Some None }
{}

/// An integer among decimals, and among days.
pub fn counted_rows()
    ensures decimal { is_covered (Leaf (int32 Required)) decimal_number ≡ true }
    ensures letter { is_covered (Leaf (one_char Required)) decimal_number ≡ false }
    ensures whole { reads (Leaf (int32 Required)) decimal_number (codes "12.0") ≡ Some (Ok (value.Num (pos 12))) }
    ensures half { reads (Leaf (int32 Required)) decimal_number (codes "12.5") ≡ Some (Err (not_read Inexact)) }
    ensures day { is_covered (Leaf uint16) calendar_day ≡ true }
    ensures moment { is_covered (Leaf uint16) timestamp ≡ false }
    ensures shown { shows (Leaf uint16) calendar_day (value.Num (pos 1)) ≡ Some (Ok (Some (codes "19700102"))) }
    ensures no_day { reads (Leaf uint16) calendar_day (codes "19700230") ≡ Some (Err (not_read Range)) }
{}

/// A decimal with a constant exponent.
pub fn fixed_decimal_rows()
    ensures covered { is_covered (decimal (Leaf (int32 Required)) (constant_number (negsuc 1))) decimal_number ≡ true }
    ensures uncovered { is_covered (decimal (constant_number (pos 1)) (constant_number (negsuc 1))) decimal_number ≡ false }
    ensures named { is_covered (decimal (Leaf (int32 Required)) (constant_code U8 (codes "Two") 2)) decimal_number ≡ false }
    ensures text { shows (decimal (Leaf (int32 Required)) (constant_number (negsuc 1))) decimal_number
        (pair (value.Num (pos 12300)) value.Const) ≡ Some (Ok (Some (codes "123"))) }
    ensures read { reads (decimal (Leaf (int32 Required)) (constant_number (negsuc 1))) decimal_number (codes "123.45")
        ≡ Some (Ok (decimal_value (value.Num (pos 12345)))) }
    ensures inexact { reads (decimal (Leaf (int32 Required)) (constant_number (negsuc 1))) decimal_number (codes "123.456")
        ≡ Some (Err (not_read Inexact)) }
    ensures far { shows (decimal (Leaf (int32 Required)) (constant_number (negsuc 18))) decimal_number
        (pair (value.Num (pos 1)) value.Const) ≡ Some (Err Range) }
    ensures missing { lacks (decimal (Leaf (int32 Optional)) (constant_number (negsuc 1))) decimal_number
        ≡ Some (Some (decimal_value value.Null)) }
{}

/// A decimal with its exponent in the message.
pub fn floating_decimal_rows()
    ensures covered { is_covered (decimal (Leaf (int32 Required)) (Leaf (int8 Required))) decimal_number ≡ true }
    ensures whole { is_covered (decimal (Leaf (int32 Required)) (Leaf (int8 Required))) whole_number ≡ false }
    ensures longer { is_covered longer decimal_number ≡ false }
    ensures text { shows (decimal (Leaf (int32 Required)) (Leaf (int8 Required))) decimal_number
        (pair (value.Num (pos 15)) (value.Num (pos 2))) ≡ Some (Ok (Some (codes "1500"))) }
    ensures read { reads (decimal (Leaf (int32 Required)) (Leaf (int8 Required))) decimal_number (codes "1500")
        ≡ Some (Ok (two_members (value.Num (pos 15)) (value.Num (pos 2)))) }
    ensures far { shows (decimal (Leaf (int32 Required)) (Leaf (int8 Required))) decimal_number
        (pair (value.Num (pos 1)) (value.Num (pos 19))) ≡ Some (Err Range) }
    ensures without { shows (decimal (Leaf (int32 Required)) (Leaf (int8 Optional))) decimal_number
        (pair (value.Num (pos 1)) value.Null) ≡ Some (Err Range) }
    ensures missing { lacks (decimal (Leaf (int32 Optional)) (Leaf (int8 Required))) decimal_number
        ≡ Some (Some (two_members value.Null (value.Num (pos 0)))) }
{}

/// A char, and a char array.
pub fn text_rows()
    ensures char { is_covered (Leaf (one_char Required)) character ≡ true }
    ensures char_text { is_covered (Leaf (one_char Required)) text ≡ true }
    ensures char_number { is_covered (Leaf (one_char Required)) whole_number ≡ false }
    ensures byte { shows (Leaf (one_char Required)) character (value.Num (pos 65)) ≡ Some (Ok (Some (codes "A"))) }
    ensures soh { shows (Leaf (one_char Required)) character (value.Num (pos 1)) ≡ Some (Err Spelling) }
    ensures two { reads (Leaf (one_char Required)) text (codes "AB") ≡ Some (Err (not_read Spelling)) }
    ensures array { is_covered (Leaf (text4 Required)) text ≡ true }
    ensures array_char { is_covered (Leaf (text4 Required)) character ≡ false }
    ensures array_data { is_covered (Leaf (text4 Required)) raw ≡ false }
    ensures empty { shows (Leaf (text4 Required)) text (value.Text []) ≡ Some (Err Empty) }
    ensures long { reads (Leaf (text4 Required)) text (codes "ABCDE") ≡ Some (Err (not_read Range)) }
    ensures bad { reads (Leaf (text4 Required)) text (65 ∷ 200 ∷ []) ≡ Some (Err (not_read Spelling)) }
{}

/// An enum of a code set: a code by the name of its value, otherwise by the text of the number.
pub fn enum_code_rows()
    ensures covered { is_covered side (code_set (code (codes "Buy") (codes "B") ∷ [])) ≡ true }
    ensures decimal { is_covered side decimal_number ≡ false }
    ensures one_text { is_covered side (code_set (code (codes "Buy") (codes "2") ∷ [])) ≡ false }
    ensures by_name { shows side (code_set (code (codes "Buy") (codes "B") ∷ [])) (value.Enum (pos 49)) ≡ Some (Ok (Some (codes "B"))) }
    ensures by_number { shows side (code_set (code (codes "Other") (codes "2") ∷ [])) (value.Enum (pos 50)) ≡ Some (Ok (Some (codes "2"))) }
    ensures without { shows side (code_set (code (codes "Buy") (codes "B") ∷ [])) (value.Enum (pos 50)) ≡ Some (Err UnknownCode) }
    ensures read { reads side (code_set (code (codes "Buy") (codes "B") ∷ [])) (codes "B") ≡ Some (Ok (value.Enum (pos 49))) }
    ensures strange { reads side (code_set (code (codes "Buy") (codes "B") ∷ [])) (codes "1") ≡ Some (Err (not_read UnknownCode)) }
{}

/// An enum among chars, integers and Booleans.
pub fn enum_rows()
    ensures char { shows side character (value.Enum (pos 50)) ≡ Some (Ok (Some (codes "2"))) }
    ensures number { is_covered counted whole_number ≡ true }
    ensures digits { is_covered side whole_number ≡ true }
    ensures letters { is_covered lettered whole_number ≡ false }
    ensures shown { shows counted whole_number (value.Enum (pos 10)) ≡ Some (Ok (Some (codes "10"))) }
    ensures read { reads counted whole_number (codes "5") ≡ Some (Ok (value.Enum (pos 5))) }
    ensures zero { reads counted whole_number (codes "05") ≡ Some (Err (not_read UnknownCode)) }
    ensures yes { reads truth boolean (codes "Y") ≡ Some (Ok (value.Enum (pos 1))) }
    ensures yes_text { shows truth boolean (value.Enum (pos 1)) ≡ Some (Ok (Some (codes "Y"))) }
    ensures other { reads truth boolean (codes "1") ≡ Some (Err (not_read Spelling)) }
    ensures twice { is_covered twice_true boolean ≡ false }
{}

/// A set, and data.
pub fn set_rows()
    ensures covered { is_covered flags (character_set (code (codes "AllOrNone") (codes "G") ∷ code (codes "Held") (codes "5") ∷ [])) ≡ true }
    ensures codes { is_covered flags (code_set (code (codes "AllOrNone") (codes "G") ∷ [])) ≡ false }
    ensures long { is_covered flags (character_set (code (codes "AllOrNone") (codes "G") ∷ code (codes "None") (codes "GG") ∷ [])) ≡ false }
    ensures text { shows flags (character_set (code (codes "AllOrNone") (codes "G") ∷ code (codes "Held") (codes "5") ∷ [])) (value.Set 9)
        ≡ Some (Ok (Some (codes "5 G"))) }
    ensures without { shows flags (character_set (code (codes "AllOrNone") (codes "G") ∷ [])) (value.Set 1) ≡ Some (Err UnknownCode) }
    ensures empty { shows flags (character_set (code (codes "AllOrNone") (codes "G") ∷ [])) (value.Set 0) ≡ Some (Ok None) }
    ensures read { reads flags (character_set (code (codes "AllOrNone") (codes "G") ∷ code (codes "Held") (codes "5") ∷ [])) (codes "G 5")
        ≡ Some (Ok (value.Set 9)) }
    ensures twice { reads flags (character_set (code (codes "AllOrNone") (codes "G") ∷ [])) (codes "G G") ≡ Some (Err (not_read Spelling)) }
    ensures missing { lacks flags (character_set (code (codes "AllOrNone") (codes "G") ∷ [])) ≡ Some (Some (value.Set 0)) }
{}

/// A moment whose unit is a constant, or is in the message.
pub fn moment_rows()
    ensures covered { is_covered (time (Leaf uint64) (constant_number (pos 3))) timestamp ≡ true }
    ensures named { is_covered (time (Leaf uint64) (constant_code U8 (codes "Milli") 3)) time_of_day ≡ true }
    ensures unit { is_covered (time (Leaf uint64) (constant_number (pos 4))) timestamp ≡ false }
    ensures wire { is_covered (time (Leaf uint64) (Leaf (uint8 Required))) timestamp ≡ true }
    ensures optional { is_covered (time (Leaf uint64) (Leaf (uint8 Optional))) timestamp ≡ false }
    ensures text { shows (time (Leaf uint64) (constant_number (pos 3))) timestamp (pair (value.Num (pos 86401500)) value.Const)
        ≡ Some (Ok (Some (codes "19700102-00:00:01.500"))) }
    ensures read { reads (time (Leaf uint64) (constant_number (pos 3))) timestamp (codes "19700102-00:00:01.5")
        ≡ Some (Ok (two_members (value.Num (pos 86401500)) value.Const)) }
    ensures inexact { reads (time (Leaf uint64) (constant_number (pos 3))) timestamp (codes "19700102-00:00:01.5005")
        ≡ Some (Err (not_read Inexact)) }
    ensures leap { reads (time (Leaf uint64) (constant_number (pos 3))) timestamp (codes "19700102-23:59:60") ≡ Some (Err (not_read Range)) }
{}

/// Two texts of one moment give two values if the unit is in the message, and have the same item.
pub fn one_item_rows()
    ensures seconds { reads (time (Leaf uint64) (Leaf (uint8 Required))) time_of_day (codes "00:00:01")
        ≡ Some (Ok (two_members (value.Num (pos 1)) (value.Num (pos 0)))) }
    ensures milliseconds { reads (time (Leaf uint64) (Leaf (uint8 Required))) time_of_day (codes "00:00:01.000")
        ≡ Some (Ok (two_members (value.Num (pos 1000)) (value.Num (pos 3)))) }
    ensures one { item_of_text (time (Leaf uint64) (Leaf (uint8 Required))) time_of_day (codes "00:00:01") ≡ Some (Some (instant (pos 1000000000) None)) }
    ensures same { item_of_text (time (Leaf uint64) (Leaf (uint8 Required))) time_of_day (codes "00:00:01.000") ≡ Some (Some (instant (pos 1000000000) None)) }
    ensures five { item_of_text counted whole_number (codes "5") ≡ Some (Some (number (dec (pos 5) (pos 0)))) }
    ensures zero_five { item_of_text counted whole_number (codes "05") ≡ Some (Some (number (dec (pos 5) (pos 0)))) }
{}

/// A month.
pub fn month_rows()
    ensures covered { is_covered (month Optional) month_of_year ≡ true }
    ensures uncovered { is_covered (month Required) month_of_year ≡ false }
    ensures day { is_covered (month Optional) calendar_day ≡ false }
    ensures whole { shows (month Optional) month_of_year (four (value.Num (pos 2024)) (value.Num (pos 2)) value.Null value.Null)
        ≡ Some (Ok (Some (codes "202402"))) }
    ensures week { shows (month Optional) month_of_year (four (value.Num (pos 2024)) (value.Num (pos 2)) value.Null (value.Num (pos 5)))
        ≡ Some (Ok (Some (codes "202402w5"))) }
    ensures both { shows (month Optional) month_of_year (four (value.Num (pos 2024)) (value.Num (pos 2)) (value.Num (pos 1)) (value.Num (pos 5)))
        ≡ Some (Err Range) }
    ensures no_day { reads (month Optional) month_of_year (codes "20230229") ≡ Some (Err (not_read Range)) }
    ensures large { reads (month Optional) month_of_year (codes "202402W1") ≡ Some (Err (not_read Spelling)) }
{}

/// Constants of each kind.
pub fn constant_rows()
    ensures number { is_covered (constant_number (pos 7)) whole_number ≡ true }
    ensures number_text { is_covered (constant_number (pos 7)) text ≡ false }
    ensures shown { shows (constant_number (pos 7)) whole_number value.Const ≡ Some (Ok (Some (codes "7"))) }
    ensures same { reads (constant_number (pos 7)) decimal_number (codes "07.0") ≡ Some (Ok value.Const) }
    ensures other { reads (constant_number (pos 7)) whole_number (codes "8") ≡ Some (Err not_the_constant) }
    ensures day { shows (constant_number (pos 1)) calendar_day value.Const ≡ Some (Ok (Some (codes "19700102"))) }
    ensures letter { is_covered (constant_text (codes "A")) character ≡ true }
    ensures words { is_covered (constant_text (codes "AB")) character ≡ false }
    ensures longer { reads (constant_text (codes "A")) text (codes "AB") ≡ Some (Err not_the_constant) }
    ensures longer_char { reads (constant_text (codes "A")) character (codes "AB") ≡ Some (Err (not_read Spelling)) }
    ensures soh { shows (constant_text (1 ∷ [])) text value.Const ≡ Some (Err Soh) }
    ensures soh_char { shows (constant_text (1 ∷ [])) character value.Const ≡ Some (Err Spelling) }
    ensures code { shows (constant_code Char (codes "Buy") 49) (code_set (code (codes "Buy") (codes "B") ∷ [])) value.Const ≡ Some (Ok (Some (codes "B"))) }
    ensures other_code { reads (constant_code Char (codes "Buy") 49) (code_set (code (codes "Buy") (codes "B") ∷ [])) (codes "S")
        ≡ Some (Err (not_read UnknownCode)) }
    ensures code_decimal { is_covered (constant_code U8 (codes "Five") 5) decimal_number ≡ false }
    ensures missing { lacks (constant_number (pos 7)) whole_number ≡ Some None }
{}
