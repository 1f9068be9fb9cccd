//! Laws of the definitions, stated as functions without a body: what is written reads back, a text is read as what it
//! spells, and a fraction has one reduced form and one mantissa for an exponent.

ghost use Rattle.std.specs.Prelude.{◌≡◌, ◌<◌, ◌+◌, ◌^◌, ℕ, ℤ, pos, neg_ℤ, true, false, List, Result, Ok, Some, int_le, unsigned_abs, FitsSigned};
ghost use Rattle.std.specs.Int.{w128};
ghost use Rattle.sbe_types.specs.declared.kind.Leaf.{Leaf};
ghost use Rattle.sbe_types.specs.declared.kind.Named.{Named};
ghost use Rattle.sbe_types.specs.Shown.{is_null};
ghost use Rattle.fix_values.specs.declared.rule.Code.{Code};
ghost use Rattle.fix_values.specs.declared.rule.Dec.{Dec};
ghost use Rattle.fix_values.specs.declared.rule.NumRule.TheVariants as rule;
ghost use Rattle.fix_values.specs.declared.rule.V.{V};
ghost use Rattle.fix_values.specs.declared.decimal.TheConstants.{MOST_DIGITS, MOST_EXPONENT};
ghost use Rattle.fix_values.specs.Numerals.{SpellsInteger, integer_of, is_value};
ghost use Rattle.fix_values.specs.Decimals.{SameFraction, IsReduced, ReadsDecimal, dec, decimal_of, decimal_text, fitted, mantissa_under};
ghost use Rattle.fix_values.specs.Values.{can_read, is_asked, text_of, value_of};

/// The number of a text is the one that it spells: an optional minus sign, and digits.
pub fn integers_are_spelled()
    ensures read { (text : List ℕ) (n : ℤ) → integer_of text ≡ Some n → SpellsInteger text n }
    ensures only { (text : List ℕ) (n : ℤ) → SpellsInteger text n → integer_of text ≡ Some n }
{}

/// An integer that was written reads back as itself, if it is one of the leaf's.
pub fn integers_read_back()
    ensures { (leaf : Leaf) (n : ℤ) (text : List ℕ) → FitsSigned w128 n → is_value leaf n ≡ true
        → text_of rule.Int n ≡ Ok text → value_of rule.Int leaf text ≡ Ok n }
{}

/// A character that was written reads back as itself, if it is one of the leaf's.
pub fn characters_read_back()
    ensures { (leaf : Leaf) (n : ℤ) (text : List ℕ) → is_asked rule.Char n ≡ true → is_value leaf n ≡ true
        → text_of rule.Char n ≡ Ok text → value_of rule.Char leaf text ≡ Ok n }
{}

/// A truth value that was written reads back as the listed number, unless that is the leaf's null.
pub fn booleans_read_back()
    ensures { (names : List Named) (leaf : Leaf) (n : ℤ) (text : List ℕ)
        → can_read (rule.Boolean names) ≡ true → is_null leaf n ≡ false
        → text_of (rule.Boolean names) n ≡ Ok text → value_of (rule.Boolean names) leaf text ≡ Ok n }
{}

/// A code that was written reads back as its number, unless that is the leaf's null.
pub fn codes_read_back()
    ensures { (list : List Code) (leaf : Leaf) (n : ℤ) (text : List ℕ)
        → can_read (rule.Code list) ≡ true → is_null leaf n ≡ false
        → text_of (rule.Code list) n ≡ Ok text → value_of (rule.Code list) leaf text ≡ Ok n }
{}

/// The mantissa for an exponent gives the same fraction, and there is one exactly if there is such a fraction.
pub fn mantissas_are_of_the_same_fraction()
    ensures same { (d : Dec) (exponent n : ℤ) → mantissa_under d exponent ≡ Ok n → SameFraction (dec n exponent) d }
    ensures only { (d : Dec) (exponent n : ℤ) → SameFraction (dec n exponent) d → mantissa_under d exponent ≡ Ok n }
{}

/// A decimal that was written reads back as the same fraction, and with the same exponent it has the same mantissa.
pub fn decimals_read_back()
    ensures same { (mantissa exponent : ℤ) (text : List ℕ) → FitsSigned w128 mantissa
        → decimal_text (dec mantissa exponent) ≡ Ok text
        → (d : Dec) × (decimal_of text ≡ Ok d) × SameFraction d (dec mantissa exponent) }
    ensures mantissa { (leaf : Leaf) (mantissa exponent : ℤ) (text : List ℕ)
        → FitsSigned w128 mantissa → is_value leaf mantissa ≡ true
        → decimal_text (dec mantissa exponent) ≡ Ok text
        → (d : Dec) × (decimal_of text ≡ Ok d) × (fitted d leaf exponent ≡ Ok mantissa) }
{}

/// A decimal that was read is in reduced form: its mantissa isn't a multiple of ten, and zero has the exponent 0.
pub fn read_decimals_are_reduced()
    ensures { (text : List ℕ) (d : Dec) → decimal_of text ≡ Ok d → IsReduced d }
{}

/// Two decimals with the same text are the same fraction: different fractions have different texts.
pub fn different_fractions_have_different_texts()
    ensures { (m e n f : ℤ) (text : List ℕ) → FitsSigned w128 m → FitsSigned w128 n
        → decimal_text (dec m e) ≡ Ok text → decimal_text (dec n f) ≡ Ok text
        → SameFraction (dec m e) (dec n f) }
{}

/// An integer that was written as a decimal reads back as itself, if it is one of the leaf's and has at most
/// thirty-eight digits.
pub fn whole_decimals_read_back()
    ensures { (leaf : Leaf) (n : ℤ) (text : List ℕ) → unsigned_abs n < 10 ^ 38 → is_value leaf n ≡ true
        → text_of rule.Decimal n ≡ Ok text → value_of rule.Decimal leaf text ≡ Ok n }
{}

/// A set that was written reads back as the same bits.
pub fn sets_read_back()
    ensures { (list : List Code) (leaf : Leaf) (n : ℕ) (text : List ℕ) → can_read (rule.Codes list) ≡ true
        → text_of (rule.Codes list) (pos n) ≡ Ok text → value_of (rule.Codes list) leaf text ≡ Ok (pos n) }
{}

/// A text is read as the decimal that it spells, an optional minus sign and digits with at most one point, in reduced
/// form. It is refused exactly if it spells none, or if more digits count than are read.
pub fn decimals_are_spelled()
    ensures read { (text : List ℕ) → ReadsDecimal text (decimal_of text) }
    ensures only { (text : List ℕ) (answer : Result Dec V) → ReadsDecimal text answer
        → answer ≡ decimal_of text }
{}

/// A fraction has one reduced form.
pub fn a_fraction_has_one_reduced_form()
    ensures { (d e : Dec) → IsReduced d → IsReduced e → SameFraction d e → d ≡ e }
{}

/// Thirty-eight digits are enough: a mantissa of 64 bits has a text with each exponent that is written. They are also
/// few enough: an i128 holds every number of that many digits, but not every number of one more.
pub fn thirty_eight_digits_are_enough()
    ensures shown { (mantissa exponent : ℤ) → unsigned_abs mantissa < 2 ^ 64
        → int_le (neg_ℤ MOST_EXPONENT) exponent ≡ true → int_le exponent MOST_EXPONENT ≡ true
        → (text : List ℕ) × (decimal_text (dec mantissa exponent) ≡ Ok text) }
    ensures held { 10 ^ MOST_DIGITS < 2 ^ 127 }
    ensures most { 2 ^ 127 < 10 ^ (MOST_DIGITS + 1) }
{}
