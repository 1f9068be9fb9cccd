//! The definitions, computed on worked rows.

ghost use Rattle.std.specs.Prelude.{◌≡◌, pos, negsuc, codes, replicate, Ok, Err};
ghost use Rattle.fix_values.specs.declared.rule.V.TheVariants.{Spelling, Range, Inexact};
ghost use Rattle.fix_values.specs.Decimals.{dec, decimal_of, decimal_text, mantissa_under};

/// The texts of decimals.
pub fn shown_rows()
    ensures whole { decimal_text (dec (pos 12300) (negsuc 1)) ≡ Ok (codes "123") }
    ensures small { decimal_text (dec (pos 5) (negsuc 1)) ≡ Ok (codes "0.05") }
    ensures negative { decimal_text (dec (negsuc 4) (negsuc 0)) ≡ Ok (codes "-0.5") }
    ensures moved { decimal_text (dec (pos 7) (pos 2)) ≡ Ok (codes "700") }
    ensures beyond { decimal_text (dec (pos 1) (pos 19)) ≡ Err Range }
{}

/// The decimals that texts are read as.
pub fn read_rows()
    ensures zeros { decimal_of (codes "00.50") ≡ Ok (dec (pos 5) (negsuc 0)) }
    ensures point_first { decimal_of (codes ".5") ≡ Ok (dec (pos 5) (negsuc 0)) }
    ensures point_last { decimal_of (codes "5.") ≡ Ok (dec (pos 5) (pos 0)) }
    ensures zero { decimal_of (codes "-0") ≡ Ok (dec (pos 0) (pos 0)) }
    ensures sign_alone { decimal_of (codes "-") ≡ Err Spelling }
    ensures two_points { decimal_of (codes "1.2.3") ≡ Err Spelling }
    ensures nines { decimal_of (replicate 38 57)
        ≡ Ok (dec (pos 99999999999999999999999999999999999999) (pos 0)) }
    ensures one_more { decimal_of (replicate 39 57) ≡ Err Range }
{}

/// The mantissas of decimals with other exponents.
pub fn fitted_rows()
    ensures cut { mantissa_under (dec (pos 123456) (negsuc 2)) (negsuc 1) ≡ Err Inexact }
    ensures wide { mantissa_under (dec (negsuc 4) (negsuc 0)) (negsuc 1) ≡ Ok (negsuc 49) }
{}
