//! Laws of the definitions, stated as functions without a body.

ghost use Rattle.std.specs.Prelude.{◌≡◌, pos};
ghost use Rattle.fix_values.specs.declared.decimal.TheConstants.{MOST_DIGITS, MOST_EXPONENT};
ghost use Rattle.fix_values.specs.declared.rule.TheConstants.{MOST_BYTES};
ghost use Rattle.fix_values.specs.declared.text.TheConstants.{SOH};

/// The byte that ends a field, and the limits of decimals and of the texts of codes.
pub fn numbers()
    ensures soh { SOH ≡ 1 }
    ensures digits { MOST_DIGITS ≡ 38 }
    ensures exponent { MOST_EXPONENT ≡ pos 18 }
    ensures code { MOST_BYTES ≡ 64 }
{}
