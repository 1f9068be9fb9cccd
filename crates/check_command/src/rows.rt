//! The arguments of `check`, computed.

ghost use Rattle.std.specs.Prelude.{◌≡◌, ◌∷◌, [], codes};
ghost use Rattle.command_words.specs.Words.{rows_of};
ghost use Rattle.command_words.specs.declared.forms.Form.TheVariants as form;

/// Its rows in the table of forms: that of a schema, and that of a schema and a mapping.
pub fn words()
    ensures { rows_of (codes "check")
        ≡ record { form = form.Check; word = codes "check"; files = 1; numbers = 0; options = [] }
        ∷ (record { form = form.Coverage; word = codes "check"; files = 2; numbers = 0; options = [] } ∷ []) }
{}
