//! The arguments of `rawframe`, computed.

ghost use Rattle.std.specs.Prelude.{◌≡◌, ◌∷◌, [], codes};
ghost use Rattle.command_words.specs.Words.{rows_of};
ghost use Rattle.command_words.specs.declared.forms.Form.TheVariants as form;

/// Its row in the table of forms.
pub fn words()
    ensures { rows_of (codes "rawframe")
        ≡ record { form = form.RawFrame; word = codes "rawframe"; files = 1; numbers = 0; options = codes "--max-frame" ∷ codes "--max-input" ∷ [] } ∷ [] }
{}
