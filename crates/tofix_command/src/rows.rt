//! The arguments of `tofix`, computed.

ghost use Rattle.std.specs.Prelude.{◌≡◌, ◌∷◌, [], codes};
ghost use Rattle.command_words.specs.Words.{rows_of};
ghost use Rattle.command_words.specs.declared.forms.Form.TheVariants as form;

/// Its row in the table of forms.
pub fn words()
    ensures { rows_of (codes "tofix")
        ≡ record {
          form = form.ToFix;
          word = codes "tofix";
          files = 2;
          numbers = 0;
          options = codes "--max-frame" ∷ codes "--max-input" ∷ codes "--begin" ∷ codes "--sender" ∷ codes "--target" ∷ codes "--seq"
              ∷ codes "--time" ∷ codes "--also" ∷ [];
        } ∷ [] }
{}
