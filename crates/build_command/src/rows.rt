//! The arguments of `build`, and its answers, computed on small lines.

ghost use Rattle.std.specs.Prelude.{◌≡◌, ◌∷◌, [], pos, codes};
ghost use Rattle.command_words.specs.Words.{rows_of};
ghost use Rattle.command_words.specs.declared.forms.Form.TheVariants as form;
ghost use Rattle.sbe_wire.specs.Rows.Schemas.{schema7};
ghost use Rattle.sbe_wire.specs.declared.codes.NCode.TheVariants as unfit;
ghost use Rattle.line_values.specs.Refusals.{refusal};
ghost use Rattle.line_values.specs.declared.refusals.JCode.TheVariants as unread;
ghost use Rattle.refused_items.specs.Refused.{refused_line};
ghost use Rattle.build_command.specs.Build.{of_misfit, unread_line};
ghost use Rattle.build_command.specs.Rows.{unknown_template, one_byte_more};

/// Its row in the table of forms.
pub fn words()
    ensures { rows_of (codes "build")
        ≡ record { form = form.Build; word = codes "build"; files = 1; numbers = 0; options = codes "--max-frame" ∷ codes "--max-input" ∷ [] } ∷ [] }
{}

/// A line that names no message of the schema, and a message that doesn't fit a frame.
pub fn refused_lines()
    ensures no_message { unread_line 2 (refusal unread.UnknownName (codes "Pong")) ≡ unknown_template }
    ensures no_room { refused_line 0 (of_misfit schema7 3 (record { code = unfit.Full; path = []; detail = pos 59 })) ≡ one_byte_more }
{}
