//! The options and numbers, computed. The row of a form is computed in the crate of its command.

ghost use Rattle.std.specs.Prelude.{◌≡◌, ◌∷◌, ◌++◌, [], codes, true, false};
ghost use Rattle.command_words.specs.Words.{is_field_text};
ghost use Rattle.command_words.specs.declared.options.TheConstants.{ALSO, MOST_ALSO, MAX_FRAME, MAX_INPUT, FRAME_RANGE, INPUT_RANGE, SEED_RANGE, COUNT_RANGE};
ghost use Rattle.command_words.specs.declared.options.TheConstants.{BEGIN, DEFAULT_BEGIN, MOST_FIELD_BYTES, SENDER, SEQ, SEQ_RANGE, TARGET, TIME};

/// The names of the options, and the numbers that each accepts.
pub fn options()
    ensures frame { MAX_FRAME.now ≡ codes "--max-frame" }
    ensures frame_range { FRAME_RANGE ≡ record { least = 64; most = 16_777_216; default = 65_536 } }
    ensures input { MAX_INPUT.now ≡ codes "--max-input" }
    ensures input_range { INPUT_RANGE ≡ record { least = 1; most = 1_099_511_627_776; default = 4_294_967_296 } }
    ensures also { ALSO.now ≡ codes "--also" }
    ensures most_also { MOST_ALSO ≡ 15 }
{}

/// The names of the options for the head of a text, and what each accepts.
pub fn head_options()
    ensures begin { BEGIN.now ≡ codes "--begin" }
    ensures begin_default { DEFAULT_BEGIN.now ≡ codes "FIX.4.4" }
    ensures sender { SENDER.now ≡ codes "--sender" }
    ensures target { TARGET.now ≡ codes "--target" }
    ensures seq { SEQ.now ≡ codes "--seq" }
    ensures seq_range { SEQ_RANGE ≡ record { least = 1; most = 4_000_000_000; default = 0 } }
    ensures time { TIME.now ≡ codes "--time" }
    ensures bytes { MOST_FIELD_BYTES ≡ 64 }
{}

/// The arguments that may be header fields: at least one byte, and none below the space or above the tilde.
pub fn field_texts()
    ensures blank { is_field_text (32 ∷ []) ≡ true }
    ensures tilde { is_field_text (126 ∷ []) ≡ true }
    ensures control { is_field_text (31 ∷ []) ≡ false }
    ensures deleted { is_field_text (127 ∷ []) ≡ false }
    ensures wide { is_field_text (codes "FIRM" ++ (195 ∷ (164 ∷ []))) ≡ false }
    ensures empty { is_field_text [] ≡ false }
{}

/// The ranges of a seed, and of a count of messages. Both are 0 if the arguments have no numbers.
pub fn draws()
    ensures seed { SEED_RANGE ≡ record { least = 0; most = 18_446_744_073_709_551_615; default = 0 } }
    ensures count { COUNT_RANGE ≡ record { least = 1; most = 10_000; default = 0 } }
{}
