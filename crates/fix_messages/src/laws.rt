//! Laws of the texts of messages, stated as functions without a body.

ghost use Rattle.std.specs.Prelude.{◌≡◌, ◌≤◌, ◌++◌, ℕ, List, length, None, Ok};
ghost use Rattle.sbe_types.specs.declared.message.Value.{Value};
ghost use Rattle.tagvalue_codec.specs.Fields.{Field, bytes_of};
ghost use Rattle.tagvalue_codec.specs.Texts.{text_over};
ghost use Rattle.bridge_terms.specs.MessageFields.{fields_of, with_lengths};
ghost use Rattle.bridge_terms.specs.Parts.{TagLists};
ghost use Rattle.bridge_terms.specs.Places.{Places, places_of, place_fields};
ghost use Rattle.bridge_terms.specs.Plans.{Plan, Tree};
ghost use Rattle.fix_messages.specs.Heads.{Head, head_fields};
ghost use Rattle.fix_messages.specs.Texts.{message_text, text_refusal};

/// A text that isn't refused has the fields of its message.
pub fn texts_have_the_fields_of_their_messages()
    ensures { (lists : TagLists) (limit : ℕ) (kind : List ℕ) (head : Head) (p : Plan) (t : Tree Value p) → text_refusal lists limit kind head (places_of p t) ≡ None
        → fields_of p t ≡ Ok (place_fields (places_of p t).places) }
{}

/// A text has the fields of its head, followed by those of the message, with the length field of each data field.
pub fn texts_have_heads_and_fields()
    ensures { (lists : TagLists) (kind : List ℕ) (head : Head) (fields : List Field)
        → message_text lists kind head fields ≡ text_over head.begin (bytes_of (head_fields kind head ++ with_lengths lists fields)) }
{}

/// A text that isn't refused has no more bytes than the limit.
pub fn texts_keep_to_their_limit()
    ensures { (lists : TagLists) (limit : ℕ) (kind : List ℕ) (head : Head) (all : Places) → text_refusal lists limit kind head all ≡ None
        → length (message_text lists kind head (place_fields all.places)) ≤ limit }
{}
