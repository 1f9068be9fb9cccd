//! What holds of all texts. Each law is the contract of a function without a body; no code runs here.
ghost use Rattle.std.specs.Prelude.{◌≡◌, ℕ, List, [], ◌⊎◌, ◌++◌, ◌<◌, ◌≤◌, length};
ghost use Rattle.tagvalue_codec.specs.declared.data_tags.Pair.{Pair};
ghost use Rattle.tagvalue_codec.specs.declared.read.FixFault.{FixFault};
ghost use Rattle.tagvalue_codec.specs.declared.room.TheConstants.{TEXT_LIMIT};
ghost use Rattle.tagvalue_codec.specs.declared.table.TheConstants.{FIELD_LIMIT};
ghost use Rattle.tagvalue_codec.specs.Fields.{Field, field_bytes};
ghost use Rattle.tagvalue_codec.specs.Texts.{FixText, IsFirstFault, IsAt, Body, Free, most_between, fields_over, text_over};

/// A text has at most one list of fields.
pub fn at_most_one_list()
    ensures { (tags : List Pair) (text : List ℕ) (f g : List Field) → FixText tags f text → FixText tags g text → f ≡ g }
{}

/// Bytes have at most one first fault.
pub fn at_most_one_fault()
    ensures { (tags : List Pair) (text : List ℕ) (f g : FixFault) → IsFirstFault tags text f → IsFirstFault tags text g → f ≡ g }
{}

/// A text that is valid has no fault.
pub fn no_fault_of_a_text()
    ensures { (tags : List Pair) (text : List ℕ) (fields : List Field) (fault : FixFault) → FixText tags fields text → ¬ (IsFirstFault tags text fault) }
{}

/// Any bytes are a text of some fields, or have a first fault.
pub fn fields_or_fault()
    ensures { (tags : List Pair) (text : List ℕ) → ((fields : List Field) × FixText tags fields text) ⊎ ((fault : FixFault) × IsFirstFault tags text fault) }
{}

/// The text that a writer finishes, from fields that are allowed to follow one another, has these fields.
pub fn what_is_written_is_a_text()
    ensures { (tags : List Pair) (begin : List ℕ) (kind : Field) (others : List Field) (rest : List ℕ) → IsAt 8 (record { tag = 8; value = begin }) → IsAt 35 kind → Body tags Free others rest → length others ≤ most_between →
        length (field_bytes kind ++ rest) < 1000000000 →
        FixText tags (fields_over begin kind others (field_bytes kind ++ rest)) (text_over begin (field_bytes kind ++ rest)) }
{}

/// The most fields of a table, and the most bytes of a writer.
pub fn limits()
    ensures fields { FIELD_LIMIT ≡ 4096 }
    ensures bytes { TEXT_LIMIT ≡ 16_777_216 }
{}
