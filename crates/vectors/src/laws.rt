//! Laws of the definitions, stated as functions without a body.

ghost use Rattle.std.specs.Prelude.{◌≡◌, ◌≤◌, ◌<◌, ℕ, ℤ, pos, int_le, true, length, List, [], None};
ghost use Rattle.rand_pcg.specs.Lcg.{Lcg};
ghost use Rattle.sbe_types.specs.declared.kind.Leaf.{Leaf as LeafOf};
ghost use Rattle.sbe_types.specs.declared.schema.WireSchema.{WireSchema};
ghost use Rattle.sbe_types.specs.Shown.{admits};
ghost use Rattle.sbe_types.specs.Shows.{is_text_byte};
ghost use Rattle.vectors.specs.declared.numbers.TheConstants.{LAST_BYTE, RAISED_LIMIT};
ghost use Rattle.vectors.specs.Altered.{altered};
ghost use Rattle.vectors.specs.Drawing.{times, Drawing};
ghost use Rattle.vectors.specs.Messages.{amount, generated};
ghost use Rattle.vectors.specs.Values.{has_bytes, number_in, text_byte_drawn};

/// A number that is drawn for a leaf is within its range.
pub fn numbers_lie_in_range()
    ensures { (leaf : LeafOf) (words : Lcg) → int_le leaf.low leaf.high ≡ true → admits leaf (number_in leaf.low leaf.high words).0 ≡ true }
{}

/// A byte that is drawn for a text is allowed in it, if any byte is.
pub fn drawn_text_bytes_are_allowed()
    ensures { (leaf : LeafOf) (words : Lcg) → int_le (pos 0) leaf.low ≡ true → int_le leaf.high (pos LAST_BYTE) ≡ true → has_bytes leaf ≡ true
        → is_text_byte leaf (text_byte_drawn leaf words).0 ≡ true }
{}

/// A count or a length is in range if its range begins at a number from 0 to 64.
pub fn amounts_are_admitted()
    ensures { (leaf : LeafOf) (n : ℕ) → int_le (pos 0) leaf.low ≡ true → int_le leaf.low (pos RAISED_LIMIT) ≡ true → int_le leaf.low leaf.high ≡ true
        → admits leaf (pos (amount leaf n)) ≡ true }
{}

/// As many are drawn as are asked for.
pub fn as_many_are_drawn()
    ensures { (n : ℕ) (draw : Drawing ℕ) (words : Lcg) → length (times n draw words).0 ≡ n }
{}

/// An altered body is as long as the original.
pub fn altered_bodies_are_as_long()
    ensures { (body : List ℕ) (index : ℕ) → length (altered body index) ≡ length body }
{}

/// No message is drawn for a schema without messages.
pub fn empty_schemas_have_none()
    ensures { (schema : WireSchema) (seed index : ℕ) → schema.messages ≡ [] → generated schema seed index ≡ None }
{}
