//! Laws of the rules of values, stated as functions without a body.

ghost use Rattle.std.specs.Prelude.{◌≡◌, ◌↔◌, ℕ, List, Some, None, Ok};
ghost use Rattle.sbe_types.specs.declared.kind.Order.{Order};
ghost use Rattle.sbe_types.specs.declared.message.Value.{Value};
ghost use Rattle.sbe_types.specs.Wire.{FitsKind};
ghost use Rattle.sbe_wire.specs.Placed.{IsPlacedKind};
ghost use Rattle.writing_laws.specs.Writable.{IsWritableKind};
ghost use Rattle.sbe_types.specs.declared.kind.Kind.{Kind};
ghost use Rattle.schema_facts.specs.InOrder.{IsKindFrom};
ghost use Rattle.bridge_rules.specs.Rules.{Rule};
ghost use Rattle.bridge_rules.specs.Datatypes.{Datatype};
ghost use Rattle.bridge_rules.specs.Table.{rule_of};
ghost use Rattle.bridge_rules.specs.Good.{Good, IsItemForm};
ghost use Rattle.bridge_rules.specs.Texts.{text_by};
ghost use Rattle.bridge_rules.specs.Values.{value_by, missing_by};
ghost use Rattle.bridge_rules.specs.Items.{value_item, text_item};
ghost use Rattle.bridge_rules.specs.Sound.{IsSound, IsShown, IsReadable, ShowsGood};
ghost use Rattle.bridge_rules.specs.Bounds.{IsBounded, CanShow, IsMapped};
ghost use Rattle.bridge_rules.specs.Again.{HasText, CanRepeat};

/// Each rule of the table meets what the laws of messages require, if its types and codes are like those of a checked
/// schema.
pub fn rules_are_sound()
    ensures { (rule : Rule) → IsBounded rule → IsSound rule }
{}

/// What a rule writes for a good value has the value's item, if the rule's types and codes are like those of a checked
/// schema.
pub fn good_values_are_shown()
    ensures { (rule : Rule) → IsBounded rule → CanShow rule → ShowsGood rule }
{}

/// The rules of the kinds of a checked schema have the bounds that the laws require.
pub fn rules_of_checked_kinds_are_bounded()
    ensures { (k : Kind) (d : Datatype) (rule : Rule) → IsKindFrom 1 k → IsMapped d
        → rule_of k d ≡ Some rule → IsBounded rule × CanShow rule }
{}

/// A value is good by the rule of its kind exactly if it fits the kind and has the one form of its item.
pub fn good_values_are_those_that_fit()
    ensures { (order : Order) (k : Kind) (d : Datatype) (rule : Rule) (v : Value) → IsKindFrom 1 k → IsPlacedKind k
        → IsWritableKind k → rule_of k d ≡ Some rule → Good rule v ↔ (FitsKind order k v × IsItemForm rule v) }
{}

/// What is written for a value that fits its kind has the value's item and can be read; if nothing is written for it,
/// the part may be without a field.
pub fn fitting_values_are_shown_and_read()
    ensures shown { (order : Order) (k : Kind) (d : Datatype) (rule : Rule) (v : Value) → IsKindFrom 1 k → IsMapped d
        → rule_of k d ≡ Some rule → FitsKind order k v → IsShown rule v }
    ensures read { (order : Order) (k : Kind) (d : Datatype) (rule : Rule) (v : Value) → IsKindFrom 1 k → IsMapped d
        → rule_of k d ≡ Some rule → FitsKind order k v → IsReadable rule v }
{}

/// A value and its text have the same item for the applications that compare them, and a value without a field has
/// none.
pub fn values_and_texts_have_one_item()
    ensures read { (rule : Rule) (t : List ℕ) (v : Value) → IsBounded rule → value_by rule t ≡ Ok v
        → text_item rule t ≡ value_item rule v }
    ensures shown { (rule : Rule) (v : Value) (t : List ℕ) → IsBounded rule → CanShow rule → Good rule v
        → text_by rule v ≡ Ok (Some t) → text_item rule t ≡ value_item rule v }
    ensures missing { (rule : Rule) (v : Value) → IsBounded rule → missing_by rule ≡ Some v
        → value_item rule v ≡ None }
    ensures unwritten { (rule : Rule) (v : Value) → IsBounded rule → CanShow rule → Good rule v
        → text_by rule v ≡ Ok None → value_item rule v ≡ None }
{}

/// The rules of the kinds of a checked schema meet what is required so that texts can be written again.
pub fn rules_of_checked_kinds_repeat()
    ensures { (k : Kind) (d : Datatype) (rule : Rule) → IsKindFrom 1 k → rule_of k d ≡ Some rule → CanRepeat rule }
{}

/// A value that was read from a text has a text again, unless it is a decimal whose exponent is outside the range that
/// is written.
pub fn values_of_texts_are_written_again()
    ensures { (rule : Rule) → IsBounded rule → CanRepeat rule → HasText rule }
{}
