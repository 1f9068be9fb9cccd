//! Laws of the definitions, stated as functions without a body.

ghost use Rattle.std.specs.Prelude.{◌≡◌, ◌≤◌, ◌++◌, ◌∷◌, ℕ, Bool, true, false, List, [], Option, Some, None, Ok, Err};
ghost use Rattle.std.specs.Prelude.{◌⊎◌};
ghost use Rattle.sbe_types.specs.declared.message.Value.{Value};
ghost use Rattle.sbe_types.specs.declared.message.Block.{Block};
ghost use Rattle.sbe_types.specs.declared.schema.Level.{Level};
ghost use Rattle.fix_values.specs.declared.rule.V.TheVariants as why;
ghost use Rattle.tagvalue_codec.specs.Fields.{Field};
ghost use Rattle.bridge_rules.specs.Again.{HasText};
ghost use Rattle.bridge_rules.specs.Sound.{IsSound, IsShown, IsReadable, ShowsGood};
ghost use Rattle.bridge_terms.specs.Plans.{Plan, Tree, Each, is_in, AreGood};
ghost use Rattle.bridge_terms.specs.PlanFacts.{EachRule, IsPlaced, IsRoot, EachValue, AreCounted};
ghost use Rattle.bridge_terms.specs.Parts.{Part, TagLists, is_application, application_fields, parts_of, run_of};
ghost use Rattle.bridge_terms.specs.Parts.{rest_of};
ghost use Rattle.bridge_terms.specs.Gathering.{values_of_fields, items_of_fields, items_of};
ghost use Rattle.bridge_terms.specs.MessageFields.{fields_of, with_lengths, no_text_at};
ghost use Rattle.bridge_terms.specs.Places.{Written, places_of, place_fields, first_over, Grows};
ghost use Rattle.bridge_terms.specs.WayBack.{IsBack, IsFirstWrong, Refusal, back_refused, wrong_in_order};
ghost use Rattle.bridge_terms.specs.Blocks.{values_of, block_of, IsComplete, AreComplete, HasLengths, HasEntries};
ghost use Rattle.bridge_terms.specs.Blocks.{IsSeparate, AreSeparate, AreHeld, IsPlanOf, IsBackBlock};

/// The message gathered from fields by the structure is the one that they are translated to, and the only one.
pub fn gathered_values_are_the_message()
    ensures read { (p : Plan) (fields : List Field) (t : Tree Value p) → EachRule IsSound p
        → values_of_fields p fields ≡ Some t → IsBack p fields t }
    ensures only { (p : Plan) (fields : List Field) (t : Tree Value p) → EachRule IsSound p
        → IsBack p fields t → values_of_fields p fields ≡ Some t }
{}

/// Fields are translated to at most one message.
pub fn at_most_one_message_back()
    ensures { (p : Plan) (fields : List Field) (t u : Tree Value p) → EachRule IsSound p
        → IsBack p fields t → IsBack p fields u → t ≡ u }
{}

/// Fields are translated to a message exactly if they aren't refused.
pub fn a_message_or_a_refusal()
    ensures read { (p : Plan) (fields : List Field) → IsPlaced p → EachRule IsSound p
        → back_refused p fields ≡ None → (t : Tree Value p) × IsBack p fields t }
    ensures only { (p : Plan) (fields : List Field) (t : Tree Value p) → EachRule IsSound p
        → IsBack p fields t → back_refused p fields ≡ None }
{}

/// The fields of a message have its application items.
pub fn fields_have_the_items_of_the_message()
    ensures { (p : Plan) (t : Tree Value p) (fields : List Field) → IsRoot p
        → EachValue IsShown p t → AreCounted p t
        → fields_of p t ≡ Ok fields → items_of_fields p fields ≡ Some (items_of p t) }
{}

/// The fields of a message are translated back to a message with its application items.
pub fn a_message_comes_back()
    ensures { (p : Plan) (t : Tree Value p) (fields : List Field) → IsRoot p → EachRule IsSound p
        → EachValue IsShown p t → EachValue IsReadable p t → AreCounted p t
        → fields_of p t ≡ Ok fields
        → (u : Tree Value p) × IsBack p fields u × (items_of p u ≡ items_of p t) }
{}

/// A block is known by its values in the order of the structure.
pub fn a_block_is_known_by_its_values()
    ensures { (level : Level) (p : Plan) (b c : Block) → IsComplete level p → AreComplete p
        → HasLengths level b → HasEntries p b → HasLengths level c → HasEntries p c
        → values_of p b ≡ values_of p c → b ≡ c }
{}

/// The block that is built from values has these values.
pub fn a_block_has_its_values()
    ensures { (level : Level) (p : Plan) (t : Tree Value p) → IsSeparate level p → AreSeparate p → AreHeld p t
        → values_of p (block_of level p t) ≡ t }
{}

/// The refusal found by checking parts in the order of the text is that of the first part at fault.
pub fn the_first_wrong_part_is_reported()
    ensures told { (wrong : Part → Option Refusal) (parts : List Part) (refusal : Refusal)
        → wrong_in_order wrong [] parts ≡ Some refusal → IsFirstWrong wrong parts refusal }
    ensures only { (wrong : Part → Option Refusal) (parts : List Part) (refusal : Refusal)
        → IsFirstWrong wrong parts refusal → wrong_in_order wrong [] parts ≡ Some refusal }
{}

/// Fields are translated to one block, exactly if they aren't refused.
pub fn a_block_or_a_refusal()
    ensures some { (level : Level) (p : Plan) (fields : List Field) → IsPlanOf level p → IsPlaced p → EachRule IsSound p
        → back_refused p fields ≡ None → (b : Block) × IsBackBlock level p fields b }
    ensures one { (level : Level) (p : Plan) (fields : List Field) (b c : Block) → IsPlanOf level p
        → EachRule IsSound p → IsBackBlock level p fields b → IsBackBlock level p fields c → b ≡ c }
    ensures only { (level : Level) (p : Plan) (fields : List Field) (b : Block) → EachRule IsSound p
        → IsBackBlock level p fields b → back_refused p fields ≡ None }
{}

/// Length fields and header fields are skipped.
pub fn lengths_and_heads_are_passed_over()
    ensures lengths { (lists : TagLists) (fields : List Field)
        → Each (λ f. is_application lists f ≡ true) fields → application_fields lists (with_lengths lists fields) ≡ fields }
    ensures head { (lists : TagLists) (head more : List Field)
        → Each (λ f. is_in f.tag lists.header ≡ true) head → application_fields lists (head ++ more) ≡ application_fields lists more }
{}

/// A message of good values is written as fields that are translated back to it.
pub fn a_good_message_comes_back()
    ensures { (p : Plan) (t : Tree Value p) (fields : List Field) → IsRoot p → EachRule IsSound p
        → EachRule ShowsGood p → AreGood p t → AreCounted p t
        → fields_of p t ≡ Ok fields → values_of_fields p fields ≡ Some t }
{}

/// The first part of fields is the first field with the run after it, and the others are those of what follows the run.
pub fn parts_come_one_after_another()
    ensures { (owned : ℕ → ℕ → Bool) → ((tag : ℕ) → owned 0 tag ≡ false) → (f : Field) (fs : List Field)
        → parts_of owned (f ∷ fs) ≡ record { tag = f.tag; text = f.value; run = run_of owned f.tag fs }
        ∷ parts_of owned (rest_of owned f.tag fs) }
{}

/// No place of a message is refused exactly if the message has fields, and these are those of its places.
pub fn places_are_the_fields()
    ensures told { (p : Plan) (t : Tree Value p) → (places_of p t).refused ≡ None
        → fields_of p t ≡ Ok (place_fields (places_of p t).places) }
    ensures only { (p : Plan) (t : Tree Value p) (fields : List Field) → fields_of p t ≡ Ok fields
        → (places_of p t).refused ≡ None }
{}

/// No place exceeds a limit exactly if the text of all places doesn't.
pub fn no_place_is_over_the_limit()
    ensures fits { (size : List Field → ℕ) (limit : ℕ) (before : List Field) (places : List Written)
        → size before ≤ limit → first_over size limit before places ≡ None
        → size (before ++ place_fields places) ≤ limit }
    ensures only { (size : List Field → ℕ) (limit : ℕ) (before : List Field) (places : List Written)
        → Grows size → size (before ++ place_fields places) ≤ limit
        → first_over size limit before places ≡ None }
{}

/// The message that fields are translated to can be written as fields again, unless a decimal's exponent is outside the
/// range that is written.
pub fn a_message_of_fields_is_written_again()
    ensures { (p : Plan) (fields : List Field) (t : Tree Value p) → IsRoot p → EachRule IsSound p → EachRule ShowsGood p
        → EachRule HasText p → IsBack p fields t → ((again : List Field) × (fields_of p t ≡ Ok again))
        ⊎ ((tag : ℕ) × (fields_of p t ≡ Err (no_text_at tag why.Range))) }
{}
