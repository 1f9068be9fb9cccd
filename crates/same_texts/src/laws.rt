//! Laws of texts and their fields, stated as functions without a body.

ghost use Rattle.std.specs.Prelude.{◌≡◌, ◌<◌, ◌++◌, ◌^◌, Bool, List, ℕ, true, length, Ok};
ghost use Rattle.std.specs.List.{AllByRecursion};
ghost use Rattle.sbe_types.specs.declared.message.Value.{Value};
ghost use Rattle.tagvalue_codec.specs.declared.data_tags.Pair.{Pair};
ghost use Rattle.tagvalue_codec.specs.Fields.{Field, IsTag, bytes_of};
ghost use Rattle.tagvalue_codec.specs.Texts.{Body, Free};
ghost use Rattle.bridge_rules.specs.Sound.{IsShown};
ghost use Rattle.bridge_terms.specs.MessageFields.{fields_of, with_lengths};
ghost use Rattle.bridge_terms.specs.Parts.{is_application, TagLists};
ghost use Rattle.bridge_terms.specs.PlanFacts.{AreCounted, EachValue};
ghost use Rattle.bridge_terms.specs.Plans.{Each, Plan, Tree};
ghost use Rattle.same_texts.specs.Follow.{CanFollow, IsAlone, IsFramed, IsOwnPair};
ghost use Rattle.same_texts.specs.Same.{ArePairsOf, EachField, IsClear, IsFound};

/// If each field that may be written of a message's values passes a test, each field of the message passes it.
pub fn fields_are_those_of_values()
    ensures { (test : Field → Bool) (p : Plan) (t : Tree Value p) (fields : List Field)
        → EachField (λ f. test f ≡ true) p t → fields_of p t ≡ Ok fields → Each (λ f. test f ≡ true) fields }
{}

/// The body of a text has the fields of a message, if its bytes are theirs and the end of each of them is found.
pub fn fields_are_known_by_their_bytes()
    ensures { (tags : List Pair) (lists : TagLists) (own fields : List Field) (bytes : List ℕ) → ArePairsOf tags lists
        → Each (IsFound tags lists) own → Body tags Free fields bytes → bytes ≡ bytes_of (with_lengths lists own)
        → fields ≡ with_lengths lists own }
{}

/// The same for the application fields of values that are written by a clear plan.
pub fn messages_are_known_by_their_bytes()
    ensures { (tags : List Pair) (lists : TagLists) (p : Plan) (t : Tree Value p) (own fields : List Field)
        (bytes : List ℕ) → ArePairsOf tags lists → IsClear lists p → EachValue IsShown p t → AreCounted p t
        → fields_of p t ≡ Ok own → Each (λ f. is_application lists f ≡ true) own
        → Body tags Free fields bytes → bytes ≡ bytes_of (with_lengths lists own) → length bytes < 2 ^ 64
        → fields ≡ with_lengths lists own }
{}

/// Fields that can follow one another are those of a body: some by themselves, and then others with their length fields.
pub fn fields_can_follow_one_another()
    ensures { (tags : List Pair) (lists : TagLists) (given own : List Field) → ArePairsOf tags lists
        → AllByRecursion (IsOwnPair tags) tags → Each (IsAlone tags) given → Each (CanFollow tags lists) own
        → Body tags Free (given ++ with_lengths lists own) (bytes_of (given ++ with_lengths lists own)) }
{}

/// The fields of a message that is written by a clear plan can follow one another, if their tags have one to nine digits.
pub fn fields_of_messages_can_follow()
    ensures { (tags : List Pair) (lists : TagLists) (p : Plan) (t : Tree Value p) (own : List Field) → ArePairsOf tags lists
        → IsFramed lists → IsClear lists p → EachValue IsShown p t → AreCounted p t → fields_of p t ≡ Ok own
        → Each (λ f. is_application lists f ≡ true) own → Each (λ f. IsTag f.tag) own
        → length (bytes_of (with_lengths lists own)) < 1000000000 → Each (CanFollow tags lists) own }
{}
