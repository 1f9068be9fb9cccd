ghost use Rattle.std.specs.Prelude.{◌≡◌, ◌↔◌, List, Err};
ghost use Rattle.map_types.specs.Trees.{Members};
ghost use Rattle.map_rules.specs.Verdicts.{Refusal};
ghost use Rattle.map_rules.specs.Rules.{verdict};
ghost use Rattle.map_rules.specs.Questions.{Question, questions, first_refusal, IsFirst};

/// The verdict on a mapping is the first broken rule of all that apply, in the order of the lists, the members and
/// their rules.
pub fn verdicts_are_first_broken_rules()
    ensures { (members : Members) → verdict members ≡ first_refusal (questions members) }
{}

/// A refusal is that of a broken rule before which none is broken.
pub fn the_first_broken_rule_is_reported()
    ensures { (asked : List Question) (refusal : Refusal) → (first_refusal asked ≡ Err refusal) ↔ IsFirst asked refusal }
{}
