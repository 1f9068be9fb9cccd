ghost use Rattle.std.specs.Prelude.{List, IfOk, IfSome};
ghost use Rattle.sbe_types.specs.declared.kind.Named.{Named as AnyNamed};
ghost use Rattle.bridge_rules.specs.Rules.{Rule};
ghost use Rattle.bridge_table.specs.Rows.{rule_with};
ghost use Rattle.value_texts.specs.Rows.{Spells};

use bridge_table::FieldRule;
use lists::NoMem;
use std::alloc::Global;
use value_texts::ValueText;

/// What a row stores of the rule of its field: how the field's values are translated.
pub trait RuleRow: Drop {
    /// Whether it translates values by this rule.
    ghost follows_rule: { Self → Rule → Type 0 };

    /// Creates it from a rule. `None` for data, whose rows need only their part, and if the rule's codes aren't those
    /// of a valid mapping.
    ///
    /// # Errors
    ///
    /// If memory runs out.
    fn of_rule(alloc: Global, rule: FieldRule) -> Result<Option<Self>, NoMem>
        ensures { IfOk result (λ made. IfSome made (λ row. (names : List AnyNamed) → follows_rule row (rule_with names rule))) };
}

impl RuleRow for ValueText {
    ghost follows_rule = { Spells };

    fn of_rule(alloc: Global, rule: FieldRule) -> Result<Option<ValueText>, NoMem> {
        ValueText::new(alloc, rule)
    }
}
