ghost use Rattle.std.specs.Prelude.{◌≡◌, ◌<◌, ℕ, List, Some, map, slice_get};
ghost use Rattle.id_tables.specs.Places.{name_place};
ghost use Rattle.sbe_types.specs.declared.schema.Level.{Level, out-Level};
ghost use Rattle.bridge_plan.specs.Mappings.{Mapping};
ghost use Rattle.message_plans.specs.Plans.{templates, ArePlans, IsCover, IsTemplateOf};

use id_tables::NameTable;
use lists::{List, Text};
use message_walk::PlanRow;
use plan_rows::RuleRow;

/// What a mapping says of a template.
#[derive(Drop)]
pub enum Cover<R> {
    /// Each part is covered: the rows of the template's plan.
    Mapped(Vec<PlanRow<R>>),
    /// The mapping has no message of the template's MsgType.
    NoMessage,
    /// The names of the first part that isn't covered and of the groups around it, from the outermost in.
    Unmapped(List<Text>),
}

/// The template of a MsgType.
#[derive(Clone, Copy, Debug, PartialEq, Eq, Drop)]
pub enum Template {
    /// No template has it.
    Unknown,
    /// More than one has it.
    Several,
    /// The one that has it, by its number.
    One(usize),
}

/// A template, and what the mapping says of it.
#[derive(Drop)]
pub(crate) struct TemplatePlan<R> {
    pub msg_type: Text,
    /// Whether no later template has its MsgType.
    pub alone: bool,
    pub cover: Cover<R>,
}

/// The plans of a schema's templates, by their numbers and by their MsgTypes. `R` is what a row has of its field's rule.
#[derive(Drop)]
pub struct Plan<R> {
    pub(crate) kinds: NameTable,
    pub(crate) templates: List<TemplatePlan<R>>,
}

impl<R: RuleRow> Plan<R> {
    /// How many templates the schema has.
    pub fn templates(&self) -> usize
        ensures { result ≡ templates self.now }
    {
        self.templates.len()
    }

    /// What the mapping says of a template. Requires one in range.
    pub fn cover(&self, template: usize) -> &Cover<R>
        requires { template < templates self.now }
        ensures { (m : Mapping) (levels : List Level) (level : Level) → ArePlans R.follows_rule m levels self.now
            → slice_get levels template ≡ Some level → IsCover R.follows_rule m level result.now }
    {
        &self.templates.at(template).cover
    }

    /// The MsgType of a template, which is its semanticType. Requires one in range.
    pub fn msg_type(&self, template: usize) -> &[u8]
        requires { template < templates self.now }
        ensures { (m : Mapping) (levels : List Level) (level : Level) → ArePlans R.follows_rule m levels self.now
            → slice_get levels template ≡ Some level → result.now ≡ (out-Level level).semantic }
    {
        self.templates.at(template).msg_type.as_slice()
    }

    /// The template of the texts with a MsgType.
    pub fn template_for(&self, kind: &[u8]) -> Template
        ensures { (m : Mapping) (levels : List Level) → ArePlans R.follows_rule m levels self.now → IsTemplateOf kind.now levels result }
    {
        match self.kinds.place(kind) {
            None => Template::Unknown,
            Some(i) => self.template_at(i),
        }
    }

    /// The template at the first place of a MsgType, unless a later one has it too.
    fn template_at(&self, i: usize) -> Template
        ensures { (m : Mapping) (kind : List ℕ) (levels : List Level) → ArePlans R.follows_rule m levels self.now
            → name_place kind (map (λ l. (out-Level l).semantic) levels) ≡ Some i → IsTemplateOf kind levels result }
    {
        if i >= self.templates.len() {
            return Template::Unknown;
        }
        if self.templates.at(i).alone {
            return Template::One(i);
        }
        Template::Several
    }
}
