//! The schemas whose messages are translated, each with the plans of its templates.

ghost use Rattle.std.specs.Prelude.{◌≡◌, ◌∷◌, find, IfNone, IfSome, OnErr, OnOk};
ghost use Rattle.std.specs.List.{list_any};
ghost use Rattle.bridge_plan.specs.Mappings.{Mapping};
ghost use Rattle.dump_lines.specs.Chosen.{has_id, schema_for, schema_with};
ghost use Rattle.tofix_command.specs.Planned.{layouts_of, schemas_of, with_more, ArePlannedBy, IsFoundIn, IsPlannedBy};

use layout_tables::Layout;
use lists::{List, NoMem};
use message_plans::Plan;
use value_texts::ValueText;

/// A schema, and the plans of its templates by the mapping.
#[derive(Drop)]
pub struct Translation {
    pub layout: Layout,
    pub plan: Plan<ValueText>,
}

/// The schemas of a run, in the order of its arguments.
#[derive(Drop)]
pub struct Translations {
    pub first: Translation,
    pub also: List<Translation>,
}

impl Translations {
    /// Adds one more. If memory runs out, nothing changes.
    pub fn push(&mut self, translation: Translation) -> Result<(), NoMem>
        ensures added { OnOk result (self.new ≡ with_more self.old translation) }
        ensures kept { OnErr result (self.new ≡ self.old) }
    {
        self.also.push(translation)
    }

    /// Whether one of the schemas has this id.
    pub fn has_id(&self, id: u32) -> bool
        ensures { result ≡ list_any (has_id id) (self.now.first.layout ∷ layouts_of self.now.also) }
    {
        if self.first.layout.id() == id {
            return true;
        }
        match find_id(self.also.as_slice(), id) {
            Some(_) => true,
            None => false,
        }
    }

    /// The schema by which a body is read: the one whose id is in its header, or the first one if none has that id.
    pub fn schema_for(&self, body: &[u8]) -> &Translation
        ensures schema { result.now.layout ≡ schema_for (schemas_of self.now) body.now }
        ensures planned { (m : Mapping) → ArePlannedBy m self.now → IsPlannedBy m result.now }
    {
        if self.also.is_empty() {
            return &self.first;
        }
        match self.first.layout.schema_id(body) {
            Some(id) => self.with_id(id),
            None => &self.first,
        }
    }

    /// The first schema with this id, or the first of all if none has it.
    fn with_id(&self, id: u32) -> &Translation
        ensures schema { result.now.layout ≡ schema_with (schemas_of self.now) id }
        ensures planned { (m : Mapping) → ArePlannedBy m self.now → IsPlannedBy m result.now }
    {
        if self.first.layout.id() == id {
            return &self.first;
        }
        match find_id(self.also.as_slice(), id) {
            Some(translation) => translation,
            None => &self.first,
        }
    }
}

/// The first of these schemas with this id.
#[tactic(auto, using(crate::proofs::Finding::found_there, crate::proofs::Finding::passed_there, crate::proofs::Finding::none_there))]
fn find_id(translations: &[Translation], id: u32) -> Option<&Translation>
    ensures some { IfSome result (λ t. IsFoundIn id translations.now t.now) }
    ensures none { IfNone result (find (has_id id) (layouts_of translations.now) ≡ None) }
{
    for translation in translations {
        if translation.layout.id() == id {
            return Some(translation);
        }
    }
    None
}
