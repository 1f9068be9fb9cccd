ghost use Rattle.std.specs.Prelude.{◌≡◌, ◌++◌, ◌∷◌, [], find, None, Some, IfNone, IfSome, OnErr, OnOk};
ghost use Rattle.std.specs.List.{list_any};
ghost use Rattle.dump_lines.specs.Chosen.{has_id, schema_for, schema_with};
ghost use Rattle.dump_lines.specs.Dumped.{AreInOrder};

use lists::{List, NoMem};
use std::alloc::Global;
use tree_json::LineLayout;

/// The schemas of a run, in the order of its arguments.
#[derive(Drop)]
pub struct Schemas {
    pub first: LineLayout,
    pub also: List<LineLayout>,
}

impl Schemas {
    /// Creates it with one schema.
    pub fn new(alloc: Global, first: LineLayout) -> Schemas
        ensures schemas { result ≡ record { first = first; also = [] } }
        ensures order { AreInOrder result }
    {
        let _schema = first.schema();
        Schemas {
            first,
            also: List::new(alloc),
        }
    }

    /// Adds one more. If memory runs out, nothing changes.
    pub fn push(&mut self, layout: LineLayout) -> Result<(), NoMem>
        requires { AreInOrder self.old }
        ensures schemas { OnOk result (self.new ≡ record { first = self.old.first; also = self.old.also ++ layout ∷ [] }) }
        ensures order { OnOk result (AreInOrder self.new) }
        ensures kept { OnErr result (self.new ≡ self.old) }
    {
        let _schema = layout.schema();
        self.also.push(layout)
    }

    /// Whether one of them has this id.
    pub fn has_id(&self, id: u32) -> bool
        ensures { result ≡ list_any (has_id id) (self.now.first ∷ self.now.also) }
    {
        if self.first.id() == id {
            return true;
        }
        match find_id(self.also.as_slice(), id) {
            Some(_) => true,
            None => false,
        }
    }

    /// The schema by which a body is read: the one whose id is in its header, or the first one if none has that id.
    pub fn schema_for(&self, body: &[u8]) -> &LineLayout
        ensures { result.now ≡ schema_for self.now body.now }
    {
        if self.also.is_empty() {
            return &self.first;
        }
        match self.first.schema_id(body) {
            Some(id) => self.with_id(id),
            None => &self.first,
        }
    }

    /// The first schema with this id, or the first of all if none has it.
    fn with_id(&self, id: u32) -> &LineLayout
        ensures { result.now ≡ schema_with self.now id }
    {
        if self.first.id() == id {
            return &self.first;
        }
        match find_id(self.also.as_slice(), id) {
            Some(layout) => layout,
            None => &self.first,
        }
    }
}

/// The first of these schemas with this id.
#[tactic(auto, using(crate::proofs::Finding::id_same, crate::proofs::Finding::id_differs, crate::proofs::Finding::found_at, crate::proofs::Finding::passed_at, crate::proofs::Finding::none_at))]
fn find_id(layouts: &[LineLayout], id: u32) -> Option<&LineLayout>
    ensures some { IfSome result (λ layout. find (has_id id) layouts.now ≡ Some layout.now) }
    ensures none { IfNone result (find (has_id id) layouts.now ≡ None) }
{
    for layout in layouts {
        if layout.id() == id {
            return Some(layout);
        }
    }
    None
}
