ghost use Rattle.std.specs.Prelude.{◌≡◌, ◌↔◌, IsTrue};
ghost use Rattle.schema_check.specs.Forms.{SameForm};
ghost use Rattle.schema_facts.specs.IsChecked.{IsChecked};

use crate::forms::is_same_form;
use sbe_types::{Header, LevelList, Order, WireSchema};
use std::marker::Model;

/// A schema that has passed the checker, with every type name resolved. Contracts see it as the schema.
#[derive(Drop)]
pub struct Checked {
    schema: WireSchema,
}

impl Model for Checked {
    ghost use Rattle.sbe_types.specs.declared.schema.WireSchema.{WireSchema};
    ghost use Rattle.sbe_types.specs.contracts.kind.Kind as kinds;
    ghost use Rattle.sbe_types.specs.contracts.schema.Level as trees;
    ghost use Rattle.std.specs.Coded.{codes};

    ghost Value = { WireSchema };

    ghost coded = { Prim.hlevel (codes, kinds.the_row.coded, trees.the_row.coded) };

    ghost use Rattle.schema_facts.specs.IsChecked.{IsChecked};

    ghost view = { λ checked. checked.schema };

    ghost invariant = { λ checked. IsChecked checked.schema };
}

impl Checked {
    /// Wraps the schema, which must have every fact of a checked schema.
    pub(crate) fn new(schema: WireSchema) -> Checked
        requires { IsChecked schema }
        ensures { result ≡ schema }
    {
        Checked { schema }
    }

    /// The roots of its messages, in its order.
    pub fn messages(&self) -> &LevelList
        ensures { result.now ≡ self.now.messages }
    {
        &self.schema.messages
    }

    /// The id that a message's header carries.
    pub fn id(&self) -> u32
        ensures { result ≡ self.now.id }
    {
        self.schema.id
    }

    /// Its version.
    pub fn version(&self) -> u32
        ensures { result ≡ self.now.version }
    {
        self.schema.version
    }

    /// The byte order of its numbers.
    pub fn order(&self) -> Order
        ensures { result ≡ self.now.order }
    {
        self.schema.order
    }

    /// The header of its messages.
    pub fn header(&self) -> &Header
        ensures { result.now ≡ self.now.header }
    {
        &self.schema.header
    }

    /// The schema itself, which has every fact of a checked schema.
    pub fn schema(&self) -> &WireSchema
        ensures schema { result.now ≡ self.now }
        ensures order { IsChecked self.now }
    {
        &self.schema
    }

    /// Whether the messages of both begin alike: in the same byte order, with a header of the same form.
    pub fn same_form(&self, other: &Checked) -> bool
        ensures { IsTrue result ↔ SameForm self.now other.now }
    {
        is_same_form(&self.schema, &other.schema)
    }
}
