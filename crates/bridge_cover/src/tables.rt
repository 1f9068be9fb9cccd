ghost use Rattle.std.specs.Prelude.{IfOk};
ghost use Rattle.map_types.specs.Trees.{members_of};
ghost use Rattle.orchestra_map.specs.Headers.{IsKept};
ghost use Rattle.bridge_mapping.specs.Mapped.{mapping_of};
ghost use Rattle.bridge_cover.specs.Tables.{AreTables};

use bridge_mapping::{DatatypeTable, TagTable};
use lists::NoMem;
use map_members::members_in;
use map_types::{CodeSetEl, FieldEl, Repository};
use std::alloc::Global;

/// What the parts of a template are compared with: the tags of a mapping's header and of its length fields, and the
/// datatypes of its fields.
#[derive(Drop)]
pub struct Tables<'a> {
    pub tags: TagTable,
    pub datatypes: DatatypeTable<'a>,
}

impl<'a> Tables<'a> {
    /// Builds the tables of a mapping.
    ///
    /// # Errors
    ///
    /// If memory runs out.
    pub fn new(alloc: Global, repository: &'a Repository) -> Result<Tables<'a>, NoMem>
        requires { IsKept repository.now }
        ensures { IfOk result (AreTables (mapping_of (members_of repository.now))) }
    {
        let items = repository.children.as_slice();
        let code_sets = members_in::<CodeSetEl>(alloc, items)?;
        let fields = members_in::<FieldEl>(alloc, items)?;
        let datatypes = DatatypeTable::new(alloc, code_sets.as_slice(), fields.as_slice())?;
        let tags = TagTable::new(alloc, repository)?;
        Ok(Tables { tags, datatypes })
    }
}
