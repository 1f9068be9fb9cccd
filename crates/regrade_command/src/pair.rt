ghost use Rattle.std.specs.Prelude.{◌≡◌, ◌≤◌, length, IfOk, IfSome, Ok};
ghost use Rattle.regrade.specs.Regrades.{HasWay};
ghost use Rattle.version_copies.specs.Copies.{IsCopied, copy_bytes};
ghost use Rattle.regrade_command.specs.Pairs.{ArePaired};

use flyweight_view::LastRefusal;
use layout_compile::compile;
use layout_tables::Layout;
use lists::{List, NoMem};
use schema_check::Checked;
use std::alloc::Global;
use std::marker::Model;
use version_copies::{Copied, Twin, copy_of, twins_of};

/// The schema of the messages that are read and that of those that are written, of which the later extends the earlier one.
#[derive(Drop)]
pub(crate) struct SchemaPair {
    pub(crate) from: Checked,
    pub(crate) to: Checked,
    pub(crate) read: Layout,
    pub(crate) written: Layout,
    /// The templates of the messages that are read, with the headers of those that are copied.
    twins: List<Twin>,
}

impl Model for SchemaPair {
    ghost use Rattle.std.specs.Prelude.{◌≡◌};
    ghost use Rattle.std.specs.Coded.{codes};
    ghost use Rattle.std.specs.List.{All};
    ghost use Rattle.sbe_types.specs.contracts.kind.Kind as kinds;
    ghost use Rattle.sbe_types.specs.contracts.schema.Level as trees;
    ghost use Rattle.version_copies.specs.Copies.{IsTwin};
    ghost use Rattle.regrade_command.specs.Regrade.{FromTo, IsRegradable};

    ghost Value = { FromTo };

    ghost coded = { Prim.hlevel (codes, kinds.the_row.coded, trees.the_row.coded) };

    ghost view = { λ pair. record { from = pair.from; to = pair.to } };

    ghost invariant = { λ pair. (pair.read ≡ pair.from) × (pair.written ≡ pair.to) × IsRegradable (record { from = pair.from; to = pair.to })
        × All (IsTwin pair.read pair.written) pair.twins };
}

impl SchemaPair {
    /// A pair of schemas, of which the later extends the earlier one.
    pub(crate) fn new(alloc: Global, from: Checked, to: Checked) -> Result<SchemaPair, NoMem>
        requires { HasWay from to }
        ensures { IfOk result (λ pair. pair ≡ record { from = from; to = to }) }
    {
        let tables = PairTables::new(alloc, &from, &to)?;
        Ok(paired(from, to, tables))
    }

    /// The copy of a body in the other version, if it has one of at most `limit` bytes. Allocates nothing.
    pub(crate) fn copied<'a>(
        &'a self,
        body: &'a [u8],
        limit: usize,
        last: &mut LastRefusal,
    ) -> Option<Copied<'a>>
        ensures copied { IfSome result (λ copy. IsCopied self.now.from self.now.to body.now (copy_bytes copy)) }
        ensures within { IfSome result (λ copy. length (copy_bytes copy) ≤ limit) }
    {
        let _written = self.written.schema();
        let copy = copy_of(&self.read, self.twins.as_slice(), body, last)?;
        if !copy.is_within(limit) {
            return None;
        }
        Some(copy)
    }
}

/// The layouts of a pair, and its twins.
#[derive(Drop)]
struct PairTables {
    read: Layout,
    written: Layout,
    twins: List<Twin>,
}

impl PairTables {
    fn new(alloc: Global, from: &Checked, to: &Checked) -> Result<PairTables, NoMem>
        ensures { IfOk result (λ tables. ArePaired from.now to.now tables) }
    {
        let read = compile(alloc, from)?;
        let written = compile(alloc, to)?;
        let twins = twins_of(alloc, &read, &written)?;
        Ok(PairTables {
            read,
            written,
            twins,
        })
    }
}

/// A pair, given its tables.
fn paired(from: Checked, to: Checked, tables: PairTables) -> SchemaPair
    requires way { HasWay from to }
    requires tables { ArePaired from to tables }
    ensures { result ≡ record { from = from; to = to } }
{
    let _from = from.schema();
    let _to = to.schema();
    let PairTables {
        read,
        written,
        twins,
    } = tables;
    SchemaPair {
        from,
        to,
        read,
        written,
        twins,
    }
}
