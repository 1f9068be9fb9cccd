//! What an open schema consists of.
ghost use Rattle.std.specs.Prelude.{◌≡◌, IfOk};

use layout_compile::compile;
use layout_tables::Layout;
use lists::NoMem;
use schema_check::Checked;
use std::alloc::Global;
use std::marker::Model;
use tree_json::LineLayout;

/// A schema that was opened: checked, for lines that are read, and its layout with the texts of the lines that are
/// written.
#[derive(Drop)]
pub struct Opened {
    checked: Checked,
    lines: LineLayout,
}

impl Model for Opened {
    ghost use Rattle.std.specs.Prelude.{◌≡◌};
    ghost use Rattle.std.specs.Coded.{codes};
    ghost use Rattle.sbe_types.specs.declared.schema.WireSchema.{WireSchema};
    ghost use Rattle.sbe_types.specs.contracts.kind.Kind as kinds;
    ghost use Rattle.sbe_types.specs.contracts.schema.Level as trees;

    ghost Value = { WireSchema };

    ghost coded = { Prim.hlevel (codes, kinds.the_row.coded, trees.the_row.coded) };

    ghost view = { λ opened. opened.checked };

    ghost invariant = { λ opened. opened.lines ≡ opened.checked };
}

impl Opened {
    /// Opens a checked schema. The only error is out of memory.
    pub fn new(alloc: Global, checked: Checked) -> Result<Opened, NoMem>
        ensures { IfOk result (λ opened. opened ≡ checked) }
    {
        let lines = LineLayout::new(alloc, compile(alloc, &checked)?)?;
        Ok(Opened { checked, lines })
    }

    /// The checked schema.
    pub fn checked(&self) -> &Checked
        ensures { result.now ≡ self.now }
    {
        &self.checked
    }

    /// Its layout, with the texts of its lines.
    pub fn lines(&self) -> &LineLayout
        ensures { result.now ≡ self.now }
    {
        &self.lines
    }

    /// Its layout.
    pub fn layout(&self) -> &Layout
        ensures { result.now ≡ self.now }
    {
        self.lines.layout()
    }
}
