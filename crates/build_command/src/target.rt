ghost use Rattle.std.specs.Prelude.{◌≡◌, IfOk};

use layout_compile::compile;
use lists::NoMem;
use printed_lines::PrintedLines;
use schema_check::Checked;
use std::alloc::Global;
use std::marker::Model;
use tree_json::LineLayout;

/// The schema of the messages that are built, and its layout with the texts of its lines.
#[derive(Drop)]
pub struct Target {
    pub(crate) checked: Checked,
    pub(crate) printed: PrintedLines,
}

impl Model for Target {
    ghost use Rattle.std.specs.Prelude.{◌≡◌};
    ghost use Rattle.std.specs.Coded.{codes};
    ghost use Rattle.sbe_types.specs.declared.schema.WireSchema.{WireSchema};
    ghost use Rattle.sbe_types.specs.contracts.kind.Kind as kinds;
    ghost use Rattle.sbe_types.specs.contracts.schema.Level as trees;

    ghost Value = { WireSchema };

    ghost coded = { Prim.hlevel (codes, kinds.the_row.coded, trees.the_row.coded) };

    ghost view = { λ target. target.checked };

    ghost invariant = { λ target. target.printed ≡ target.checked };
}

impl Target {
    /// Creates a target for the messages of a schema.
    pub fn new(alloc: Global, checked: Checked) -> Result<Target, NoMem>
        ensures { IfOk result (λ target. target ≡ checked) }
    {
        let lines = LineLayout::new(alloc, compile(alloc, &checked)?)?;
        let printed = PrintedLines::new(lines);
        Ok(Target { checked, printed })
    }
}
