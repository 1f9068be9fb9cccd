// Layouts whose constants consist of bytes.
ghost use Rattle.std.specs.Prelude.{◌≡◌};
ghost use Rattle.std.specs.List.{All};
ghost use Rattle.printed_lines.specs.ByteConstants.{IsByteLevel};

use crate::constants::levels_have_bytes;
use std::marker::Model;
use tree_json::LineLayout;

/// A layout with the texts of its lines, for reading lines. Contracts see it as the schema.
#[derive(Drop)]
pub struct PrintedLines {
    lines: LineLayout,
}

impl Model for PrintedLines {
    ghost use Rattle.sbe_types.specs.declared.schema.WireSchema.{WireSchema};
    ghost use Rattle.sbe_types.specs.contracts.kind.Kind as kinds;
    ghost use Rattle.sbe_types.specs.contracts.schema.Level as trees;
    ghost use Rattle.std.specs.Coded.{codes};

    ghost Value = { WireSchema };

    ghost coded = { Prim.hlevel (codes, kinds.the_row.coded, trees.the_row.coded) };

    ghost use Rattle.std.specs.List.{All};
    ghost use Rattle.printed_lines.specs.ByteConstants.{IsByteLevel};

    ghost view = { λ printed. printed.lines };

    // A contract knows of a constant's bytes only what code reads, so they are read once, when this is made.
    ghost invariant = { λ printed. All IsByteLevel printed.lines.messages };
}

impl PrintedLines {
    /// Wraps the lines of a layout.
    pub fn new(lines: LineLayout) -> PrintedLines
        ensures { result ≡ lines }
    {
        levels_have_bytes(lines.schema().messages.as_slice());
        PrintedLines { lines }
    }

    /// The layout with the texts of its lines.
    pub fn lines(&self) -> &LineLayout
        ensures lines { result.now ≡ self.now }
        ensures bytes { All IsByteLevel self.now.messages }
    {
        &self.lines
    }
}
