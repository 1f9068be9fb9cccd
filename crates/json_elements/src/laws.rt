//! Laws of the definitions, stated as functions without a body.

ghost use Rattle.std.specs.Prelude.{◌≡◌};
ghost use Rattle.json_elements.specs.declared.file.TheConstants.{FILE_LIMIT};

/// How many bytes a file may have.
pub fn file_limit()
    ensures { FILE_LIMIT ≡ 1_048_576 }
{}
