//! Lines of coverage, computed.

ghost use Rattle.std.specs.Prelude.{◌≡◌, ◌∷◌, [], codes};
ghost use Rattle.coverage_command.specs.Coverage.{refused_line};

/// The line of a message with a part in a group's entries that isn't covered: the names of the path, with dots.
pub fn a_path()
    ensures { refused_line (codes "Px") (codes "B02") (codes "legs" ∷ (codes "price" ∷ []))
        ≡ codes "{\"message\":\"Px\",\"map\":null,\"refused\":\"B02\",\"path\":\"legs.price\"}\n" }
{}

/// The line of a message for whose MsgType the mapping has no message: an empty path.
pub fn no_path()
    ensures { refused_line (codes "Px") (codes "B01") []
        ≡ codes "{\"message\":\"Px\",\"map\":null,\"refused\":\"B01\",\"path\":\"\"}\n" }
{}
