ghost use Rattle.std.specs.Prelude.{◌≡◌, ◌+◌, ◌<◌, nat_lt, ◌||◌};
ghost use Rattle.reference_graph.specs.Learning.{extent_of, extent_of_both, with_count, is_over};

/// The most places, which are fields and counts, that a structure may have.
pub const PLACE_LIMIT: u32 = 4096;

/// How deeply groups may be nested.
pub const DEPTH_LIMIT: u32 = 6;

/// What is known of a structure. A number above its limit means that number or more.
#[derive(Clone, Copy, Debug, PartialEq, Eq)]
pub struct Extent {
    /// How many places it has.
    pub places: u32,
    /// How deeply its groups are nested.
    pub depth: u32,
}

/// The extent of a structure without places.
pub const EMPTY: Extent = Extent {
    places: 0,
    depth: 0,
};

/// The extent of a field.
pub const ONE_FIELD: Extent = Extent {
    places: 1,
    depth: 0,
};

impl Extent {
    /// The extent of one structure after another.
    pub fn then(self, other: Extent) -> Extent
        ensures { result ≡ extent_of_both self other }
    {
        Extent {
            places: self
                .places
                .saturating_add(other.places)
                .min(PLACE_LIMIT + 1),
            depth: self.depth.max(other.depth),
        }
    }

    /// The extent of a group whose entries have this structure.
    pub fn with_count(self) -> Extent
        ensures { result ≡ with_count self }
    {
        Extent {
            places: self.places.saturating_add(1).min(PLACE_LIMIT + 1),
            depth: self.depth.saturating_add(1).min(DEPTH_LIMIT + 1),
        }
    }

    /// Whether it exceeds a limit.
    pub fn is_over(self) -> bool
        ensures { result ≡ is_over self }
    {
        self.places > PLACE_LIMIT || self.depth > DEPTH_LIMIT
    }
}
