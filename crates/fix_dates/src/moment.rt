ghost use Rattle.std.specs.Prelude.{◌≤◌};

/// A moment in a text: its nanoseconds, from 1 January 1970 or from midnight.
#[derive(Clone, Copy, Debug, PartialEq, Eq, Drop)]
pub struct Moment {
    /// Nanoseconds, negative before 1970.
    pub nanos: i128,
    /// The number of digits of its fraction of a second, at most nine.
    pub digits: u8,
    pub ghost few: { digits ≤ 9 },
}
