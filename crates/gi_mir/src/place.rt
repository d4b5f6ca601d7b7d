//! Places of instructions in layout.

ghost use Rattle.std.specs.Prelude.{◌≡◌};
ghost use Rattle.gi_mir.specs.Places.{comes_before};

/// A place in layout: of a block, and in that block.
#[derive(Clone, Copy, Debug, Default, PartialEq, Eq)]
pub(crate) struct Place {
    pub(crate) block: u32,
    pub(crate) at: usize,
}

impl Place {
    /// Whether this place comes before another in layout.
    pub(crate) fn is_before(self, other: Place) -> bool
        ensures { result ≡ comes_before self other }
    {
        self.block < other.block || self.block == other.block && self.at < other.at
    }
}
