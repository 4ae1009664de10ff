//! Places in the order of a county's shapes that leave a choice.

ghost use Rattle.std.specs.Prelude.{◌≡◌};
ghost use Rattle.county_chart.specs.Choices.{is_settled, ways_at};

/// An open place in the order of shapes: several chains have its shape, or the shape is the same from both ends.
#[derive(Clone, Copy, Debug, PartialEq, Eq)]
pub struct OpenPlace {
    /// The place in the order of shapes, counted from 0.
    pub place: u32,
    /// How many chains from this place on have its shape, including the one at the place.
    pub alike: u32,
    /// Whether the shape is the same from both ends, so that each of these chains can have either direction.
    pub either_way: bool,
}

impl OpenPlace {
    /// Returns the number of directions of a chain at the place: 1 or 2.
    pub fn ways(&self) -> u64
        ensures { result ≡ ways_at self.now }
    {
        if self.either_way { 2 } else { 1 }
    }

    /// Checks whether the place leaves no choice.
    pub fn is_settled(&self) -> bool
        ensures { result ≡ is_settled self.now }
    {
        self.alike == 1 && !self.either_way
    }
}
