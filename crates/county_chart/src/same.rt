//! Whether two values of one type are equal.

use crate::listed::are_same;
use tl_layout::{
    Body1, Body5, Body7, BodyI, BodyP, NumberOrNone, Point, Ranges, Rec1, Rec2, Rec4, Rec5, Rec6,
    Rec7, Rec8, RecI, RecP, Side,
};

/// A value that can be compared with another of its type, such as a record, whose fields are then compared.
pub trait Same: Drop {
    ghost use Rattle.std.specs.Bool.{Decides};
    ghost use Rattle.std.specs.Prelude.{◌≡◌};

    /// Checks whether the two values are equal.
    fn is_same(&self, other: &Self) -> bool
        ensures { Decides result (self.now ≡ other.now) };
}

impl Same for u32 {
    fn is_same(&self, other: &u32) -> bool {
        self == other
    }
}

impl Same for u64 {
    fn is_same(&self, other: &u64) -> bool {
        self == other
    }
}

impl<const N: usize> Same for [u8; N] {
    fn is_same(&self, other: &[u8; N]) -> bool {
        self == other
    }
}

impl Same for NumberOrNone {
    fn is_same(&self, other: &NumberOrNone) -> bool {
        self == other
    }
}

impl<A: Same, B: Same> Same for (A, B) {
    fn is_same(&self, other: &(A, B)) -> bool {
        self.0.is_same(&other.0) && self.1.is_same(&other.1)
    }
}

impl Same for Point {
    fn is_same(&self, other: &Point) -> bool {
        self == other
    }
}

impl Same for Side {
    fn is_same(&self, other: &Side) -> bool {
        self == other
    }
}

impl Same for Ranges {
    fn is_same(&self, other: &Ranges) -> bool {
        self == other
    }
}

impl Same for Body1 {
    fn is_same(&self, other: &Body1) -> bool {
        self == other
    }
}

impl Same for Body5 {
    fn is_same(&self, other: &Body5) -> bool {
        self == other
    }
}

impl Same for Body7 {
    fn is_same(&self, other: &Body7) -> bool {
        self == other
    }
}

impl Same for BodyI {
    fn is_same(&self, other: &BodyI) -> bool {
        self == other
    }
}

impl Same for BodyP {
    fn is_same(&self, other: &BodyP) -> bool {
        self == other
    }
}

impl<T: Same> Same for Option<T> {
    fn is_same(&self, other: &Option<T>) -> bool {
        match self {
            Some(one) => match other {
                Some(other) => one.is_same(other),
                None => false,
            },
            None => other.is_none(),
        }
    }
}

impl Same for Rec1 {
    fn is_same(&self, other: &Rec1) -> bool {
        self.tlid() == other.tlid()
            && self.start() == other.start()
            && self.end() == other.end()
            && self.body().is_same(other.body())
    }
}

impl Same for Rec2 {
    fn is_same(&self, other: &Rec2) -> bool {
        self.tlid() == other.tlid()
            && self.rtsq() == other.rtsq()
            && are_same(&other.points(), &self.points())
    }
}

impl Same for Rec4 {
    fn is_same(&self, other: &Rec4) -> bool {
        self.tlid() == other.tlid() && self.rtsq() == other.rtsq() && self.feats() == other.feats()
    }
}

impl Same for Rec5 {
    fn is_same(&self, other: &Rec5) -> bool {
        self == other
    }
}

impl Same for Rec6 {
    fn is_same(&self, other: &Rec6) -> bool {
        self == other
    }
}

impl Same for Rec7 {
    fn is_same(&self, other: &Rec7) -> bool {
        self == other
    }
}

impl Same for Rec8 {
    fn is_same(&self, other: &Rec8) -> bool {
        self == other
    }
}

impl Same for RecI {
    fn is_same(&self, other: &RecI) -> bool {
        self.tlid() == other.tlid()
            && self.start_node() == other.start_node()
            && self.end_node() == other.end_node()
            && self.left().is_same(other.left())
            && self.right().is_same(other.right())
            && self.body().is_same(other.body())
    }
}

impl Same for RecP {
    fn is_same(&self, other: &RecP) -> bool {
        self == other
    }
}
