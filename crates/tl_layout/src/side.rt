//! The polygon on one side of a chain.

ghost use Rattle.std.specs.Prelude.{◌≡◌};
ghost use Rattle.tl_layout.specs.Bytes.{AreAllowed, IsText};
ghost use Rattle.tl_layout.specs.Numbers.{IsNumberOrNone};
ghost use Rattle.tl_layout.specs.PolygonSide.{PolygonSide};

use crate::{NumberOrNone, Text};
use std::marker::Model;

/// The polygon on one side of a chain (record type I, CENIDL with POLYIDL, CENIDR with POLYIDR): the CENID, which is
/// always present and can be blank, and the POLYID, from 1 to 9,999,999,999, or none.
#[derive(Clone, Copy, Debug, PartialEq, Eq)]
pub struct Side {
    cenid: Text<5>,
    polyid: NumberOrNone,
}

impl Model for Side {
    ghost Value = { PolygonSide };

    ghost view = { λ s. record { cenid = s.cenid; polyid = s.polyid } };

    ghost invariant = { λ s. IsNumberOrNone 10 s.polyid };

    ghost inverse = { λ s. record { cenid = s.cenid; polyid = s.polyid } };
}

impl Side {
    /// Makes a side from this CENID, whose bytes must be allowed in a line, and this POLYID, or none.
    pub fn new(cenid: [u8; 5], polyid: Option<u64>) -> Side
        requires cenid { AreAllowed cenid }
        requires polyid { IsNumberOrNone 10 polyid }
        ensures { result ≡ record { cenid = cenid; polyid = polyid } }
    {
        Side::of(Text::new(cenid), polyid)
    }

    /// Makes a side from this CENID and this POLYID, or none.
    pub(crate) fn of(cenid: Text<5>, polyid: Option<u64>) -> Side
        requires { IsNumberOrNone 10 polyid }
        ensures { result ≡ record { cenid = cenid; polyid = polyid } }
    {
        Side {
            cenid,
            polyid: NumberOrNone::new(polyid),
        }
    }

    /// Returns the CENID (CENIDL or CENIDR).
    pub fn cenid(&self) -> [u8; 5]
        ensures value { result ≡ self.now.cenid }
        ensures text { IsText 5 result }
    {
        self.cenid.bytes()
    }

    /// Returns the CENID, by reference.
    pub(crate) fn cenid_text(&self) -> &Text<5>
        ensures { result.now ≡ self.now.cenid }
    {
        &self.cenid
    }

    /// Returns the POLYID, or none (POLYIDL or POLYIDR).
    pub fn polyid(&self) -> Option<u64>
        ensures value { result ≡ self.now.polyid }
        ensures in_range { IsNumberOrNone 10 result }
    {
        self.polyid.get()
    }

    /// Proves that both fields fit their columns, which their types guarantee. Does nothing at run time.
    pub(crate) fn show_fit(&self)
        ensures cenid { IsText 5 self.now.cenid }
        ensures polyid { IsNumberOrNone 10 self.now.polyid }
    {
        self.cenid.show_fit();
    }
}
