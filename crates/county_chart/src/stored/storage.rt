//! How a county can store its chains, names and landmarks.

ghost use Rattle.std.specs.Prelude.{◌≡◌};

use tl_layout::{Body1, Body5, Body7, BodyI, Point, Ranges, Rec8, Side};
use tl_shape::{Chain, ChainIn};

/// A chain without its TLID, whatever its storage.
pub trait StoredChain: Drop {
    ghost use Rattle.tl_shape.specs.Chain.{Chain};

    /// The chain.
    ghost chain: { Self → Chain };

    /// Returns the content of its record of type 1.
    fn body(&self) -> &Body1
        ensures { result.now ≡ (chain self.now).body };

    /// Returns its points, from its start node to its end node, in millionths of a degree.
    fn points(&self) -> &[Point]
        ensures { result.now ≡ (chain self.now).points };

    /// Returns the FEATs of its further names (record type 4).
    fn feats(&self) -> &[u32]
        ensures { result.now ≡ (chain self.now).feats };

    /// Returns its further address ranges (record type 6).
    fn ranges(&self) -> &[Ranges]
        ensures { result.now ≡ (chain self.now).ranges };

    /// Returns the content of its record of type I.
    fn topology(&self) -> &BodyI
        ensures { result.now ≡ (chain self.now).topology };

    /// Returns the node where it starts (record type I, TZIDS), or none.
    fn start_node(&self) -> Option<u64>
        ensures { result ≡ (chain self.now).start_node };

    /// Returns the node where it ends (record type I, TZIDE), or none.
    fn end_node(&self) -> Option<u64>
        ensures { result ≡ (chain self.now).end_node };

    /// Returns its left side (record type I, CENIDL and POLYIDL).
    fn left(&self) -> &Side
        ensures { result.now ≡ (chain self.now).left };

    /// Returns its right side (record type I, CENIDR and POLYIDR).
    fn right(&self) -> &Side
        ensures { result.now ≡ (chain self.now).right };
}

/// A name without its FEAT, whatever its storage.
pub trait StoredName: Drop {
    ghost use Rattle.tl_layout.specs.declared.type5.Body5.{Body5};

    /// The name.
    ghost name: { Self → Body5 };

    /// Returns the content of its record of type 5.
    fn content(&self) -> &Body5
        ensures { result.now ≡ name self.now };
}

/// A landmark without its LAND, whatever its storage: the contents of its type 7 records and its type 8 records, both in order and
/// repeated as often as in the set.
pub trait StoredLandmark: Drop {
    ghost use Rattle.county_chart.specs.LandmarkParts.{LandmarkParts};

    /// The landmark.
    ghost landmark: { Self → LandmarkParts };

    /// Returns the contents of its type 7 records, ordered by FILE, SOURCE, CFCC, LANAME and the point, with no point first.
    fn bodies(&self) -> &[Body7]
        ensures { result.now ≡ (landmark self.now).bodies };

    /// Returns its type 8 records, ordered by POLYID, CENID and FILE.
    fn links(&self) -> &[Rec8]
        ensures { result.now ≡ (landmark self.now).links };
}

/// A chain that owns its lists.
impl StoredChain for Chain {
    ghost chain = { λ c. c };

    fn body(&self) -> &Body1 {
        self.body()
    }

    fn points(&self) -> &[Point] {
        self.shape().points()
    }

    fn feats(&self) -> &[u32] {
        self.feats()
    }

    fn ranges(&self) -> &[Ranges] {
        self.ranges()
    }

    fn topology(&self) -> &BodyI {
        self.topology()
    }

    fn start_node(&self) -> Option<u64> {
        self.start_node()
    }

    fn end_node(&self) -> Option<u64> {
        self.end_node()
    }

    fn left(&self) -> &Side {
        self.left()
    }

    fn right(&self) -> &Side {
        self.right()
    }
}

/// A chain that borrows its lists, for example from an arena.
impl<'a> StoredChain for ChainIn<'a> {
    ghost chain = { λ c. c };

    fn body(&self) -> &Body1 {
        self.body()
    }

    fn points(&self) -> &[Point] {
        self.points()
    }

    fn feats(&self) -> &[u32] {
        self.feats()
    }

    fn ranges(&self) -> &[Ranges] {
        self.ranges()
    }

    fn topology(&self) -> &BodyI {
        self.topology()
    }

    fn start_node(&self) -> Option<u64> {
        self.start_node()
    }

    fn end_node(&self) -> Option<u64> {
        self.end_node()
    }

    fn left(&self) -> &Side {
        self.left()
    }

    fn right(&self) -> &Side {
        self.right()
    }
}

/// The name's content itself.
impl StoredName for Body5 {
    ghost name = { λ n. n };

    fn content(&self) -> &Body5 {
        self
    }
}
