//! Chains that borrow from their records, and the county of such chains.

ghost use Rattle.std.specs.Prelude.{◌≡◌};

use county_chart::{LandmarkIn, NameIn, StoredChain, StoredCounty};
use std::marker::Model;
use tl_layout::{Body1, BodyI, Point, Ranges, Rec1, RecI, Side};

/// A chain without its TLID that borrows its records of types 1 and I. Its points, FEATs and further address ranges are borrowed
/// too, for example from an arena.
#[derive(Drop)]
pub struct ChainOver<'a> {
    basics: &'a Rec1,
    topology: &'a RecI,
    points: &'a [Point],
    feats: &'a [u32],
    ranges: &'a [Ranges],
}

impl<'a> Model for ChainOver<'a> {
    ghost use Rattle.tl_shape.specs.Chain.{Chain};

    ghost Value = { Chain };

    ghost view = { λ c. record {
      body = c.basics.now.body;
      points = c.points.now;
      feats = c.feats.now;
      ranges = c.ranges.now;
      topology = c.topology.now.body;
      start_node = c.topology.now.start_node;
      end_node = c.topology.now.end_node;
      left = c.topology.now.left;
      right = c.topology.now.right;
    } };
}

impl<'a> ChainOver<'a> {
    /// Makes the chain of a type 1 record and a type I record, with all of its points, its FEATs and its further address ranges.
    pub(crate) fn new(
        basics: &'a Rec1,
        topology: &'a RecI,
        points: &'a [Point],
        feats: &'a [u32],
        ranges: &'a [Ranges],
    ) -> ChainOver<'a>
        ensures { result ≡ record {
          body = basics.now.body;
          points = points.now;
          feats = feats.now;
          ranges = ranges.now;
          topology = topology.now.body;
          start_node = topology.now.start_node;
          end_node = topology.now.end_node;
          left = topology.now.left;
          right = topology.now.right;
        } }
    {
        ChainOver {
            basics,
            topology,
            points,
            feats,
            ranges,
        }
    }
}

impl<'a> StoredChain for ChainOver<'a> {
    ghost chain = { λ c. c };

    fn body(&self) -> &Body1 {
        self.basics.body()
    }

    fn points(&self) -> &[Point] {
        self.points
    }

    fn feats(&self) -> &[u32] {
        self.feats
    }

    fn ranges(&self) -> &[Ranges] {
        self.ranges
    }

    fn topology(&self) -> &BodyI {
        self.topology.body()
    }

    fn start_node(&self) -> Option<u64> {
        self.topology.start_node()
    }

    fn end_node(&self) -> Option<u64> {
        self.topology.end_node()
    }

    fn left(&self) -> &Side {
        self.topology.left()
    }

    fn right(&self) -> &Side {
        self.topology.right()
    }
}

/// The map of one county that a set of records describes, as `County`, over the records themselves. The contents of chains and
/// names are read in place, in tables that outlive it; only lists that were joined are in an arena. Read it as a `Chart`.
pub type CountyOver<'a> = StoredCounty<ChainOver<'a>, NameIn<'a>, LandmarkIn<'a>>;
