//! Chains with borrowed lists.

ghost use Rattle.std.specs.List.{AllByRecursion};
ghost use Rattle.std.specs.Prelude.{length, ◌≡◌, ◌≤◌};
ghost use Rattle.tl_layout.specs.Numbers.{IsNumber, IsNumberOrNone};

use crate::chain::Surroundings;
use std::marker::Model;
use tl_layout::{Body1, BodyI, Point, Ranges, Side};

/// A chain without its TLID, like [`Chain`](crate::Chain), with borrowed points, FEATs and further address ranges, as in an
/// arena.
#[derive(Debug, Drop)]
pub struct ChainIn<'a> {
    body: Body1,
    points: &'a [Point],
    feats: &'a [u32],
    ranges: &'a [Ranges],
    topology: BodyI,
    surroundings: Surroundings,
}

impl<'a> Model for ChainIn<'a> {
    ghost use Rattle.std.specs.List.{AllByRecursion};
    ghost use Rattle.std.specs.Prelude.{length, ◌≤◌};
    ghost use Rattle.tl_layout.specs.Numbers.{IsNumber, IsNumberOrNone};
    ghost use Rattle.tl_shape.specs.Chain.{Chain};

    ghost Value = { Chain };

    ghost view = { λ c. record {
      body = c.body;
      points = c.points.now;
      feats = c.feats.now;
      ranges = c.ranges.now;
      topology = c.topology;
      start_node = c.surroundings.start_node;
      end_node = c.surroundings.end_node;
      left = c.surroundings.left;
      right = c.surroundings.right;
    } };

    ghost invariant = { λ c. (2 ≤ length c.points.now) × AllByRecursion (IsNumber 8) c.feats.now
        × IsNumberOrNone 10 c.surroundings.start_node × IsNumberOrNone 10 c.surroundings.end_node };
}

impl<'a> ChainIn<'a> {
    /// Makes a chain from its members. There must be at least two points; FEATs must be from 1 to 99,999,999, and node
    /// numbers from 1 to 9,999,999,999.
    pub fn new(
        body: Body1,
        points: &'a [Point],
        feats: &'a [u32],
        ranges: &'a [Ranges],
        topology: BodyI,
        surroundings: Surroundings,
    ) -> ChainIn<'a>
        requires points { 2 ≤ length points.now }
        requires feats { AllByRecursion (IsNumber 8) feats.now }
        requires nodes { IsNumberOrNone 10 surroundings.start_node × IsNumberOrNone 10 surroundings.end_node }
        ensures body { result.body ≡ body }
        ensures points { result.points ≡ points.now }
        ensures feats { result.feats ≡ feats.now }
        ensures ranges { result.ranges ≡ ranges.now }
        ensures topology { result.topology ≡ topology }
        ensures nodes { (result.start_node ≡ surroundings.start_node) × (result.end_node ≡ surroundings.end_node) }
        ensures sides { (result.left ≡ surroundings.left) × (result.right ≡ surroundings.right) }
    {
        ChainIn {
            body,
            points,
            feats,
            ranges,
            topology,
            surroundings,
        }
    }

    /// Returns the content of the chain's record of type 1.
    pub fn body(&self) -> &Body1
        ensures { result.now ≡ self.now.body }
    {
        &self.body
    }

    /// Returns the chain's points (record types 1 and 2), from its start to its end, at least two.
    pub fn points(&self) -> &'a [Point]
        ensures value { result.now ≡ self.now.points }
        ensures two { 2 ≤ length self.now.points }
    {
        self.points
    }

    /// Returns the FEATs of the chain's further names (record type 4), in order, each from 1 to 99,999,999.
    pub fn feats(&self) -> &'a [u32]
        ensures value { result.now ≡ self.now.feats }
        ensures in_range { AllByRecursion (IsNumber 8) result.now }
    {
        self.feats
    }

    /// Returns the chain's further address ranges (record type 6), in order.
    pub fn ranges(&self) -> &'a [Ranges]
        ensures { result.now ≡ self.now.ranges }
    {
        self.ranges
    }

    /// Returns the content of the chain's record of type I.
    pub fn topology(&self) -> &BodyI
        ensures { result.now ≡ self.now.topology }
    {
        &self.topology
    }

    /// Returns the number of the node at the chain's start (TZIDS), from 1 to 9,999,999,999, or none.
    pub fn start_node(&self) -> Option<u64>
        ensures value { result ≡ self.now.start_node }
        ensures in_range { IsNumberOrNone 10 result }
    {
        self.surroundings.start_node
    }

    /// Returns the number of the node at the chain's end (TZIDE), from 1 to 9,999,999,999, or none.
    pub fn end_node(&self) -> Option<u64>
        ensures value { result ≡ self.now.end_node }
        ensures in_range { IsNumberOrNone 10 result }
    {
        self.surroundings.end_node
    }

    /// Returns the polygon on the chain's left side (CENIDL, POLYIDL).
    pub fn left(&self) -> &Side
        ensures { result.now ≡ self.now.left }
    {
        &self.surroundings.left
    }

    /// Returns the polygon on the chain's right side (CENIDR, POLYIDR).
    pub fn right(&self) -> &Side
        ensures { result.now ≡ self.now.right }
    {
        &self.surroundings.right
    }
}
